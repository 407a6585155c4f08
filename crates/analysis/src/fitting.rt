// Lent terms that are known to be within the limits.
ghost use Rattle.std.specs.Prelude.{◌≡◌, ◌+◌};
ghost use Rattle.terms.specs.Gathered.{lent_terms};
ghost use Rattle.terms.specs.Fit.{Fit};

use terms::LentTerms;

#[derive(Clone, Copy)]
pub(crate) struct Fitting<'a> {
    pub(crate) terms: LentTerms<'a>,
    ghost fit: { Fit (lent_terms terms) },
}

impl<'a> Fitting<'a> {
    // How many stairs the right sides have.
    pub(crate) fn stairs(self) -> usize
        ensures { result ≡ self.entry.terms.row.sources + self.entry.terms.row.urgent }
    {
        self.terms.row.sources + self.terms.row.urgent
    }
}
