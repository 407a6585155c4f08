// A row's terms, as they are lent to the analysis, and whether they are within the limits that keep every number in its word.
//
// The public function answers for every input, in the order of the definition; what is lent it only reads. Nothing is assumed. This crate
// knows of terms alone: it must not know of plans, or of how an answer comes about. Tests are joined by `&`, which has no branch.
#![tactic(auto)]

ghost use Rattle.std.specs.Prelude.{◌≡◌, true};
ghost use Rattle.terms.specs.Gathered.{lent_terms, share_fits, shares_fit, source_fits, sources_fit, row_fits, long_enough, fits};
ghost use Rattle.terms.specs.Fit.{FitRow};

use names::{SOURCES, STREAMS, TICKS};

// A stream of C'' at most this much is within the limits.
pub const COST: u64 = 5000000;

// The noise sources and, after them, the more urgent streams: each a stair of a right side.
pub const STAIRS: usize = SOURCES + STREAMS;

// A row's own terms: of the streams of hp(i) and of the noise sources it has only how many there are.
#[derive(Clone, Copy)]
pub struct Gathered {
    pub blocking: u64,
    pub cost: u64,
    pub period: u64,
    pub jitter: u64,
    pub urgent: usize,
    pub sources: usize,
    pub hit: u64,
    pub late: u64,
    pub last: u64,
}

// A row's own terms, and the costs and periods that are lent beside them: first as many hits and gaps as there are noise sources, and then
// those of hp(i), `urgent` of them; and the jitters of these. More may be lent than that: one list of streams in order of urgency serves all
// rows, and hp(i) is its front. They are three lists, and not one of shares, since `long_enough` speaks of the length of each.
#[derive(Clone, Copy)]
pub struct LentTerms<'a> {
    pub row: Gathered,
    pub costs: &'a [u64],
    pub periods: &'a [u64],
    pub jitters: &'a [u64],
}

fn share_fits(cost: u64, period: u64, jitter: u64) -> bool
    ensures { result ≡ share_fits (record { C'' = cost; T = period; J = jitter }) }
{
    (cost <= COST) & (1 <= period) & (period <= TICKS) & (jitter <= TICKS)
}

// There is no way out of the loop: measured, `all`, which leaves at the first that fails, takes longer where all of many pass.
fn shares_fit(terms: LentTerms) -> bool
    requires { long_enough (lent_terms terms) ≡ true }
    ensures { result ≡ shares_fit (lent_terms terms.entry) }
{
    let from = terms.row.sources;
    let mut all = true;
    for k in 0..terms.row.urgent {
        all &= share_fits(
            terms.costs[from + k],
            terms.periods[from + k],
            terms.jitters[k],
        );
    }
    all
}

// A source's stair: its gap is within the limits, and its cost is a hit.
fn source_fits(hit: u64, each: u64, gap: u64) -> bool
    ensures { result ≡ source_fits hit each gap }
{
    (1 <= gap) & (gap <= TICKS) & (each == hit)
}

// The sources are gone through as the shares are.
fn sources_fit(terms: LentTerms) -> bool
    requires { long_enough (lent_terms terms) ≡ true }
    ensures { result ≡ sources_fit terms.entry.row terms.entry.costs.now terms.entry.periods.now }
{
    let hit = terms.row.hit;
    let mut all = true;
    for k in 0..terms.row.sources {
        all &= source_fits(hit, terms.costs[k], terms.periods[k]);
    }
    all
}

fn row_fits(g: Gathered) -> bool
    ensures { result ≡ row_fits g }
{
    (g.blocking <= COST)
        & (g.hit <= COST)
        & (g.late < g.cost)
        & (1 <= g.last)
        & (g.last <= g.cost)
        & (g.urgent <= STREAMS)
        & (g.sources <= SOURCES)
        & share_fits(g.cost, g.period, g.jitter)
}

// A row that is within the limits says how much must be lent.
fn long_enough(terms: LentTerms) -> bool
    requires { FitRow terms.row }
    ensures { result ≡ long_enough (lent_terms terms.entry) }
{
    let urgent = terms.row.urgent;
    let n = terms.row.sources + urgent;
    (n <= terms.costs.len()) & (n <= terms.periods.len()) & (urgent <= terms.jitters.len())
}

// The lists are looked at only where all of them that counts is lent.
pub fn terms_fit(terms: LentTerms) -> bool
    ensures { result ≡ fits (lent_terms terms.entry) }
{
    if !row_fits(terms.row) {
        return false;
    }
    if !long_enough(terms) {
        return false;
    }
    shares_fit(terms) & sources_fit(terms)
}
