// The answer of one stream, and the number of evaluations that the search for its L takes, exactly as the crate bound defines them over the
// terms of its row.
//
// The public function answers for every input: terms that are not within the limits are told so. Nothing is assumed. This crate knows of
// terms alone, and must not know of plans, labels or files. What it is lent it only reads. Its rooms: fitting (terms that are known to be within
// the limits), stairs (a right side, and how it goes on), searches (L, w and the largest term), alone (a stream with nobody else on the channel).
#![tactic(auto)]

mod alone;
mod fitting;
mod searches;
mod stairs;

ghost use Rattle.std.specs.Prelude.{◌≡◌};
ghost use Rattle.terms.specs.Gathered.{lent_terms};
ghost use Rattle.analysis.specs.Answered.{answered};

use alone::answer_alone;
use bound::Searched;
use fitting::Fitting;
use searches::answer_among;
use terms::{LentTerms, terms_fit};

// The answer of a row's terms for a deadline, with the number of evaluations that it took; none, if the terms are not within the limits.
pub fn answer(terms: LentTerms, deadline: u64) -> Option<Searched>
    ensures { result ≡ answered (lent_terms terms.entry) deadline }
{
    if !terms_fit(terms) {
        return None;
    }
    let fitting = Fitting { terms };
    if fitting.stairs() == 0 {
        return Some(answer_alone(fitting, deadline));
    }
    Some(answer_among(fitting, deadline))
}
