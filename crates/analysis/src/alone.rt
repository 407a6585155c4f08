// A stream alone on the channel, with nobody more urgent and no noise: its chain for L has its own stair alone, and its first instance is
// the worst.
ghost use Rattle.std.specs.Prelude.{◌≡◌};
ghost use Rattle.bound.specs.Evaluations.{searched};
ghost use Rattle.analysis.specs.private.Chains.{alone_terms, EndsAs};

use crate::fitting::Fitting;
use crate::searches::{Ended, FIRST, judged, no_bound, own_at, own_start, term};
use bound::Searched;
use names::TICKS;

// The chain for L: from 1, one evaluation of the right side a turn. It is not the chain with no other stairs in it: measured, that takes half as
// long again.
fn busy_alone(fitting: Fitting) -> Ended
    ensures { EndsAs (alone_terms fitting.entry.terms.row) result }
{
    let mut own = own_start(fitting);
    let mut x = FIRST;
    let mut evaluations: u64 = 0;
    while x <= TICKS {
        own = own_at(fitting, own, x);
        let y = own.sum;
        evaluations += 1;
        if y == x {
            return Ended {
                last: y,
                evaluations,
            };
        }
        x = y;
    }
    Ended {
        last: x,
        evaluations,
    }
}

// The largest term is the first: an instance then waits for B alone, or for those of its own before it, and these go faster than new ones
// come, or there were no busy period.
pub(crate) fn answer_alone(fitting: Fitting, deadline: u64) -> Searched
    ensures { result ≡ searched (alone_terms fitting.entry.terms.row) deadline }
{
    let ended = busy_alone(fitting);
    match ended.busy() {
        Some(l) => {
            let row = fitting.terms.row;
            let first = term(row.jitter + row.blocking + row.last, 0);
            let answer = judged(first as u64, 0, deadline);
            Searched {
                answer,
                evaluations: ended.evaluations,
                x: l,
            }
        }
        None => no_bound(ended.evaluations),
    }
}
