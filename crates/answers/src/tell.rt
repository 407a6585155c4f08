// What is told of a row: its answer, or how long the search for it may take.
ghost use Rattle.std.specs.Prelude.{◌≡◌, ℕ, ◌+◌, ◌*◌, ◌/◌, ◌≤◌, ◌<◌, length};
ghost use Rattle.names.specs.Limits.{ticks, streams};
ghost use Rattle.answers.specs.Answers.{Told, Answers, Waits, per_row};
ghost use Rattle.answers.specs.private.Gather.{Cheapest, RowTold};

use crate::own::cheapest;
use bound::{Answer, Searched, Wait};
use names::Row;
use row_words::{WORDS_PER_ROW, WORDS_PER_WAIT, put_answer, put_wait};

// What is told, by the type of it. This module is private, so no caller outside can name the trait or meet what its methods require.
pub trait Tell {
    ghost told: { Told };

    // How many words n rows take.
    fn room(n: usize) -> usize
        requires { n ≤ streams }
        ensures { result ≡ per_row told * n };

    // What is told of a row, in its words: by what its search found, and by the costs between two places.
    fn put_row(row: Row, s: Searched, costs: &[u64], from: usize, to: usize, out: &mut [u64])
        requires from_le_to { from ≤ to }
        requires to_in_bounds { to < length costs.now }
        requires x_le_ticks { s.x ≤ ticks }
        requires by_index { (v : ℕ) → Cheapest costs.now from to v → 1 ≤ v }
        ensures { RowTold told s costs.now from to row.0 out.old out.new };
}

impl Tell for Answer {
    ghost told = { Answers };

    fn room(n: usize) -> usize {
        WORDS_PER_ROW * n
    }

    fn put_row(row: Row, s: Searched, _costs: &[u64], _from: usize, _to: usize, out: &mut [u64]) {
        put_answer(out, row, s);
    }
}

// X / c + 1 beside the number of evaluations.
fn wait_of(s: Searched, c: u64) -> Wait
    requires le_c { 1 ≤ c }
    requires x_le_ticks { s.x ≤ ticks }
    ensures { result ≡ record { evaluations = s.evaluations; limit = s.x / c + 1 } }
{
    Wait {
        evaluations: s.evaluations,
        limit: s.x / c + 1,
    }
}

// X by the smallest cost between the two places.
impl Tell for Wait {
    ghost told = { Waits };

    fn room(n: usize) -> usize {
        WORDS_PER_WAIT * n
    }

    fn put_row(row: Row, s: Searched, costs: &[u64], from: usize, to: usize, out: &mut [u64]) {
        let c = cheapest(costs, from, to);
        put_wait(out, row, wait_of(s, c));
    }
}
