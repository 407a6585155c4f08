// A row's own terms: what it is itself, and what those before it and behind it are to it.
ghost use Rattle.std.specs.Prelude.{◌≡◌, ℕ, ◌+◌, ◌-◌, ◌≤◌, ◌<◌, length, get_or};
ghost use Rattle.terms.specs.Gathered.{cost};
ghost use Rattle.plan.specs.Rules.{self_or_slotted, airtime};
ghost use Rattle.carried.specs.Carried.{timing_in};
ghost use Rattle.answers.specs.private.Gather.{largest_in, Cheapest, Ordered, RowOf};
ghost use Rattle.answers.specs.private.FinePlan.{seat};

use crate::fine::FinePlan;
use crate::read::{JITTER, PERIOD, whole_of, word_of};
use costs::Overheads;
use names::Row;
use terms::Gathered;

// Places here and below are a part of the costs, from one up to another, since the part that counts differs from row to row.
// The largest cost from one place on and before another, or 0 if there is none between: as words of 32 bits, of which several are compared at
// once.
fn dearest(costs: &[u64], from: usize, to: usize) -> u64
    requires from_le_to { from ≤ to }
    requires to_in_bounds { to ≤ length costs.now }
    requires by_index { (k : ℕ) → from ≤ k → k < to → get_or costs.now k 0 ≤ cost }
    ensures { result ≡ largest_in costs.now from to }
{
    let mut most: u32 = 0;
    for cost in &costs[from..to] {
        most = most.max(*cost as u32);
    }
    u64::from(most)
}

// The smallest cost from one place on and up to another, that one too: so there is one, where the smallest of a slice might be none.
pub(crate) fn cheapest(costs: &[u64], from: usize, to: usize) -> u64
    requires from_le_to { from ≤ to }
    requires to_in_bounds { to < length costs.now }
    ensures { Cheapest costs.now from to result }
{
    let mut least = costs[to];
    for cost in &costs[from..to] {
        least = least.min(*cost);
    }
    least
}

// B, by the largest C'' behind: a tick less than that stream's C', or 0 if there is none; and in slots a tick less than a slot.
fn blocking(over: Overheads, behind: u64) -> u64
    ensures { result ≡ self_or_slotted over.slot (behind - (over.lead + 1)) (over.slot - 1) }
{
    if over.slot != 0 {
        return over.slot - 1;
    }
    if behind <= over.lead {
        return 0;
    }
    behind - over.lead - 1
}

// The own terms of a row, where the costs of all streams stand in order after m noise sources.
pub(crate) fn gathered(fine: FinePlan, row: Row, place: usize, costs: &[u64]) -> Gathered
    requires row_lt_n { row.0 < fine.n }
    requires place_value { place ≡ seat fine row.0 }
    requires ordered { Ordered (airtime (timing_in fine.words.now)) fine.words.now fine.n fine.m fine.n costs.now }
    ensures { RowOf fine.entry.words.now fine.entry.n fine.entry.m row.0 result }
{
    let k = row.0;
    let here = fine.m + place;
    let hit = dearest(costs, fine.m, here + 1);
    let behind = dearest(costs, here + 1, fine.m + fine.n);
    let period = word_of(fine.words, k, PERIOD);
    let jitter = word_of(fine.words, k, JITTER);
    let last = whole_of(fine, k);
    Gathered {
        blocking: blocking(fine.over, behind),
        cost: costs[here],
        period,
        jitter,
        urgent: place,
        sources: fine.m,
        hit,
        late: fine.over.late,
        last,
    }
}
