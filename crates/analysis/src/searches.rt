// The searches of a row: the busy period L, w(q) for each instance, and the largest term; and the answer that they give.
//
// The search for L is the plain chain from 1, one evaluation of the right side a turn, and the turns are counted; all searches of a row for
// w climb once.
ghost use Rattle.std.specs.Prelude.{◌≡◌, ◌+◌, ◌*◌, ◌^◌, ◌≤◌, ◌<◌, pos, ◌-ℤ◌, MatchOption};
ghost use Rattle.names.specs.Limits.{ticks};
ghost use Rattle.laws.specs.Lists.{ceil};
ghost use Rattle.bound.specs.Bound as rule;
ghost use Rattle.bound.specs.Evaluations.{searched};
ghost use Rattle.terms.specs.Gathered.{stairs as most};
ghost use Rattle.analysis.specs.private.Fitting.{terms_in, stairs_in};
ghost use Rattle.analysis.specs.private.Stairs.{lot, Room, Stand, Near};
ghost use Rattle.analysis.specs.private.Chains.{OwnKept, own_l, EndsAs, no_bound, Bounded, side, Settled, larger_of};

use crate::fitting::Fitting;
use crate::stairs::{Climber, LOT, START, periods_past};
use bound::{Answer, Searched, Verdict};
use names::{FEW, SOURCES, TICKS};
use terms::STAIRS;

// The stairs of few streams, and the lots of these and of the most: whole numbers.
const FEW_STAIRS: usize = SOURCES + FEW;

const FEW_LOTS: usize = FEW_STAIRS / LOT;

const LOTS: usize = STAIRS / LOT;

// The least busy period there can be, where the chains for L start.
pub(crate) const FIRST: u64 = 1;

// i's own stair, on which x stands at x + J: its edge, and B with how high the stair is up to there.
#[derive(Clone, Copy)]
pub(crate) struct Own {
    pub(crate) edge: u64,
    pub(crate) sum: u64,
}

pub(crate) fn own_start(fitting: Fitting) -> Own
    ensures { OwnKept fitting.entry.terms.row result 0 }
{
    Own {
        edge: 0,
        sum: fitting.terms.row.blocking,
    }
}

// i's own stair at x, with its edge gone on.
pub(crate) fn own_at(fitting: Fitting, own: Own, x: u64) -> Own
    requires x_le_ticks { x ≤ ticks }
    requires own_kept { OwnKept fitting.terms.row own x }
    ensures sum_value { result.sum ≡ own_l fitting.entry.terms.row x }
    ensures own_kept_2 { OwnKept fitting.entry.terms.row result x }
{
    let g = fitting.terms.row;
    let d = periods_past(x + g.jitter, own.edge, g.period);
    let edge = own.edge + d * g.period;
    let sum = own.sum + d * g.cost;
    Own { edge, sum }
}

// Where the chain for L ended: its last value, which is L or beyond the last tick, and how many evaluations there were.
#[derive(Clone, Copy)]
pub(crate) struct Ended {
    pub(crate) last: u64,
    pub(crate) evaluations: u64,
}

impl Ended {
    // L, or none if the chain passed the last tick.
    pub(crate) fn busy(self) -> Option<u64>
        ensures { MatchOption result (ticks < self.last) (λ L. (L ≡ self.last) × (L ≤ ticks)) }
    {
        if TICKS < self.last {
            return None;
        }
        Some(self.last)
    }
}

// a - b, which may be below zero.
pub(crate) fn term(a: u64, b: u64) -> i64
    requires a_bound { a < 2 ^ 63 }
    requires b_bound { b < 2 ^ 63 }
    ensures { result ≡ pos a -ℤ pos b }
{
    a as i64 - b as i64
}

// A term and its instance.
#[derive(Clone, Copy)]
struct Reached {
    term: i64,
    instance: u64,
}

// The earlier of two equal terms is kept.
fn larger(best: Reached, next: Reached) -> Reached
    ensures { result ≡ larger_of best next }
{
    if best.term < next.term { next } else { best }
}

// Q: how many instances a busy period has.
fn instances(l: u64, jitter: u64, period: u64) -> u64
    requires l_le_ticks { l ≤ ticks }
    requires jitter_le_ticks { jitter ≤ ticks }
    requires le_period { 1 ≤ period }
    requires period_le_ticks { period ≤ ticks }
    ensures { result ≡ ceil (l + jitter) period }
{
    (l + jitter).div_ceil(period)
}

pub(crate) fn judged(bound: u64, instance: u64, deadline: u64) -> Answer
    ensures { result ≡ record { verdict = rule.verdict bound deadline; bound = bound; instance = instance } }
{
    let verdict = if bound <= deadline {
        Verdict::Met
    } else {
        Verdict::Missed
    };
    Answer {
        verdict,
        bound,
        instance,
    }
}

// None: what there is to say after so many evaluations.
pub(crate) fn no_bound(evaluations: u64) -> Searched
    ensures { result ≡ no_bound evaluations }
{
    let answer = Answer {
        verdict: Verdict::None,
        bound: 0,
        instance: 0,
    };
    Searched {
        answer,
        evaluations,
        x: TICKS,
    }
}

impl<const ROOM: usize, const LOTS_ROOM: usize> Climber<ROOM, LOTS_ROOM> {
    // The chain for L: from 1, one evaluation of the right side a turn. The stairs come before i's own: measured, that is faster.
    fn busy_period(&mut self, fitting: Fitting) -> Ended
        requires { Room ROOM LOTS_ROOM (stairs_in fitting) }
        ensures { EndsAs (terms_in fitting.entry) result }
    {
        self.start(fitting, 0, 0);
        let mut own = own_start(fitting);
        let mut rest: u64 = 0;
        let mut x = FIRST;
        let mut evaluations: u64 = 0;
        while x <= TICKS {
            rest = self.climbed(fitting, x + START, rest);
            own = own_at(fitting, own, x);
            let y = own.sum + rest;
            evaluations += 1;
            if y == x {
                return Ended {
                    last: y,
                    evaluations,
                };
            }
            x = y;
        }
        Ended {
            last: x,
            evaluations,
        }
    }

    // The least fixed point from `from` on of base + sum + what the stairs rise by: w(q), once it is known not to be below.
    fn settled(&mut self, fitting: Fitting, base: u64, from: u64, sum: u64) -> u64
        requires stand { Stand fitting.terms.costs.now fitting.terms.periods.now self.old (stairs_in fitting) }
        requires bounded { Bounded (side fitting.terms.costs.now fitting.terms.periods.now self.old.edges (stairs_in fitting) base sum) from }
        ensures settled { Settled fitting.entry.terms.costs.now fitting.entry.terms.periods.now self.old.edges self.new.edges (stairs_in fitting.entry) base sum from result }
        ensures near { Near self.new (stairs_in fitting.entry) }
    {
        let mut x = from;
        let mut total = sum;
        loop {
            total = self.climbed(fitting, x + START, total);
            let y = base + total;
            if y == x {
                return x;
            }
            x = y;
        }
    }

    // What the largest term J + w(q) + C'' - q * T gives, and the first q that has it. The search for w(q + 1) starts at w(q) + C'', with the
    // edges where they are.
    fn worst(&mut self, fitting: Fitting, l: u64, deadline: u64) -> Answer
        requires busy { rule.busy (terms_in fitting) ≡ Some l }
        requires room { Room ROOM LOTS_ROOM (stairs_in fitting) }
        ensures { result ≡ rule.answer (terms_in fitting.entry) deadline }
    {
        let row = fitting.terms.row;
        self.start(fitting, row.late + 1, row.cost);
        let count = instances(l, row.jitter, row.period);
        let ends = row.jitter + row.last;
        let cost = row.cost;
        let mut base = row.blocking;
        let mut wait = self.settled(fitting, base, 0, 0);
        let first = term(ends + wait, 0);
        let mut best = Reached {
            term: first,
            instance: 0,
        };
        for q in 1..count {
            let sum = wait - base;
            base += cost;
            wait = self.settled(fitting, base, wait + cost, sum);
            let next = term(ends + wait, q * row.period);
            best = larger(
                best,
                Reached {
                    term: next,
                    instance: q,
                },
            );
        }
        judged(best.term as u64, best.instance, deadline)
    }

    // The answer among other streams and noise sources, in rooms that are set before they are read. It stays a function of its own: measured,
    // the chains run slower where the searches of both rooms stand in one.
    #[inline(never)]
    fn search(&mut self, fitting: Fitting, deadline: u64) -> Searched
        requires { Room ROOM LOTS_ROOM (stairs_in fitting) }
        ensures { result ≡ searched (terms_in fitting.entry) deadline }
    {
        let ended = self.busy_period(fitting);
        match ended.busy() {
            Some(l) => {
                let answer = self.worst(fitting, l, deadline);
                Searched {
                    answer,
                    evaluations: ended.evaluations,
                    x: l,
                }
            }
            None => no_bound(ended.evaluations),
        }
    }
}

// The same in rooms for so many stairs, and for the lots that these stand in.
fn answer_in<const ROOM: usize, const LOTS_ROOM: usize>(fitting: Fitting, deadline: u64) -> Searched
    requires stairs { stairs_in fitting ≤ ROOM }
    requires lots { ROOM ≡ LOTS_ROOM * lot }
    requires few { ROOM ≤ most }
    ensures { result ≡ searched (terms_in fitting.entry) deadline }
{
    let mut climber = Climber {
        edges: [0; ROOM],
        nearest: [0; LOTS_ROOM],
    };
    climber.search(fitting, deadline)
}

// The answer among other streams and noise sources. Few stairs have small rooms.
pub(crate) fn answer_among(fitting: Fitting, deadline: u64) -> Searched
    ensures { result ≡ searched (terms_in fitting.entry) deadline }
{
    if fitting.stairs() <= FEW_STAIRS {
        return answer_in::<FEW_STAIRS, FEW_LOTS>(fitting, deadline);
    }
    answer_in::<STAIRS, LOTS>(fitting, deadline)
}
