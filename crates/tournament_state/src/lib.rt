// The state of a tournament, and when the answer is no: refusals 7, 8 and 9 of document 01.
//
// `verdict` answers for every state that a caller makes up, and `pair_verdict` for two priorities alone;
// their contracts determine the answers. Neither has a `requires`, and nothing is assumed. This crate
// must not know how a bit is played.
#![tactic(auto)]

ghost use Rattle.std.specs.Prelude.{◌≡◌, map, ◌≤◌, take};
ghost use Rattle.names.specs.Limits.{contenders};
ghost use Rattle.tournament_state.specs.Refusals.{number, fits_in, lowest_unfit, phase_inside, lowest_repeat};
ghost use Rattle.tournament_state.specs.Refusals.{verdict_of, pair_verdict_of};

use judge::refused;
use names::{BITS, CONTENDERS, Priority, Refusal, Row};
use repeats::first_repeat;

// At a bit, with its number from 1 on, or finished, with the winner's row or with no winner.
#[derive(Clone, Copy)]
pub enum Phase {
    AtBit(u32),
    Finished(Row),
    NoWinner,
}

// Rows 0 to count - 1 are the contenders, a mark is true for in; the other places belong to nobody. There is no heap, so priorities and marks
// have fixed places, as document 01 has them, and a count beside them.
#[derive(Clone, Copy)]
pub struct Tournament {
    pub bits: u32,
    pub count: usize,
    pub priorities: [Priority; CONTENDERS],
    pub marks: [bool; CONTENDERS],
    pub phase: Phase,
}

// Every priority fits in 32 bits.
fn fits_in(bits: u32, p: Priority) -> bool
    ensures { result ≡ fits_in bits p }
{
    BITS <= bits || p.0 >> bits == 0
}

fn lowest_unfit(bits: u32, priorities: &[Priority]) -> Option<Row>
    ensures { result ≡ lowest_unfit bits priorities.now }
{
    priorities.iter().position(|p| !fits_in(bits, *p)).map(Row)
}

fn phase_inside(bits: u32, count: usize, phase: Phase) -> bool
    ensures { result ≡ phase_inside bits count phase }
{
    match phase {
        Phase::AtBit(k) => (1..=bits).contains(&k),
        Phase::Finished(row) => row.0 < count,
        Phase::NoWinner => true,
    }
}

// Place by place and not by `map`: measured, with that a parting bit takes a hundred times as long.
fn numbers(priorities: [Priority; CONTENDERS]) -> [u32; CONTENDERS]
    ensures { result ≡ map number priorities }
{
    let mut out = [0; CONTENDERS];
    for i in 0..CONTENDERS {
        let p = priorities[i];
        out[i] = p.0;
    }
    out
}

fn lowest_repeat(priorities: [Priority; CONTENDERS], count: usize) -> Option<Row>
    requires { count ≤ contenders }
    ensures { result ≡ lowest_repeat (take count priorities) }
{
    let values = numbers(priorities);
    first_repeat(&values[..count])
}

// The lines of document 01's table in their order, whatever else is wrong. Not of a Tournament, which would have to be given marks that no
// line looks at.
pub fn verdict(
    bits: u32,
    count: usize,
    priorities: [Priority; CONTENDERS],
    phase: Phase,
) -> Result<(), Refusal>
    ensures { result ≡ verdict_of bits count priorities phase }
{
    if !(1..=CONTENDERS).contains(&count) {
        return refused(7, 0);
    }
    if !(1..=BITS).contains(&bits) {
        return refused(8, 0);
    }
    if let Some(row) = lowest_unfit(bits, &priorities[..count]) {
        return refused(8, row.0);
    }
    if !phase_inside(bits, count, phase) {
        return refused(8, 0);
    }
    match lowest_repeat(priorities, count) {
        Some(row) => refused(9, row.0),
        None => Ok(()),
    }
}

// The same of two priorities alone, in rows 0 and 1: two contenders are never too few or too many, and a state with no winner
// has no bit and no row to look at.
pub fn pair_verdict(bits: u32, a: Priority, b: Priority) -> Result<(), Refusal>
    ensures { result ≡ pair_verdict_of bits a b }
{
    let mut pair = [Priority(0); CONTENDERS];
    pair[0] = a;
    pair[1] = b;
    verdict(bits, 2, pair, Phase::NoWinner)
}
