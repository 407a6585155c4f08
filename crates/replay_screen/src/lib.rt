// What the replay screen shows of a tournament: a line for each bit, and the winner in the last line, or the line of a refusal.
// Who goes silent at a bit is found as it is checked by hand, by where a priority and the winner's part.
//
// The one public function answers for every input, and its contract fixes each byte of the lent buffer. Nothing is assumed.
// This crate must not know the rule of the tournament, nor of input and output.
#![tactic(auto)]

ghost use Rattle.std.specs.Prelude.{◌≡◌, ◌||◌, cond, [], ◌++◌, ◌≤◌, get_or};
ghost use Rattle.names.specs.Limits.{contenders as Limits·contenders};
ghost use Rattle.text.specs.Put.{Lays};
ghost use Rattle.decimal.specs.Decimal.{digits};
ghost use Rattle.tournament_state.specs.Refusals.{none as Refusals·none};
ghost use Rattle.ascii.specs.Ascii.{ascii};
ghost use Rattle.replay_screen.specs.Shown.{marked, rows_text, carrier_text};
ghost use Rattle.replay_screen.specs.Shown.{bit_line, wins_line, winner_line, played_of, shown_of};
ghost use Rattle.replay_screen.specs.private.Begun.{Begun, won_with, silent_bit, silent_at};

use names::{BITS, CONTENDERS, Priority, Row};
use text::{lay_number, lay_refusal, lay_text};
use tournament::{listen, parting_bit, run, start, step};
use tournament_state::{Phase, Tournament};

// Every row after its space: ten rows have one digit, ninety have two, and the others three.
const ROWS: usize = 10 * 2 + 90 * 3 + (CONTENDERS - 100) * 4;

// The longest line of a bit: its words, a number of two digits, and every row in both places.
const BIT: usize = 4 + 2 + 2 + 13 + 14 + ROWS + 11 + ROWS + 1;

// The longest line of a winner: its words, a row of three digits and a priority of ten.
const WINNER: usize = 4 + 3 + 20 + 10 + 1;

// No replay has more bytes (specs/Claims.antt works it out in the same way), so a buffer of this length is never too small.
pub const SHOWN: usize = BITS as usize * BIT + WINNER;

// A row after a space, if it is marked.
fn lay_row(out: &mut [u8], at: usize, row: Row, mark: bool) -> usize
    ensures { Lays out.old at (cond mark (ascii " " ++ digits row.0) []) result out.new }
{
    if mark {
        let at = lay_text(out, at, b" ");
        return lay_number(out, at, row.0 as u64);
    }
    at
}

// That there are none, unless there are some.
fn lay_none(out: &mut [u8], at: usize, some: bool) -> usize
    ensures { Lays out.old at (cond some [] (ascii " none")) result out.new }
{
    if some {
        return at;
    }
    lay_text(out, at, b" none")
}

// The rows that are marked, or that there are none.
fn lay_rows(out: &mut [u8], at: usize, marks: [bool; CONTENDERS]) -> usize
    ensures { Lays out.old at (rows_text (marked marks)) result out.new }
{
    let mut next = at;
    let mut some = false;
    for (i, mark) in marks.iter().enumerate() {
        next = lay_row(out, next, Row(i), *mark);
        some |= *mark;
    }
    lay_none(out, next, some)
}

fn lay_carrier(out: &mut [u8], at: usize, heard: bool) -> usize
    ensures { Lays out.old at (carrier_text heard) result out.new }
{
    if heard {
        return lay_text(out, at, b"carrier heard");
    }
    lay_text(out, at, b"no carrier")
}

// The line of a bit, from the marks of those that go silent and of those that are still in.
fn lay_bit(
    out: &mut [u8],
    at: usize,
    k: u64,
    heard: bool,
    silent: [bool; CONTENDERS],
    still: [bool; CONTENDERS],
) -> usize
    ensures { Lays out.old at (bit_line k heard silent still) result out.new }
{
    let at = lay_text(out, at, b"bit ");
    let at = lay_number(out, at, k);
    let at = lay_text(out, at, b": ");
    let at = lay_carrier(out, at, heard);
    let at = lay_text(out, at, b"; goes silent:");
    let at = lay_rows(out, at, silent);
    let at = lay_text(out, at, b"; still in:");
    let at = lay_rows(out, at, still);
    lay_text(out, at, b"\n")
}

fn priority_at(priorities: [Priority; CONTENDERS], row: Row) -> Priority
    ensures { result ≡ get_or priorities row.0 Refusals·none }
{
    priorities.get(row.0).copied().unwrap_or(Priority(0))
}

fn lay_wins(out: &mut [u8], at: usize, row: Row, priority: Priority) -> usize
    ensures { Lays out.old at (wins_line row priority) result out.new }
{
    let at = lay_text(out, at, b"row ");
    let at = lay_number(out, at, row.0 as u64);
    let at = lay_text(out, at, b" wins with priority ");
    let at = lay_number(out, at, priority.0 as u64);
    lay_text(out, at, b"\n")
}

fn lay_winner(out: &mut [u8], at: usize, priorities: [Priority; CONTENDERS], phase: Phase) -> usize
    ensures { Lays out.old at (winner_line priorities phase) result out.new }
{
    match phase {
        Phase::Finished(row) => lay_wins(out, at, row, priority_at(priorities, row)),
        Phase::AtBit(_) | Phase::NoWinner => at,
    }
}

// The winner's priority; 0 where there is no winner, which no start comes to, so that an Option would have to be taken apart for nothing.
fn winning(priorities: [Priority; CONTENDERS], phase: Phase) -> Priority
    ensures { result ≡ won_with priorities phase }
{
    match phase {
        Phase::Finished(row) => priority_at(priorities, row),
        Phase::AtBit(_) | Phase::NoWinner => Priority(0),
    }
}

// The bit at which a contender goes silent: where its priority parts from the winner's. The winner's own is 0, no bit's number: an Option would
// only be held against Some(k) at the one call.
fn silent_bit(bits: u32, p: Priority, won: Priority) -> u32
    ensures { result ≡ silent_bit bits p won }
{
    parting_bit(bits, p, won).unwrap_or(0)
}

// Marks for those that go silent at bit k.
fn silent_at(t: Tournament, won: Priority, k: u32) -> [bool; CONTENDERS]
    requires { t.count ≤ Limits·contenders }
    ensures { result ≡ silent_at t won k }
{
    let mut marks = [false; CONTENDERS];
    for (i, p) in t.priorities[..t.count].iter().enumerate() {
        marks[i] = silent_bit(t.bits, *p, won) == k;
    }
    marks
}

// All lines of a tournament that is at its first bit: it is refused at none.
fn lay_played(out: &mut [u8], at: usize, t: Tournament) -> usize
    requires { Begun t }
    ensures { Lays out.old at (played_of t) result out.new }
{
    let end = run(t).unwrap();
    let won = winning(end.priorities, end.phase);
    let mut next = at;
    let mut now = t;
    for k in 0..t.bits {
        let bit = k + 1;
        let after = step(now).unwrap();
        let carrier = listen(now).unwrap_or(false);
        let silent = silent_at(t, won, bit);
        next = lay_bit(out, next, bit as u64, carrier, silent, after.marks);
        now = after;
    }
    lay_winner(out, next, end.priorities, end.phase)
}

// What is shown of a bit count and the priorities of so many contenders, from a place on.
pub fn lay_shown(
    out: &mut [u8],
    at: usize,
    bits: u32,
    count: usize,
    priorities: [Priority; CONTENDERS],
) -> usize
    ensures { Lays out.old at (shown_of bits count priorities) result out.new }
{
    match start(bits, count, priorities) {
        Ok(begun) => lay_played(out, at, begun),
        Err(no) => lay_refusal(out, at, no),
    }
}
