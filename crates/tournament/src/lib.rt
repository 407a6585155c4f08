// The tournament of document 01: a start, one step for each bit, all steps to the end, and what the replay
// screen asks besides: whether a carrier is heard, and at which bit two priorities part.
//
// Every public function answers for every input, a state that a caller made up too, and its contract determines the
// whole answer, all 128 places included. A refused call hands out no state, and its caller's own is as it was. Nothing is assumed.
// This crate must not know of plans, files or text.
#![tactic(auto)]

ghost use Rattle.std.specs.Prelude.{◌≡◌, ◌≤◌, length};
ghost use Rattle.names.specs.Limits.{contenders as Limits·contenders, bits as Limits·bits};
ghost use Rattle.tournament.specs.Rule.{bit_at, heard_at, silenced_at, winner_of, begun_of, next as Rule·next};
ghost use Rattle.tournament.specs.Answers.{judged_of, start_of, step_of, run_of};
ghost use Rattle.tournament.specs.Answers.{carrier_of, parting_bit, parting_of};
ghost use Rattle.tournament.specs.private.Ready.{AtABit, Ready};
ghost use Rattle.tournament_state.specs.Refusals.{PlayablePair};

use names::{CONTENDERS, Priority, Refusal, Row};
use tournament_state::{Phase, Tournament, pair_verdict, verdict};

// Bit k of a priority, counted from 1 at the top.
fn bit(p: Priority, bits: u32, k: u32) -> u32
    requires le_k { 1 ≤ k }
    requires k_le_bits { k ≤ bits }
    requires bits_bound { bits ≤ Limits·bits }
    ensures { result ≡ bit_at bits k p }
{
    (p.0 >> (bits - k)) & 1
}

// A carrier is heard if some marked contender has a 0 at bit k. The state is borrowed: measured, with a copy of it for each look a step of three
// contenders takes a third longer. It is a loop: tried, over a borrowed state the proof of `zip` and `any` lacks the length of one of the two arrays.
fn heard(t: &Tournament, k: u32) -> bool
    requires { AtABit t.now k }
    ensures { result ≡ heard_at t.now k }
{
    let bits = t.bits;
    for (i, p) in t.priorities[..t.count].iter().enumerate() {
        if t.marks[i] {
            let low = bit(*p, bits, k) == 0;
            if low {
                return true;
            }
        }
    }
    false
}

// The marks once every contender with a 1 at bit k is marked out. They are written by index, since a proof knows nothing of what is written
// through `iter_mut().zip()` but how many places there are.
fn silenced(t: &Tournament, k: u32) -> [bool; CONTENDERS]
    requires { AtABit t.now k }
    ensures { result ≡ silenced_at t.now k }
{
    let bits = t.bits;
    let mut marks = t.marks;
    for (i, p) in t.priorities[..t.count].iter().enumerate() {
        if bit(*p, bits, k) == 1 {
            marks[i] = false;
        }
    }
    marks
}

// The lowest marked row has won.
fn winner(marks: &[bool]) -> Phase
    ensures { result ≡ winner_of (length marks.now) marks.now }
{
    match marks.iter().position(|mark| *mark) {
        Some(i) => Phase::Finished(Row(i)),
        None => Phase::NoWinner,
    }
}

// One bit, or nothing once it is finished. The state is changed where it stands: measured, a step that makes a new one takes half as long again.
fn next(t: &mut Tournament)
    requires { Ready t.old }
    ensures { t.new ≡ Rule·next t.old }
{
    let phase = t.phase;
    match phase {
        Phase::AtBit(k) => {
            let marks = if heard(t, k) { silenced(t, k) } else { t.marks };
            let phase = if k == t.bits {
                winner(&marks[..t.count])
            } else {
                Phase::AtBit(k + 1)
            };
            t.marks = marks;
            t.phase = phase;
        }
        Phase::Finished(_) | Phase::NoWinner => {}
    }
}

// Every contender in, at bit 1; the places after the last contender have priority 0 and are out.
fn begun(bits: u32, count: usize, priorities: [Priority; CONTENDERS]) -> Tournament
    requires { count ≤ Limits·contenders }
    ensures { result ≡ begun_of bits count priorities }
{
    let mut placed = [Priority(0); CONTENDERS];
    placed[..count].copy_from_slice(&priorities[..count]);
    let mut marks = [false; CONTENDERS];
    marks[..count].fill(true);
    Tournament {
        bits,
        count,
        priorities: placed,
        marks,
        phase: Phase::AtBit(1),
    }
}

// What is entered is three values and no Tournament: it has no marks and no phase yet.
pub fn start(
    bits: u32,
    count: usize,
    priorities: [Priority; CONTENDERS],
) -> Result<Tournament, Refusal>
    ensures { result ≡ start_of bits count priorities }
{
    verdict(bits, count, priorities, Phase::AtBit(1))?;
    Ok(begun(bits, count, priorities))
}

// The verdict on a state, field by field.
fn judged(t: Tournament) -> Result<(), Refusal>
    ensures { result ≡ judged_of t }
{
    let priorities = t.priorities;
    let phase = t.phase;
    verdict(t.bits, t.count, priorities, phase)
}

pub fn step(t: Tournament) -> Result<Tournament, Refusal>
    ensures { result ≡ step_of t }
{
    judged(t)?;
    let mut after = t;
    next(&mut after);
    Ok(after)
}

// All steps to the end.
pub fn run(t: Tournament) -> Result<Tournament, Refusal>
    ensures { result ≡ run_of t }
{
    judged(t)?;
    let mut now = t;
    for _ in 0..t.bits {
        next(&mut now);
    }
    Ok(now)
}

// Whether a carrier is heard at the state's bit; none is once it is finished.
pub fn listen(t: Tournament) -> Result<bool, Refusal>
    ensures { result ≡ carrier_of t }
{
    judged(t)?;
    let phase = t.phase;
    match phase {
        Phase::AtBit(k) => Ok(heard(&t, k)),
        Phase::Finished(_) | Phase::NoWinner => Ok(false),
    }
}

// As it is counted by hand: of the equal bits at the top of a and b, written under each other in 32 bits, 32 - bits stand
// above bit 1, and the bit after them is the first at which the two differ (`PartingByLeadingZeros`, specs/Answers.antt).
fn first_difference(bits: u32, a: Priority, b: Priority) -> u32
    requires { PlayablePair bits a b }
    ensures { result ≡ parting_bit bits a b }
{
    let difference = a.0 ^ b.0;
    let equal = difference.leading_zeros();
    equal - (32 - bits) + 1
}

// At which bit two priorities part, in rows 0 and 1, counted from 1 at the top.
pub fn parting_bit(bits: u32, a: Priority, b: Priority) -> Result<u32, Refusal>
    ensures { result ≡ parting_of bits a b }
{
    pair_verdict(bits, a, b)?;
    Ok(first_difference(bits, a, b))
}
