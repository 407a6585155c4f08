// A tournament's state as a caller in another language keeps it, in numbers and lent slices, and the state's marks back.
//
// Every function answers for every input, slices of any length too, and its contract determines what comes back and what the
// lent bytes end with. Nothing is checked here: a wrong state is refused by the tournament. Nothing is assumed. This crate must
// not know how a bit is played.
#![tactic(auto)]

ghost use Rattle.std.specs.Prelude.{◌≡◌, cond};
ghost use Rattle.states.specs.States.{priorities_from, marks_from, phase_from, state_from, marks_into, marked_out};

use names::{CONTENDERS, Priority, Row};
use tournament_state::{Phase, Tournament};

// No more than 128 turns, however much is lent. Place by place and not by `from_fn`: measured, that looks at all 128 places with a test in each, and
// a step of three contenders takes twice as long.
pub fn priorities_from(priorities: &[u32]) -> [Priority; CONTENDERS]
    ensures { result ≡ priorities_from priorities.now }
{
    let n = priorities.len().min(CONTENDERS);
    let mut places = [Priority(0); CONTENDERS];
    for (i, p) in priorities[..n].iter().enumerate() {
        places[i] = Priority(*p);
    }
    places
}

// A mark is in if its byte is not 0. Place by place, as the priorities.
fn marks_from(marks: &[u8]) -> [bool; CONTENDERS]
    ensures { result ≡ marks_from marks.now }
{
    let n = marks.len().min(CONTENDERS);
    let mut places = [false; CONTENDERS];
    for (i, mark) in marks[..n].iter().enumerate() {
        places[i] = *mark != 0;
    }
    places
}

fn phase_from(phase: u32, at: u32) -> Phase
    ensures { result ≡ phase_from phase at }
{
    match phase {
        0 => Phase::AtBit(at),
        1 => Phase::Finished(Row(at as usize)),
        _ => Phase::NoWinner,
    }
}

// The state that is lent, right or wrong: each lent priority is a contender's.
pub fn state_from(bits: u32, phase: u32, at: u32, priorities: &[u32], marks: &[u8]) -> Tournament
    ensures { result ≡ state_from bits phase at priorities.now marks.now }
{
    Tournament {
        bits,
        count: priorities.len(),
        priorities: priorities_from(priorities),
        marks: marks_from(marks),
        phase: phase_from(phase, at),
    }
}

// Every place, in or out. Place by place and not by `map`: measured, with that and `from_fn` a start of three contenders takes six times as long.
pub fn marks_into(marks: [bool; CONTENDERS], out: &mut [u8])
    ensures { out.new ≡ marks_into marks out.old }
{
    let n = out.len().min(CONTENDERS);
    for (i, mark) in marks[..n].iter().enumerate() {
        out[i] = u8::from(*mark);
    }
}

// The byte of a contender that is still in stays, whatever it is.
fn kept(mark: bool, byte: u8) -> u8
    ensures { result ≡ cond mark byte 0 }
{
    if mark { byte } else { 0 }
}

// Only contenders are marked out, and whatever stands for in stays: a state that is handed back unchanged keeps its bytes. They are written by
// index, since a proof knows nothing of what is written through `iter_mut().zip()` but how many places there are. Each is written, kept or not:
// measured, a branch for each mark makes a step of 128 contenders a sixth longer.
pub fn mark_out(count: usize, marks: [bool; CONTENDERS], out: &mut [u8])
    ensures { out.new ≡ marked_out count marks out.old }
{
    let n = count.min(CONTENDERS).min(out.len());
    for (i, mark) in marks[..n].iter().enumerate() {
        out[i] = kept(*mark, out[i]);
    }
}
