// Calls that a tournament from a start never makes, a line for each: parting bits, and states made up by a caller.
//
// The answers are proved in the crate tournament; here they are run and compared. This program must not know the
// rule of the tournament.
#![tactic(auto)]

use console::{print, print_refusal};
use names::{CONTENDERS, Priority, Refusal, Row};
use tournament::{parting_bit, run, start, step};
use tournament_state::{Phase, Tournament};

// A number of bits, and two priorities in so many bits.
const PAIRS: [(u32, u32, u32); 14] = [
    (4, 5, 3),
    (4, 3, 5),
    (1, 0, 1),
    (1, 1, 0),
    (32, 0, 2147483648),
    (32, 0, 4294967295),
    (32, 0, 1),
    (32, 4294967295, 4294967294),
    (31, 0, 4294967295),
    (0, 3, 4),
    (33, 3, 4),
    (2, 4, 4),
    (2, 1, 4),
    (4, 3, 3),
];

fn parting(rt: &impl Print, bits: u32, a: u32, b: u32) {
    let _ = print!(rt; "{a} and {b} in {bits} bits: ");
    match parting_bit(bits, Priority(a), Priority(b)) {
        Ok(k) => {
            let _ = print!(rt; "part at bit {k}");
        }
        Err(no) => print_refusal(rt, no),
    }
    print(rt, b"\n");
}

// Priorities 5, 3 and 7 in 4 bits, all in. The unused places are in as well, with a priority that repeats and is too large.
fn state(phase: Phase) -> Tournament {
    let mut priorities = [Priority(99); CONTENDERS];
    priorities[0] = Priority(5);
    priorities[1] = Priority(3);
    priorities[2] = Priority(7);
    let marks = [true; CONTENDERS];
    Tournament {
        bits: 4,
        count: 3,
        priorities,
        marks,
        phase,
    }
}

fn phase(rt: &impl Print, phase: Phase) {
    let _ = match phase {
        Phase::AtBit(k) => print!(rt; ", at bit {k}"),
        Phase::Finished(row) => print!(rt; ", row {} won", row.0),
        Phase::NoWinner => print!(rt; ", no winner"),
    };
}

// The phase, and the marks of the first four places.
fn shown(rt: &impl Print, t: Tournament) {
    phase(rt, t.phase);
    print(rt, b", marks");
    for is_in in &t.marks[..4] {
        let word = if *is_in { "in" } else { "out" };
        let _ = print!(rt; " {word}");
    }
    print(rt, b"\n");
}

// The answer, and the state after the call, or the one before it where it is refused.
fn answered(rt: &impl Print, call: &str, before: Tournament, answer: Result<Tournament, Refusal>) {
    let _ = print!(rt; "{call}: ");
    match answer {
        Ok(after) => {
            print(rt, b"done");
            shown(rt, after);
        }
        Err(no) => {
            print_refusal(rt, no);
            shown(rt, before);
        }
    }
}

fn stepped(rt: &impl Print, call: &str, t: Tournament) {
    answered(rt, call, t, step(t));
}

fn ran(rt: &impl Print, call: &str, t: Tournament) {
    answered(rt, call, t, run(t));
}

fn steps(rt: &impl Print) {
    stepped(rt, "a step at bit 2", state(Phase::AtBit(2)));
    stepped(
        rt,
        "a step with the winner a contender that is in",
        state(Phase::Finished(Row(2))),
    );
    let mut t = state(Phase::Finished(Row(2)));
    t.marks[2] = false;
    stepped(rt, "a step with the winner marked out", t);
    t = state(Phase::AtBit(4));
    t.marks = [false; CONTENDERS];
    stepped(rt, "a step at the last bit with none marked", t);
    t = state(Phase::AtBit(4));
    t.marks[0] = false;
    stepped(rt, "a step at the last bit with rows 1 and 2 marked", t);
    t = state(Phase::AtBit(2));
    t.marks[1] = false;
    ran(rt, "a run from bit 2 with rows 0 and 2 marked", t);
}

fn refusals(rt: &impl Print) {
    let mut t = state(Phase::AtBit(9));
    t.count = 0;
    t.bits = 0;
    stepped(rt, "no contenders, no bits", t);
    t.count = 129;
    ran(rt, "129 contenders, no bits", t);
    t.count = 4;
    stepped(rt, "no bits, 99 in row 3, at bit 9", t);
    t.bits = 4;
    stepped(rt, "99 in row 3, at bit 9", t);
    t.count = 3;
    t.priorities[2] = Priority(5);
    ran(rt, "at bit 9, row 2 as row 0", t);
    stepped(rt, "at bit 0", state(Phase::AtBit(0)));
    stepped(rt, "row 3 of 3 has won", state(Phase::Finished(Row(3))));
    t = state(Phase::Finished(Row(0)));
    t.priorities[2] = Priority(5);
    stepped(rt, "finished, row 2 as row 0", t);
    t = state(Phase::NoWinner);
    t.priorities[2] = Priority(3);
    ran(rt, "no winner, row 2 as row 1", t);
}

// Before a start there is nobody, and no winner.
fn nobody(rt: &impl Print) {
    let mut before = state(Phase::NoWinner);
    before.marks = [false; CONTENDERS];
    let none = start(4, 0, [Priority(0); CONTENDERS]);
    answered(rt, "a start of no contenders", before, none);
}

fn main(rt: HostRuntime) {
    for (bits, a, b) in PAIRS {
        parting(&rt, bits, a, b);
    }
    steps(&rt);
    refusals(&rt);
    nobody(&rt);
}
