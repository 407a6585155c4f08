// For the programs that run what other languages call: the words of a plan to lend, and what lent memory and an answer in numbers look like
// in print.
//
// Every public function answers for every input. What reaches the terminal is outside what is proved. This crate knows of console alone.
#![tactic(auto)]

use console::print;

// The words of P2, which are those of P1 and a gap. Word 9 is P, and 0 here.
pub const P2: [u32; 32] = [
    4, 1, 1, 2, 1, 1, 2, 1, 4, 0, 655361, 1, 100, 0, 5, 60, 0, 655370, 2, 150, 10, 7, 120, 0,
    720898, 3, 400, 0, 2, 200, 0, 1000,
];

pub fn number(rt: &impl Print, n: u64) {
    let _ = print!(rt; " {n}");
}

// Neighbours that are equal are printed once, with their number.
fn run(rt: &impl Print, same: &[u8]) {
    let times = same.len();
    match same.first() {
        Some(byte) if times > 1 => {
            let _ = print!(rt; " {byte}x{times}");
        }
        Some(byte) => number(rt, u64::from(*byte)),
        None => {}
    }
}

pub fn bytes(rt: &impl Print, lent: &[u8]) {
    print(rt, b" |");
    for same in lent.chunk_by(|a, b| a == b) {
        run(rt, same);
    }
    print(rt, b"\n");
}

pub fn words(rt: &impl Print, lent: &[u64]) {
    print(rt, b" |");
    for word in lent {
        number(rt, *word);
    }
    print(rt, b"\n");
}

// Done, with what was asked for, or a refusal and its place.
pub fn answer(rt: &impl Print, refusal: u64, value: u64) {
    let _ = if refusal == 0 {
        print!(rt; ": done {value}")
    } else {
        print!(rt; ": refused {refusal} at {value}")
    };
}
