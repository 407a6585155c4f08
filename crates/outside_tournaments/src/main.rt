// The tournament's functions that other languages call, on short and long memory of this program's own, a line for each call: what is lent,
// what comes back and, after a bar, what all the lent marks end with. Lent marks are 7 before the call, where nothing else is said.
//
// The answers are proved in the crate outside; here they are run and compared. This program must not know any rule.
#![tactic(auto)]

use console::print;
use outside::{Stepped, livnakesh_parting, livnakesh_start, livnakesh_step};
use shown::{answer, bytes};

// A number of bits, and two priorities in so many bits.
const PAIRS: [(u32, u32, u32); 6] = [
    (4, 5, 3),
    (32, 0, 2147483648),
    (0, 5, 3),
    (33, 5, 3),
    (2, 1, 4),
    (4, 3, 3),
];

fn parting(rt: &impl Print, bits: u32, a: u32, b: u32) {
    let _ = print!(rt; "part {bits} {a} {b}");
    let said = livnakesh_parting(bits, a, b);
    answer(rt, said.refusal, said.value);
    print(rt, b"\n");
}

// What a start or a step says, and what the lent marks end with.
fn stepped(rt: &impl Print, said: Stepped, marks: &[u8]) {
    answer(rt, said.refusal, said.place);
    let _ = print!(rt; " {} {}", said.phase, said.at);
    bytes(rt, marks);
}

fn start(rt: &impl Print, bits: u32, priorities: &[u32], marks: &mut [u8]) {
    let _ = print!(rt; "start {bits}");
    let said = livnakesh_start(bits, priorities, marks);
    stepped(rt, said, marks);
}

// 5, 3 and 6 with marks to spare, with as many as they are, and with fewer, when 6 comes first; then 5 and 3 alone.
fn starts(rt: &impl Print) {
    let three = [5, 3, 6];
    let mut long = [7; 130];
    start(rt, 4, &three, &mut long);
    let mut enough = [7; 3];
    start(rt, 4, &three, &mut enough);
    let mut fewer = [7; 2];
    start(rt, 4, &three, &mut fewer);
    start(rt, 0, &three, &mut fewer);
    start(rt, 4, &three[..2], &mut enough);
}

// No bit, 33 bits, a priority that does not fit, one that is there twice, and nobody.
fn wrong_starts(rt: &impl Print) {
    let three = [5, 3, 5];
    let mut marks = [7; 4];
    start(rt, 0, &three, &mut marks);
    start(rt, 33, &three, &mut marks);
    start(rt, 2, &three, &mut marks);
    start(rt, 4, &three, &mut marks);
    start(rt, 4, &three[..0], &mut marks);
}

// 129 with a mark for each, and with one mark less.
fn too_many(rt: &impl Print) {
    let many = [5; 129];
    let mut enough = [7; 129];
    start(rt, 4, &many, &mut enough);
    let mut fewer = [7; 128];
    start(rt, 4, &many, &mut fewer);
}

// A step of 5, 3 and 6.
fn step(rt: &impl Print, bits: u32, phase: u32, at: u32, marks: &mut [u8]) {
    let _ = print!(rt; "step {bits} {phase} {at}");
    let said = livnakesh_step(bits, phase, at, &[5, 3, 6], marks);
    stepped(rt, said, marks);
}

// P12 bit by bit, with a step too many; a 9 stands for in as well as a 7, and two bytes are nobody's.
fn steps(rt: &impl Print) {
    let mut marks = [7; 5];
    marks[1] = 9;
    for at in 1..=4 {
        step(rt, 4, 0, at, &mut marks);
    }
    step(rt, 4, 1, 1, &mut marks);
}

// Finished, with and without a winner, a phase above 2, and ends with several left and with none.
fn made_up(rt: &impl Print) {
    let mut marks = [7; 130];
    step(rt, 4, 1, 2, &mut marks);
    step(rt, 4, 2, 9, &mut marks);
    step(rt, 4, 3, 9, &mut marks);
    marks[2] = 0;
    step(rt, 4, 0, 4, &mut marks);
    let mut none = [0; 3];
    step(rt, 4, 0, 4, &mut none);
}

// No bit, too few bits for 5, a bit and a winner's row that are none; and fewer marks than contenders.
fn wrong_steps(rt: &impl Print) {
    let mut marks = [7; 4];
    step(rt, 0, 0, 1, &mut marks);
    step(rt, 2, 0, 1, &mut marks);
    step(rt, 4, 0, 5, &mut marks);
    step(rt, 4, 1, 3, &mut marks);
    step(rt, 0, 3, 9, &mut marks);
    let mut fewer = [7; 2];
    step(rt, 4, 0, 9, &mut fewer);
    step(rt, 4, 3, 9, &mut fewer);
}

// One that is there twice, and nobody.
fn wrong_lists(rt: &impl Print) {
    let three = [3, 1, 3];
    let mut marks = [7; 4];
    let twice = livnakesh_step(4, 0, 1, &three, &mut marks);
    print(rt, b"step of 3, 1, 3");
    answer(rt, twice.refusal, twice.place);
    let nobody = livnakesh_step(4, 0, 1, &three[..0], &mut marks);
    print(rt, b"; of nobody");
    answer(rt, nobody.refusal, nobody.place);
    bytes(rt, &marks);
}

fn main(rt: HostRuntime) {
    for (bits, a, b) in PAIRS {
        parting(&rt, bits, a, b);
    }
    starts(&rt);
    wrong_starts(&rt);
    too_many(&rt);
    steps(&rt);
    made_up(&rt);
    wrong_steps(&rt);
    wrong_lists(&rt);
}
