// The functions on plan files that other languages call, on short and long memory of this program's own, a line for each call: what is lent,
// what comes back and, after a bar, what all the lent memory ends with. Lent bytes and words are 7 before the call.
//
// The answers are proved in the crate outside; here they are run and compared. This program must not know any rule.
#![tactic(auto)]

mod files;

use crate::files::{one_file, p1_file, p2_file, p7_file, with_byte};
use carried::{CARRIED, CONTENTS, WORD};
use console::print;
use outside::{livnakesh_answers, livnakesh_lighter, livnakesh_rewrite};
use shown::{answer, bytes, words};

// The bytes of the largest file.
const LARGEST: usize = WORD * (CONTENTS + CARRIED);

// Two places of P1's file, each with the byte that is put there. Place 168 is past its end.
const CHANGES: [(usize, u8, usize, u8); 20] = [
    (44, 5, 168, 0),
    (68, 2, 72, 1),
    (68, 2, 72, 2),
    (69, 255, 73, 1),
    (69, 255, 74, 1),
    (76, 5, 168, 0),
    (84, 2, 168, 0),
    (92, 99, 168, 0),
    (96, 1, 168, 0),
    (100, 6, 168, 0),
    (104, 59, 168, 0),
    (104, 61, 168, 0),
    (108, 1, 168, 0),
    (110, 1, 168, 0),
    (88, 2, 116, 1),
    (100, 0, 168, 0),
    (116, 1, 168, 0),
    (116, 1, 112, 1),
    (112, 1, 168, 0),
    (160, 0, 161, 0),
];

// A place of the file of P1 in slots, with the byte that is put there.
const SLOT_CHANGES: [(usize, u8); 8] = [
    (80, 20),
    (80, 19),
    (80, 31),
    (80, 0),
    (136, 10),
    (136, 11),
    (100, 0),
    (0, 2),
];

fn answers(rt: &impl Print, file: &[u8], lent: &mut [u64]) {
    print(rt, b"answers");
    let said = livnakesh_answers(file, lent);
    answer(rt, said.refusal, said.value);
    words(rt, &lent[..]);
}

fn rewrite(rt: &impl Print, file: &[u8], lent: &mut [u8]) {
    print(rt, b"again");
    let said = livnakesh_rewrite(file, lent);
    answer(rt, said.refusal, said.value);
    bytes(rt, &lent[..]);
}

// Both into a few words and bytes: enough for the answers of one stream, and for no file.
fn both(rt: &impl Print, file: &[u8]) {
    let mut few_words = [7; 5];
    answers(rt, file, &mut few_words);
    let mut few_bytes = [7; 10];
    rewrite(rt, file, &mut few_bytes);
}

// The answers of three streams into as many words as they are.
fn three(rt: &impl Print, file: &[u8]) {
    let mut enough = [7; 12];
    answers(rt, file, &mut enough);
}

// P1 with words and bytes to spare, and with too few; with a LAG, written again without it.
fn of_p1(rt: &impl Print) {
    let p1 = p1_file(0);
    let mut room = [7; 14];
    answers(rt, &p1, &mut room);
    let mut too_few = [7; 11];
    answers(rt, &p1, &mut too_few);
    let mut enough = [7; 176];
    rewrite(rt, &p1, &mut enough);
    let mut too_short = [7; 167];
    rewrite(rt, &p1, &mut too_short);
    let with_lag = with_byte(with_byte(p1, 68, 2), 72, 1);
    let mut also_enough = [7; 168];
    rewrite(rt, &with_lag, &mut also_enough);
}

// P2 and P7, of three streams, and P3 and P4, of one.
fn of_others(rt: &impl Print) {
    let p2 = p2_file();
    three(rt, &p2);
    let p7 = p7_file();
    three(rt, &p7);
    let p3 = one_file(25);
    both(rt, &p3);
    let p4 = one_file(24);
    both(rt, &p4);
}

// The bytes of the contents, and of the largest file, and those that are one too few or too many.
fn lengths(rt: &impl Print) {
    let _ = println!(rt; "43, 44, {LARGEST} and {} bytes of 0", LARGEST + 1);
    let none = [0; LARGEST + 1];
    for length in [43, 44, LARGEST, LARGEST + 1] {
        both(rt, &none[..length]);
    }
}

fn lighter(rt: &impl Print, old: &[u8], new: &[u8]) {
    let weighed = livnakesh_lighter(old, new);
    let _ = println!(rt; ": {} {} {}", weighed.answer, weighed.number, weighed.value);
}

// P1 and P1 with other bytes: whether the second is lighter, and both of it.
fn changed(rt: &impl Print, at: usize, byte: u8, also: usize, other: u8) {
    let _ = print!(rt; "P1 with {at} {byte} {also} {other}");
    let p1 = p1_file(0);
    let new = with_byte(with_byte(p1, at, byte), also, other);
    lighter(rt, &p1, &new);
    both(rt, &new);
}

// P1 in slots and the same with another byte: whether the second is lighter, and its answers.
fn in_slots(rt: &impl Print, at: usize, byte: u8) {
    let _ = print!(rt; "slots with {at} {byte}");
    let slots = p1_file(30);
    let new = with_byte(slots, at, byte);
    lighter(rt, &slots, &new);
    three(rt, &new);
}

fn compared(rt: &impl Print) {
    let p1 = p1_file(0);
    let p2 = p2_file();
    print(rt, b"P1, P2");
    lighter(rt, &p1, &p2);
    print(rt, b"P2, P1");
    lighter(rt, &p2, &p1);
    let slots = p1_file(30);
    print(rt, b"P1, slots");
    lighter(rt, &p1, &slots);
    print(rt, b"slots, P1");
    lighter(rt, &slots, &p1);
    let p11 = with_byte(p1, 100, 0);
    let p8 = with_byte(p1, 116, 1);
    print(rt, b"P11, P8");
    lighter(rt, &p11, &p8);
}

fn main(rt: HostRuntime) {
    of_p1(&rt);
    of_others(&rt);
    lengths(&rt);
    for (at, byte, also, other) in CHANGES {
        changed(&rt, at, byte, also, other);
    }
    compared(&rt);
    for (at, byte) in SLOT_CHANGES {
        in_slots(&rt, at, byte);
    }
}
