// Shows tournaments to a person: a line for each bit, and the winner in the last line.
//
// Called as `replay BITS PRIORITY..`. With no arguments it reads the same numbers from standard input, where a
// blank line parts two tournaments. Which bytes are shown of a text, and where a tournament's text ends, is said and proved in
// replay_words; this program reads, calls and prints.
#![tactic(auto)]

use console::{arg, arg_count, print, print_first, print_unreadable, read};
use replay_screen::SHOWN;
use replay_words::{first_end, has_word, replay};
use std::io::Read;
use std::rt::Env;
use text::lay_text;

// How many bytes are read.
const INPUT: usize = 65536;

// The longest argument that is looked at; a number has ten digits.
const WORD: usize = 64;

fn show(rt: &impl Print, text: &[u8]) {
    let mut out = [0u8; SHOWN];
    if let Some(n) = replay(text, &mut out) {
        print_first(rt, &out, n);
    }
}

// Each tournament of a text, parted by a blank line. The first is shown even where it has no word and a later one only where it has some, so an
// iterator over the parts would need both tests again and be no plainer.
fn show_all(rt: &impl Print, text: &[u8]) {
    let (one, mut rest) = text.split_at(first_end(text));
    show(rt, one);
    while has_word(rest) {
        print(rt, b"\n");
        let (next, left) = rest.split_at(first_end(rest));
        show(rt, next);
        rest = left;
    }
}

// An argument that is empty, or longer than any number, is no number.
fn lay_argument(rt: &impl Env, out: &mut [u8], at: usize, i: usize) -> usize {
    let mut buf = [0u8; WORD];
    let word = match arg(rt, i, &mut buf) {
        Ok(n) if n > 0 => &buf[..n],
        _ => b"?",
    };
    let at = lay_text(out, at, word);
    lay_text(out, at, b" ")
}

// The arguments as one text.
fn lay_arguments(rt: &impl Env, out: &mut [u8], count: usize) -> usize {
    let mut at: usize = 0;
    for i in 1..count {
        at = lay_argument(rt, out, at, i);
    }
    at
}

fn too_long(rt: &impl Print) {
    print(rt, b"the input is longer than 65535 bytes\n");
}

fn read_arguments(rt: &(impl Print + Env), count: usize) {
    let mut text = [0u8; INPUT];
    let n = lay_arguments(rt, &mut text, count);
    if n < INPUT {
        show(rt, &text[..n]);
    } else {
        too_long(rt);
    }
}

fn read_input(rt: &impl Print, input: &mut impl Read) {
    let mut text = [0u8; INPUT];
    match read(input, &mut text) {
        Ok(n) if n < INPUT => show_all(rt, &text[..n]),
        Ok(_) => too_long(rt),
        Err(_) => print_unreadable(rt, b"replay", b"standard input"),
    }
}

fn main(rt: HostRuntime) {
    let count = arg_count(&rt);
    if 1 < count {
        read_arguments(&rt, count);
    } else {
        read_input(&rt, &mut rt.stdin());
    }
}
