// Reads a plan file from standard input and prints how many evaluations the search for each stream's L takes and how many it takes at most, or
// the one line of its refusal.
//
// A thin program: the crate desk fixes each byte that is printed, and showing how a file is read and shown.
#![tactic(auto)]

use showing::{Show, show_input};

struct Waits;

impl Show for Waits {
    fn show(file: &[u8], out: &mut [u8]) -> Option<usize> {
        desk::show_waits(file, out)
    }
}

fn main(rt: HostRuntime) {
    show_input::<Waits>(&rt, b"waits", rt.stdin());
}
