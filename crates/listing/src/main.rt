// Reads a plan file from standard input and prints its listing, or the one line of its refusal.
//
// A thin program: the crate desk fixes each byte that is printed, and showing how a file is read and shown.
#![tactic(auto)]

use showing::{Show, show_input};

struct Listing;

impl Show for Listing {
    fn show(file: &[u8], out: &mut [u8]) -> Option<usize> {
        desk::show(file, out)
    }
}

fn main(rt: HostRuntime) {
    show_input::<Listing>(&rt, b"listing", rt.stdin());
}
