// Reads a plan file from standard input and writes the plan in it to standard output, as a file of edition 3, or the one line of its refusal.
//
// A thin program: the crate desk fixes each byte that is printed, and showing how a file is read and shown. What comes out is byte for byte what
// went in, if that has edition 3 (SameFile, in desk's claims), means the same if it is older (SameMeaning), or is a line of 43 bytes at most, which
// is never taken for a plan file, since that has 44 at least (LineIsNoPlan).
#![tactic(auto)]

use showing::{Show, show_input};

struct Rewritten;

impl Show for Rewritten {
    fn show(file: &[u8], out: &mut [u8]) -> Option<usize> {
        desk::show_file(file, out)
    }
}

fn main(rt: HostRuntime) {
    show_input::<Rewritten>(&rt, b"rewrite", rt.stdin());
}
