// What the programs share that show one plan file: it is read from standard input, and what is shown of it is printed.
//
// The public function answers for every input. The crate desk fixes each byte that is shown; what is read and written is console's to say. A file
// longer than the buffer is longer than any plan file, and so is the part of it that is shown. This crate must not know of plans.
#![tactic(auto)]

ghost use Rattle.std.specs.Prelude.{◌<◌, length};
ghost use Rattle.carried.specs.Layout.{largest_file};

use console::{print_first, print_unreadable, read};
use std::io;
use std::io::Read;

// The buffer has room for more than the largest file, so that no part of a file passes for all of it.
fn read_file<'a>(input: &mut impl Read, file: &'a mut [u8]) -> io::Result<&'a [u8]>
    requires { largest_file < length file.old }
{
    let n = read(input, file)?;
    Ok(&file[..n])
}

// What a program shows of a plan file, at the start of a buffer.
pub trait Show {
    fn show(file: &[u8], out: &mut [u8]) -> Option<usize>;
}

fn print_shown<S: Show>(rt: &impl Print, file: &[u8]) {
    // It holds every listing, all waits and every plan file (ListingFits, WaitsFit and FileFits, in desk's claims), and every refusal (LargestRefusal,
    // in text's), so nothing that is shown lacks room.
    let mut out = desk::listing_buffer();
    if let Some(k) = S::show(file, &mut out) {
        print_first(rt, &out, k);
    }
}

// Prints what is shown of the file that is read, or that it cannot be read.
pub fn show_input<S: Show>(rt: &impl Print, program: &[u8], mut input: impl Read + Drop) {
    let mut file = desk::file_buffer();
    match read_file(&mut input, &mut file) {
        Ok(bytes) => print_shown::<S>(rt, bytes),
        Err(_) => print_unreadable(rt, program, b"standard input"),
    }
}
