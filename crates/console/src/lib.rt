// What the programs share of reading files and of printing to standard output.
//
// Every function answers for every input. What is read, and what reaches the terminal, is outside what is proved: that is
// std's to say. A write that fails is passed over. This crate knows of the names alone.
#![tactic(auto)]

ghost use Rattle.std.specs.Prelude.{◌≡◌, ◌≤◌, length, take, IfSome, IsSome, IsUtf8};
ghost use Rattle.console.specs.Input.{InBuffer};

use names::Refusal;
use std::env::FillError;
use std::io::Read;
use std::rt::{Env, Files};
use std::{fs, io};

// The longest list of names, in bytes.
pub const LIST: usize = 65536;

// The name of a file that cannot be opened or read.
#[derive(Clone, Copy)]
pub struct Unreadable<'a>(pub &'a [u8]);

// Opens the file of this name for reading. A name that is no text (UTF-8) opens nothing.
pub fn open<R: Files>(rt: &R, name: &[u8]) -> Option<R::File>
    ensures { IsSome result → IsUtf8 name.now }
{
    let path = str::from_utf8(name).ok()?;
    fs::open(rt, path).ok()
}

// How many arguments the program was started with, its own name among them.
pub fn arg_count(rt: &impl Env) -> usize {
    (0..usize::MAX)
        .take_while(|i| !matches!(rt.arg(*i, &mut []), Err(FillError::NotPresent)))
        .count()
}

// Puts an argument at the buffer's start and gives its length, or that it is missing or longer than the buffer.
// A length, which says what bytes of the buffer are meant: of a slice that borrows the buffer that would not be proved.
pub fn arg(rt: &impl Env, i: usize, buf: &mut [u8]) -> Result<usize, FillError>
    ensures { InBuffer result buf.new }
{
    rt.arg(i, buf)
}

// Reads an open file, from the buffer's start on, until the buffer is full, the file ends or a read fails, as of a directory. It gives how many
// bytes that is, which stand at the buffer's start.
pub fn read(file: &mut impl Read, buf: &mut [u8]) -> io::Result<usize>
    ensures { InBuffer result buf.new }
{
    // A read may give less than it is lent, so each goes on where the last one ended.
    let mut done: usize = 0;
    while done < buf.len() {
        let more = file.read(&mut buf[done..])?;
        if more == 0 {
            break;
        }
        done += more;
    }
    Ok(done)
}

// What is read of a list of names, or nothing: then a line says that the list cannot be read or is too long.
// One byte more than the longest list is read, so that a longer one is known before any of its lines is looked at.
pub fn read_list<'a>(
    rt: &impl Print,
    program: &str,
    input: &mut impl Read,
    buf: &'a mut [u8; LIST + 1],
) -> Option<&'a [u8]>
    ensures { IfSome result (λ list. length list.now ≤ LIST) }
{
    match read(input, buf) {
        Ok(n) if n <= LIST => return Some(&buf[..n]),
        Ok(_) => print_too_long(rt, program),
        Err(_) => print_unreadable(rt, program.as_bytes(), b"standard input"),
    }
    None
}

// The first k bytes, or all if there are fewer.
pub fn first(bytes: &[u8], k: usize) -> &[u8]
    ensures { result.now ≡ take k bytes.now }
{
    &bytes[..k.min(bytes.len())]
}

pub fn print(rt: &impl Print, bytes: &[u8]) {
    let _ = rt.write_all(bytes);
}

// A text comes as how many bytes it has in a lent buffer, not as a slice: what stays of the buffer is promised too, and a slice would keep it
// borrowed.
pub fn print_first(rt: &impl Print, bytes: &[u8], k: usize) {
    print(rt, first(bytes, k));
}

pub fn print_number(rt: &impl Print, n: u64) {
    let _ = rt.print(n);
}

// The words of a refusal, with no end of the line.
pub fn print_refusal(rt: &impl Print, r: Refusal) {
    let _ = rt.print(r);
}

// The line that a program prints of what it cannot read. A name need not be text, so its bytes are written as they are.
pub fn print_unreadable(rt: &impl Print, program: &[u8], what: &[u8]) {
    print(rt, program);
    print(rt, b": cannot read ");
    print(rt, what);
    print(rt, b"\n");
}

fn print_too_long(rt: &impl Print, program: &str) {
    let _ = println!(rt;
        "{program}: the list of names is longer than {LIST} bytes, and none was looked at"
    );
}

// The line that a program prints of a line that is not two names, by its number.
pub fn print_wrong_line(rt: &impl Print, program: &str, number: usize) {
    let _ = println!(rt; "{program}: line {number}: give two names parted by one space");
}
