// Says whether the plan in a second file is lighter than the plan in a first, or why it is to be run again.
//
// Called as `lighter OLD NEW`. With no arguments it reads such pairs of names from standard input, one pair a line. The crate chief
// fixes each byte that is said of two files, and the crate pairs which names a line has: this program opens, reads and prints, and
// says in one line what it cannot open or read. It must not know the rule of the lighter plan.
#![tactic(auto)]

ghost use Rattle.std.specs.Prelude.{◌<◌, length};
ghost use Rattle.carried.specs.Layout.{largest_file};

use console::{
    LIST, Unreadable, arg, arg_count, open, print, print_first, print_unreadable, print_wrong_line,
    read, read_list,
};
use pairs::lines_of;
use std::io;
use std::io::Read;
use std::rt::{Env, Files};

// The longest name that an argument gives, in bytes.
const NAME: usize = 4096;

// The buffer has room for more than the largest file, so that no part of a file passes for all of it. A file longer than the buffer is
// longer than any plan file, and so is the part of it that is looked at.
fn read_file<'a>(file: &mut impl Read, buf: &'a mut [u8]) -> io::Result<&'a [u8]>
    requires { largest_file < length buf.old }
{
    let n = read(file, buf)?;
    Ok(&buf[..n])
}

fn tell(rt: &impl Print, was: &[u8], is: &[u8]) {
    // 64 bytes hold every line (LargestLine, in chief's claims).
    let mut out = [0u8; NAME];
    if let Some(k) = chief::told(was, is, &mut out) {
        print_first(rt, &out, k);
    }
}

// Both files are opened before either is read, and the first that fails is the one that is told.
fn tell_both<'a>(
    rt: &(impl Print + Files),
    old: &'a [u8],
    new: &'a [u8],
) -> Result<(), Unreadable<'a>> {
    let mut old_file = open(rt, old).ok_or(Unreadable(old))?;
    let mut new_file = open(rt, new).ok_or(Unreadable(new))?;
    let mut was = desk::file_buffer();
    let was = read_file(&mut old_file, &mut was).map_err(|_| Unreadable(old))?;
    let mut is = desk::file_buffer();
    let is = read_file(&mut new_file, &mut is).map_err(|_| Unreadable(new))?;
    tell(rt, was, is);
    Ok(())
}

// The two files of these names.
fn files(rt: &(impl Print + Files), old: &[u8], new: &[u8]) {
    if let Err(Unreadable(name)) = tell_both(rt, old, new) {
        print_unreadable(rt, b"lighter", name);
    }
}

// The name that an argument gives. One that is empty, or that the buffer cannot hold, has no byte of a name to open.
fn name<'a>(rt: &impl Env, i: usize, buf: &'a mut [u8; NAME]) -> Option<&'a [u8]> {
    match arg(rt, i, buf) {
        Ok(n) if n > 0 => Some(&buf[..n]),
        _ => None,
    }
}

fn nameless(rt: &impl Print, which: &str) {
    let _ = println!(rt;
        "lighter: cannot read the {which} file: its name is empty or has more than {NAME} bytes"
    );
}

fn arguments(rt: &(impl Print + Files + Env)) {
    let mut old = [0u8; NAME];
    let Some(old) = name(rt, 1, &mut old) else {
        return nameless(rt, "first");
    };
    let mut new = [0u8; NAME];
    let Some(new) = name(rt, 2, &mut new) else {
        return nameless(rt, "second");
    };
    files(rt, old, new);
}

// A list of pairs, one a line: OLD, a space, NEW. There are no more lines than bytes.
fn listed(rt: &(impl Print + Files), list: &[u8]) {
    for (number, names) in (1..=list.len()).zip(lines_of(list)) {
        match names {
            Some((old, new)) => files(rt, old, new),
            None => print_wrong_line(rt, "lighter", number),
        }
    }
}

fn main(rt: HostRuntime) {
    let count = arg_count(&rt);
    if count == 1 {
        let mut list = [0u8; LIST + 1];
        if let Some(list) = read_list(&rt, "lighter", &mut rt.stdin(), &mut list) {
            listed(&rt, list);
        }
    } else if count == 3 {
        arguments(&rt);
    } else {
        print(
            &rt,
            b"lighter: give the names of two plan files, the old one and the new one\n",
        );
    }
}
