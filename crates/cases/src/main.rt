// Runs plan files and compares what the desk is shown of each with what it must be.
//
// Standard input has two names a line: a plan file, and a file with its listing, with its waits or with the line of its refusal. Of a plan
// with a listing the desk must be shown that listing, `fine`, and a file of edition 3 with no LAG: the file's own bytes again, if it is one, and
// else one of which it is shown the same listing and the same file; of one with waits, those; of a refused one the same line four times. What
// differs is printed, and the last line counts. This program must not know of plans.
#![tactic(auto)]

use console::{
    LIST, Unreadable, first, open, print, print_unreadable, print_wrong_line, read, read_list,
};
use pairs::lines_of;
use std::rt::Files;

// Whether what is shown of a file, in a buffer that is large enough, is what it must be.
fn shown_is<F: Fn(&[u8], &mut [u8]) -> Option<usize>>(
    show: F,
    out: &mut [u8],
    file: &[u8],
    must: &[u8],
) -> bool
    requires { F.IsAlwaysCallable show }
{
    match show(file, out) {
        Some(k) => first(out, k) == must,
        None => false,
    }
}

fn listing_is(file: &[u8], must: &[u8]) -> bool {
    shown_is(desk::show, &mut desk::listing_buffer(), file, must)
}

fn waits_are(file: &[u8], must: &[u8]) -> bool {
    shown_is(desk::show_waits, &mut desk::listing_buffer(), file, must)
}

fn refusal_is(file: &[u8], must: &[u8]) -> bool {
    shown_is(desk::show_refusal, &mut desk::file_buffer(), file, must)
}

fn file_is(file: &[u8], must: &[u8]) -> bool {
    shown_is(desk::show_file, &mut desk::file_buffer(), file, must)
}

// Whether a file begins as one of edition 3 does, and its LAG, from byte 72 on, is 0.
fn is_newest(file: &[u8]) -> bool {
    file.starts_with(b"\x03\x00\x00\x00") && file.get(72..76) == Some(b"\x00\x00\x00\x00")
}

// Whether a file that was written again is the file itself, if that is of the newest form, or else is of that form, means the same and is
// written again as it is.
fn again_is(file: &[u8], again: &[u8], must: &[u8]) -> bool {
    if is_newest(file) {
        return again == file;
    }
    is_newest(again) && listing_is(again, must) && file_is(again, again)
}

fn file_again(file: &[u8], must: &[u8]) -> bool {
    let mut out = desk::file_buffer();
    match desk::show_file(file, &mut out) {
        Some(k) => again_is(file, first(&out, k), must),
        None => false,
    }
}

// Prints what differs, and answers whether nothing does.
fn same(rt: &impl Print, holds: bool, what: &str, name: &[u8]) -> bool {
    if !holds {
        let _ = print!(rt; "{what} differs: ");
        print(rt, name);
        print(rt, b"\n");
    }
    holds
}

// What is shown of a plan beside its listing: of a refused one its line, and else that it is fine, and the file.
fn beside(rt: &impl Print, name: &[u8], file: &[u8], must: &[u8]) -> bool {
    if must.starts_with(b"refused ") {
        let refusal = same(rt, refusal_is(file, must), "refusal", name);
        let waits = same(rt, waits_are(file, must), "waits", name);
        return same(rt, file_is(file, must), "file", name) & refusal & waits;
    }
    let refusal = same(rt, refusal_is(file, b"fine\n"), "refusal", name);
    same(rt, file_again(file, must), "file", name) & refusal
}

fn compared(rt: &impl Print, name: &[u8], file: &[u8], must: &[u8]) -> bool {
    if must.starts_with(b"label evaluations ") {
        return same(rt, waits_are(file, must), "waits", name);
    }
    let listing = same(rt, listing_is(file, must), "listing", name);
    beside(rt, name, file, must) & listing
}

// Both files are opened before either is read, and the first that fails is the one that is told.
fn compared_files<'a>(
    rt: &(impl Print + Files),
    name: &'a [u8],
    out: &'a [u8],
) -> Result<bool, Unreadable<'a>> {
    let mut plan = open(rt, name).ok_or(Unreadable(name))?;
    let mut expected = open(rt, out).ok_or(Unreadable(out))?;
    let mut file = desk::file_buffer();
    let n = read(&mut plan, &mut file).map_err(|_| Unreadable(name))?;
    let mut must = desk::listing_buffer();
    let m = read(&mut expected, &mut must).map_err(|_| Unreadable(out))?;
    Ok(compared(rt, name, first(&file, n), first(&must, m)))
}

// Whether the case of these two files holds.
fn files(rt: &(impl Print + Files), name: &[u8], out: &[u8]) -> bool {
    match compared_files(rt, name, out) {
        Ok(holds) => holds,
        Err(Unreadable(name)) => {
            print_unreadable(rt, b"cases", name);
            false
        }
    }
}

// Whether the case of a line holds; a line that is not two names is known by its number.
fn line(rt: &(impl Print + Files), number: usize, names: Option<(&[u8], &[u8])>) -> bool {
    match names {
        Some((plan, out)) => files(rt, plan, out),
        None => {
            print_wrong_line(rt, "cases", number);
            false
        }
    }
}

// How many cases are the same, and how many are not.
fn listed(rt: &(impl Print + Files), list: &[u8]) {
    let mut same: usize = 0;
    let mut different: usize = 0;
    for names in lines_of(list) {
        if line(rt, same + different + 1, names) {
            same += 1;
        } else {
            different += 1;
        }
    }
    let _ = println!(rt; "{same} the same, {different} different");
}

fn main(rt: HostRuntime) {
    let mut list = [0u8; LIST + 1];
    if let Some(list) = read_list(&rt, "cases", &mut rt.stdin(), &mut list) {
        listed(&rt, list);
    }
}
