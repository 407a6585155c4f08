// What the desk is shown of a plan file: its listing, how long the searches of its streams may take, whether it is fine, or the file again;
// of a refused one the line of its refusal.
//
// Every public function answers for any bytes, and its contract fixes each byte of the lent buffer. Nothing is assumed.
// This crate joins the reader, the answers, the rewriter and the texts; it must not know of input and output.
#![tactic(auto)]

ghost use Rattle.std.specs.Prelude.{◌≡◌, ◌+◌, length, replicate};
ghost use Rattle.carried.specs.Layout as layout;
ghost use Rattle.ascii.specs.Ascii.{ascii};
ghost use Rattle.text.specs.Claims.{most};
ghost use Rattle.text.specs.Put.{Puts};
ghost use Rattle.desk.specs.Desk.{shown, shown_waits, shown_refusal, shown_file};

use answers::{Answer, Wait, answer_values};
use carried::{CARRIED, CONTENTS, WORD};
use names::STREAMS;
use reader::read;
use rewriter::rewrite;
use row_words::{WORDS_PER_ROW, WORDS_PER_WAIT};
use text::{Words, listing, put, refused};
use wait_lines::waits;

// The number of the refusal that a file is written by where its bytes have no room.
const NO_ROOM: u32 = 6;

// One byte more than the largest file has, so that a longer one is seen to be too long.
const FILE: usize = WORD * (CONTENTS + CARRIED) + 1;

// The words of the header, and what each column of a row has at most, with what parts and ends them; a bound and an instance have
// 10 digits at most.
const HEADER: usize = 5 + 1 + 8 + 1 + 5 + 1 + 8 + 1 + 8 + 1 + 7 + 1;

const ROW: usize = 11 + 1 + 10 + 1 + 10 + 1 + 10 + 1 + 10 + 1 + 6 + 1;

const LISTED: usize = HEADER + STREAMS * ROW;

// Zeros, for a program to read a file into.
pub fn file_buffer() -> [u8; FILE]
    ensures value { result ≡ replicate (layout.largest_file + 1) 0 }
    ensures largest_file_value { layout.largest_file + 1 ≡ length result }
{
    [0; FILE]
}

// Zeros, for a program to have a listing in, or the waits, however large the plan and its numbers (ListingFits and WaitsFit, in specs/Desk.antt).
pub fn listing_buffer() -> [u8; LISTED]
    ensures value { result ≡ replicate (most 10) 0 }
    ensures most_value { most 10 ≡ length result }
{
    [0; LISTED]
}

// The listing of a file's plan, at the start of the buffer; the rest of it stays. This and the next two each match what is read: one function
// that takes what to show of a sheet as a closure is no plainer, since it needs the text of every sheet as a ghost value.
pub fn show(bytes: &[u8], out: &mut [u8]) -> Option<usize>
    ensures { Puts out.old 0 (shown bytes.now) result out.new }
{
    match read(bytes) {
        Err(r) => refused(r, out),
        Ok(sheet) => {
            let mut answers = [0; WORDS_PER_ROW * STREAMS];
            // A plan that is read is fine, so it is answered.
            let _ = answer_values::<Answer>(sheet, &mut answers);
            listing(sheet, &answers, out)
        }
    }
}

// How many evaluations the search for each stream's L takes, and how many at most, at the start of the buffer; the rest of it stays.
pub fn show_waits(bytes: &[u8], out: &mut [u8]) -> Option<usize>
    ensures { Puts out.old 0 (shown_waits bytes.now) result out.new }
{
    match read(bytes) {
        Err(r) => refused(r, out),
        Ok(sheet) => {
            let mut words = [0; WORDS_PER_WAIT * STREAMS];
            let _ = answer_values::<Wait>(sheet, &mut words);
            waits(sheet, &words, out)
        }
    }
}

fn fine(out: &mut [u8]) -> Option<usize>
    ensures { Puts out.old 0 (ascii "fine\n") result out.new }
{
    put(out, &Words(b"fine\n"))
}

// Whether a file is fine, at the start of the buffer.
pub fn show_refusal(bytes: &[u8], out: &mut [u8]) -> Option<usize>
    ensures { Puts out.old 0 (shown_refusal bytes.now) result out.new }
{
    match read(bytes) {
        Err(r) => refused(r, out),
        Ok(_) => fine(out),
    }
}

// A file's plan written again, at the start of the buffer. Room is looked for after all else, so where that is missing the plan is fine.
pub fn show_file(bytes: &[u8], out: &mut [u8]) -> Option<usize>
    ensures { Puts out.old 0 (shown_file bytes.now) result out.new }
{
    match rewrite(bytes, out) {
        Ok(n) => Some(n),
        Err(r) => {
            if r.number == NO_ROOM {
                return None;
            }
            refused(r, out)
        }
    }
}
