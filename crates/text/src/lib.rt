// The listing as text: numbers, labels, and the whole listing or a refusal's line, into a lent buffer.
//
// Every public function answers for every input, and its contract fixes each byte of the buffer. What is put is there whole,
// or is answered `None` and leaves the buffer as it was; what is laid is there as far as there is room, so that texts can be
// laid one after the other and measured before they are put. Nothing is assumed. This crate must not know of files, of
// checks, or of how an answer comes about.
#![tactic(auto)]

ghost use Rattle.std.specs.Prelude.{List, [], ◌∷◌, ◌++◌, ℕ};
ghost use Rattle.decimal.specs.Decimal.{digits};
ghost use Rattle.row_words.specs.RowWords.{answer_at};
ghost use Rattle.text.specs.Listing as text;
ghost use Rattle.plan.specs.declared.Stream.{Stream as Stream·Stream};
ghost use Rattle.text.specs.Put.{Lays, Puts};

use bound::{Answer, Verdict};
use laws::smaller;
use names::{Label, Refusal, Row, STREAMS};
use plan::{Sheet, Stream};
use row_words::answer_in;

// A label is group * 65,536 + number.
const GROUP: u32 = 65536;

// Past the buffer's end nothing is laid, so a text laid there is only measured. The last place has none after it.
fn lay(out: &mut [u8], at: usize, byte: u8) -> usize
    ensures { Lays out.old at (byte ∷ []) result out.new }
{
    if at < out.len() {
        out[at] = byte;
    }
    at.saturating_add(1)
}

// A text from a place on; the answer is the place after it, room or not.
pub fn lay_text(out: &mut [u8], at: usize, text: &[u8]) -> usize
    ensures { Lays out.old at text.now result out.new }
{
    let mut next = at;
    for byte in text {
        next = lay(out, next, *byte);
    }
    next
}

// A number's digits, laid. Not by `write!`, nor is a label or a refusal: that promises its bytes only where it answers `Ok`, and this cannot fail.
pub fn lay_number(out: &mut [u8], at: usize, x: u64) -> usize
    ensures { Lays out.old at (digits x) result out.new }
{
    if x < 10 {
        return lay(out, at, b'0' + x as u8);
    }
    let last = lay_number(out, at, x / 10);
    lay(out, last, b'0' + (x % 10) as u8)
}

// A label as group.number, laid.
pub fn lay_label(out: &mut [u8], at: usize, label: Label) -> usize
    ensures { Lays out.old at (text.label_text label) result out.new }
{
    let group = label.0 / GROUP;
    let number = label.0 % GROUP;
    let at = lay_number(out, at, group as u64);
    let at = lay(out, at, b'.');
    lay_number(out, at, number as u64)
}

// A row's bound or its instance, of which a row that is none has neither.
fn lay_bounded(out: &mut [u8], at: usize, verdict: Verdict, x: u64) -> usize
    ensures { Lays out.old at (text.bounded_text verdict x) result out.new }
{
    match verdict {
        Verdict::Met | Verdict::Missed => lay_number(out, at, x),
        Verdict::None => lay(out, at, b'-'),
    }
}

fn lay_verdict(out: &mut [u8], at: usize, verdict: Verdict) -> usize
    ensures { Lays out.old at (text.verdict_text verdict) result out.new }
{
    match verdict {
        Verdict::Met => lay_text(out, at, b"met"),
        Verdict::Missed => lay_text(out, at, b"missed"),
        Verdict::None => lay_text(out, at, b"none"),
    }
}

fn lay_row(out: &mut [u8], at: usize, stream: Stream, answer: Answer) -> usize
    ensures { Lays out.old at (text.row stream answer) result out.new }
{
    let label = stream.label;
    let verdict = answer.verdict;
    let at = lay_label(out, at, label);
    let at = lay(out, at, b' ');
    let at = lay_number(out, at, stream.priority.0 as u64);
    let at = lay(out, at, b' ');
    let at = lay_bounded(out, at, verdict, answer.bound);
    let at = lay(out, at, b' ');
    let at = lay_bounded(out, at, verdict, answer.instance);
    let at = lay(out, at, b' ');
    let at = lay_number(out, at, stream.deadline as u64);
    let at = lay(out, at, b' ');
    let end = lay_verdict(out, at, verdict);
    lay(out, end, b'\n')
}

// What is told of each stream, by its row: a line each.
pub trait Told {
    ghost line: { Self → Stream·Stream → ℕ → List ℕ };

    fn lay_line(&self, out: &mut [u8], at: usize, stream: Stream, row: Row) -> usize
        ensures { Lays out.old at (line self.now stream row.0) result out.new };
}

// A line for each stream, laid.
pub fn lay_lines<T: Told>(out: &mut [u8], at: usize, streams: &[Stream], told: &T) -> usize
    ensures { Lays out.old at (text.lines_from (T.line told.now) 0 streams.now) result out.new }
{
    let mut next = at;
    for (k, stream) in streams.iter().enumerate() {
        next = told.lay_line(out, next, *stream, Row(k));
    }
    next
}

// The rows' answers, in their words.
#[derive(Clone, Copy)]
struct Answers<'a>(&'a [u64]);

impl Told for Answers<'_> {
    ghost line = { λ answers s k. text.row s (answer_at answers.0.now k) };

    fn lay_line(&self, out: &mut [u8], at: usize, stream: Stream, row: Row) -> usize {
        lay_row(out, at, stream, answer_in(self.0, row))
    }
}

// The line of a refusal, laid.
pub fn lay_refusal(out: &mut [u8], at: usize, refusal: Refusal) -> usize
    ensures { Lays out.old at (text.refused_of refusal) result out.new }
{
    let at = lay_text(out, at, b"refused ");
    let at = lay_number(out, at, refusal.number as u64);
    let at = lay_text(out, at, b" at ");
    let at = lay_number(out, at, refusal.place as u64);
    lay(out, at, b'\n')
}

// A text that can be laid. Its length need not be known: laid past the buffer's end, it is measured.
pub trait Laid {
    ghost bytes: { Self → List ℕ };

    fn lay(&self, out: &mut [u8], at: usize) -> usize
        ensures { Lays out.old at (bytes self.now) result out.new };
}

// A text at the start of the buffer.
pub fn put<T: Laid>(out: &mut [u8], text: &T) -> Option<usize>
    ensures { Puts out.old 0 (T.bytes text.now) result out.new }
{
    let size = out.len();
    let bytes = text.lay(out, size) - size;
    if size < bytes {
        return None;
    }
    Some(text.lay(out, 0))
}

// A text that stands there as it is.
#[derive(Clone, Copy)]
pub struct Words<'a>(pub &'a [u8]);

impl Laid for Words<'_> {
    ghost bytes = { λ words. words.0.now };

    fn lay(&self, out: &mut [u8], at: usize) -> usize {
        lay_text(out, at, self.0)
    }
}

impl Laid for Refusal {
    ghost bytes = { text.refused_of };

    fn lay(&self, out: &mut [u8], at: usize) -> usize {
        lay_refusal(out, at, *self)
    }
}

// A sheet's plan and its rows' answers, as the listing shows them.
#[derive(Clone, Copy)]
struct Listed<'a> {
    sheet: Sheet,
    answers: &'a [u64],
}

impl Laid for Listed<'_> {
    ghost bytes = { λ l. text.listing_in l.sheet l.answers.now };

    fn lay(&self, out: &mut [u8], at: usize) -> usize {
        let n = smaller(self.sheet.count, STREAMS);
        let at = lay_text(out, at, b"label priority bound instance deadline verdict\n");
        lay_lines(out, at, &self.sheet.streams[..n], &Answers(self.answers))
    }
}

// The listing of a sheet's plan with its rows' answers, which stand in words, at the start of the buffer.
pub fn listing(sheet: Sheet, answers: &[u64], out: &mut [u8]) -> Option<usize>
    ensures { Puts out.old 0 (text.listing_in sheet answers.now) result out.new }
{
    put(out, &Listed { sheet, answers })
}

// The line of a refusal, at the start of the buffer.
pub fn refused(refusal: Refusal, out: &mut [u8]) -> Option<usize>
    ensures { Puts out.old 0 (text.refused_of refusal) result out.new }
{
    put(out, &refusal)
}
