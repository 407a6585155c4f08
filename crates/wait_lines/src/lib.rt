// How long the searches of a plan's streams may take, as text, into a lent buffer.
//
// The public function answers for every input, and its contract fixes each byte of the buffer: the lines are there whole, or it answers
// `None` and leaves the buffer as it was. Nothing is assumed. This crate must not know of files, of checks, or of how a wait comes about.
#![tactic(auto)]

ghost use Rattle.row_words.specs.RowWords.{wait_at};
ghost use Rattle.text.specs.Put.{Lays, Puts};
ghost use Rattle.wait_lines.specs.Lines.{wait_row, lines_in};

use bound::Wait;
use laws::smaller;
use names::{Row, STREAMS};
use plan::{Sheet, Stream};
use row_words::wait_in;
use text::{Laid, Told, lay_label, lay_lines, lay_number, lay_text, put};

fn lay_wait(out: &mut [u8], at: usize, stream: Stream, wait: Wait) -> usize
    ensures { Lays out.old at (wait_row stream wait) result out.new }
{
    let label = stream.label;
    let at = lay_label(out, at, label);
    let at = lay_text(out, at, b" ");
    let at = lay_number(out, at, wait.evaluations);
    let at = lay_text(out, at, b" ");
    let at = lay_number(out, at, wait.limit);
    lay_text(out, at, b"\n")
}

// The rows' waits, in their words.
#[derive(Clone, Copy)]
struct Kept<'a>(&'a [u64]);

impl Told for Kept<'_> {
    ghost line = { λ waits s k. wait_row s (wait_at waits.0.now k) };

    fn lay_line(&self, out: &mut [u8], at: usize, stream: Stream, row: Row) -> usize {
        lay_wait(out, at, stream, wait_in(self.0, row))
    }
}

// A sheet's plan and its rows' waits, as they are shown.
#[derive(Clone, Copy)]
struct Listed<'a> {
    sheet: Sheet,
    waits: &'a [u64],
}

impl Laid for Listed<'_> {
    ghost bytes = { λ l. lines_in l.sheet l.waits.now };

    fn lay(&self, out: &mut [u8], at: usize) -> usize {
        let n = smaller(self.sheet.count, STREAMS);
        let at = lay_text(out, at, b"label evaluations limit\n");
        lay_lines(out, at, &self.sheet.streams[..n], &Kept(self.waits))
    }
}

// The lines of a sheet's plan with its rows' waits, which stand in words, at the start of the buffer.
pub fn waits(sheet: Sheet, waits: &[u64], out: &mut [u8]) -> Option<usize>
    ensures { Puts out.old 0 (lines_in sheet waits.now) result out.new }
{
    put(out, &Listed { sheet, waits })
}
