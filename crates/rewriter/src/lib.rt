// A plan file read and its plan written again, into lent bytes.
//
// The one public function answers for any bytes, and its contract fixes each byte of the lent ones. Nothing is assumed. This crate
// joins the reader and the writer, which know nothing of each other; it makes no check of its own, and must not know of text.
#![tactic(auto)]

ghost use Rattle.std.specs.Prelude.{◌≡◌};
ghost use Rattle.rewriter.specs.Rewriter.{rewrite_of};

use carried::CARRIED;
use names::Refusal;
use reader::carry;
use writer::write_words;

// The plan in a file, written into lent bytes: its file of edition 3. The words that are carried are written as they stand, so that no sheet
// is made.
pub fn rewrite(file: &[u8], out: &mut [u8]) -> Result<usize, Refusal>
    ensures value { result ≡ (rewrite_of file.now out.old).0 }
    ensures out_after { out.new ≡ (rewrite_of file.now out.old).1 }
{
    let mut words = [0; CARRIED];
    let counts = carry(file, &mut words)?;
    write_words(counts, &words, out)
}
