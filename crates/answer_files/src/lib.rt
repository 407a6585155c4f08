// The answers of a plan file into lent memory, in file order, at the start of what is lent.
//
// The one public function answers for any bytes. On a refusal the lent words are as they were, and else those after the rows' are. Nothing
// is assumed. This crate joins the reader and the answers; it must not know of text.
#![tactic(auto)]

ghost use Rattle.std.specs.Prelude.{◌≡◌};
ghost use Rattle.answer_files.specs.AnswerFiles.{answer_file_of};

use answers::{Answer, answer_words};
use carried::CARRIED;
use names::Refusal;
use reader::carry;

// The answers of a file's plan, or the first refusal of 1, 2, 3, 11, 4, 5, 10, 6 that applies.
pub fn answer_file(bytes: &[u8], out: &mut [u64]) -> Result<(), Refusal>
    ensures value { result ≡ (answer_file_of bytes.now out.old).0 }
    ensures out_after { out.new ≡ (answer_file_of bytes.now out.old).1 }
{
    let mut words = [0; CARRIED];
    let counts = carry(bytes, &mut words)?;
    answer_words::<Answer>(counts, &words, out)
}
