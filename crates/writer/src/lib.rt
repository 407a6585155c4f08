// The writer of plan files: a plan's words, or a sheet's values, into a lent buffer.
//
// `write_words` answers for every two counts, all words and every buffer, and `write` for every sheet, exactly as the definition
// of the file says: the file stands at the buffer's start and the rest is as it was, or the whole buffer is as it was and the
// answer says why. Nothing is assumed. This crate only goes from words to bytes: the values' own refusals are the crate checks'.
#![tactic(auto)]

ghost use Rattle.std.specs.Prelude.{◌≡◌, ◌++◌, ◌≤◌, length, drop};
ghost use Rattle.names.specs.Limits as limit;
ghost use Rattle.carried.specs.Layout as layout;
ghost use Rattle.carried.specs.Carried.{timing_in, entered_in, plan_in};
ghost use Rattle.file.specs.File as spec;
ghost use Rattle.file.specs.File.{file_of};

use carried::{
    CARRIED, CONTENTS, Counts, Edition, STREAM, TIMING, WORD, timing_in, timing_words, words_of,
};
use checks::check_words;
use file::{contents, size};
use names::Refusal;
use plan::{Sheet, Timing};
use words::put_words;

// The file of n streams and m gaps, where it has room. It is of edition 3, and its bodies are the words as they stand, but for the timing's,
// which are those of the plan: LAG is 0.
fn put_file(buf: &mut [u8], timing: Timing, words: &[u32], n: usize, m: usize)
    requires timing_value { timing ≡ timing_in words.now }
    requires words_len { length words.now ≡ layout.largest }
    requires n_le_streams { n ≤ limit.streams }
    requires m_le_sources { m ≤ limit.sources }
    requires m_in_bounds { layout.size Edition.Three n m ≤ length buf.old }
    ensures { buf.new ≡ file_of (plan_in n m words.now) ++ drop (layout.size Edition.Three n m) buf.old }
{
    let head = contents(Edition::Three, n as u16, m as u16);
    let constants = timing_words(timing);
    let bodies = TIMING + STREAM * n + m;
    put_words(buf, 0, &head);
    put_words(buf, WORD * CONTENTS, &constants);
    put_words(buf, WORD * (CONTENTS + TIMING), &words[TIMING..bodies]);
}

// The file of the plan that is meant by the words of n streams and m gaps, of a file of an edition, at the buffer's start, or the first refusal
// that applies. Whatever that edition, the file that is written is of edition 3.
pub fn write_words(counts: Counts, words: &[u32; CARRIED], buf: &mut [u8]) -> Result<usize, Refusal>
    ensures value { result ≡ (spec.write_with counts.edition counts.n counts.m (entered_in counts.n counts.m words.now) buf.old).0 }
    ensures buf_after { buf.new ≡ (spec.write_with counts.edition counts.n counts.m (entered_in counts.n counts.m words.now) buf.old).1 }
{
    check_words(counts, words)?;
    let bytes = size(Edition::Three, counts.n as u16, counts.m as u16);
    let no_room = buf.len() < bytes;
    if no_room {
        return Err(Refusal {
            number: 6,
            place: 0,
        });
    }
    put_file(buf, timing_in(words), words, counts.n, counts.m);
    Ok(bytes)
}

// The same of a sheet's values, with the places of edition 3.
pub fn write(sheet: Sheet, buf: &mut [u8]) -> Result<usize, Refusal>
    ensures value { result ≡ (spec.write_of sheet buf.old).0 }
    ensures buf_after { buf.new ≡ (spec.write_of sheet buf.old).1 }
{
    let words = words_of(sheet);
    let counts = Counts {
        edition: Edition::Three,
        n: sheet.count,
        m: sheet.sources,
    };
    write_words(counts, &words, buf)
}
