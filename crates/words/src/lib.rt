// Little-endian words of 32 bits in bytes, both ways.
//
// Every public function answers for all that it is lent: a word past the end reads as 0, and words that have no
// room are not written. Nothing is assumed. This crate knows of no plan, no file and no limit.
#![tactic(auto)]

ghost use Rattle.std.specs.Prelude.{◌≡◌, [], ◌∷◌, ◌+◌, ◌≤◌, length, get_or};
ghost use Rattle.std.specs.Int.{w32, from_le_bytes};
ghost use Rattle.words.specs.Words.{words_of, laid_onto, with_words, put_words};

use laws::smaller;

// A word of its four bytes, the least first.
fn joined(four: &[u8; 4]) -> u32
    ensures { result ≡ from_le_bytes w32 four.now }
{
    u32::from_le_bytes(*four)
}

// Word k of the bytes, counted from 0.
pub fn word_at(bytes: &[u8], k: usize) -> u32
    ensures { result ≡ get_or (words_of bytes.now) k 0 }
{
    let (fours, _) = bytes.as_chunks::<4>();
    match fours.get(k) {
        Some(four) => joined(four),
        None => 0,
    }
}

// The words of the bytes, from the front of what is lent: as many as both have, and the rest as it was.
pub fn words_into(bytes: &[u8], out: &mut [u32])
    ensures { out.new ≡ laid_onto (words_of bytes.now) out.old }
{
    let (fours, _) = bytes.as_chunks::<4>();
    let n = smaller(fours.len(), out.len());
    for (i, four) in fours[..n].iter().enumerate() {
        out[i] = joined(four);
    }
}

// The four bytes of a word, from byte `at` on, each in a line of its own, which says where it stands.
fn put_word(buf: &mut [u8], at: usize, w: u32)
    requires { at + 4 ≤ length buf.old }
    ensures { buf.new ≡ with_words buf.old at (w ∷ []) }
{
    let [a, b, c, d] = w.to_le_bytes();
    buf[at] = a;
    buf[at + 1] = b;
    buf[at + 2] = c;
    buf[at + 3] = d;
}

// The words from byte `at` on, and the rest of the buffer as it was; nothing, if they have no room.
pub fn put_words(buf: &mut [u8], at: usize, ws: &[u32])
    ensures { buf.new ≡ put_words buf.old at ws.now }
{
    let room = buf.len();
    if room < at {
        return;
    }
    if (room - at) / 4 < ws.len() {
        return;
    }
    for (i, w) in ws.iter().enumerate() {
        put_word(buf, at + 4 * i, *w);
    }
}
