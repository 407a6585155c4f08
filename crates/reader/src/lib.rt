// The reader of plan files: any bytes at all give a plan or a refusal.
//
// `carry` is the one way from bytes to what is carried: reading, answering, writing again and comparing a file all go by it. Both
// public functions answer for bytes of any length, exactly as the definition of the file has it. Nothing is assumed. This crate only goes
// from bytes to words: the values' own refusals are the crate checks'.
#![tactic(auto)]

ghost use Rattle.std.specs.Prelude.{◌≡◌, cond, ◌+◌, ◌≤◌, ◌<◌, length, get_or, take};
ghost use Rattle.names.specs.Limits as limit;
ghost use Rattle.words.specs.Words.{words_of, laid_onto};
ghost use Rattle.carried.specs.Layout as layout;
ghost use Rattle.carried.specs.Carried.{entered_words};
ghost use Rattle.file.specs.File as spec;

use carried::{
    CARRIED, CONTENTS, Counts, Edition, STREAM, TIMING, WORD, has_word, in_bodies, sheet_in,
    stream_body,
};
use checks::{check_counts, check_words};
use file::{contents, size};
use names::{Refusal, SOURCES, STREAMS};
use plan::Sheet;
use words::{word_at, words_into};

// The words of the contents that have the lengths of the streams' body and of the noise body, in bytes.
const STREAMS_LENGTH: usize = 7;

const NOISE_LENGTH: usize = 10;

// The edition that a file says it has. One that says none of the three is refused by its contents, which differ from edition 1's: each number
// has an edition here, where a TryFrom would have a case for those that have none.
fn edition_in(bytes: &[u8]) -> Edition
    ensures { result ≡ spec.edition_in (words_of bytes.now) }
{
    match word_at(bytes, 0) {
        3 => Edition::Three,
        2 => Edition::Two,
        _ => Edition::One,
    }
}

// Whether the eleven contents words are those of a file of n streams and m noise sources. These and those of the two functions below are counts
// that check_counts has called fine: a type for that would be made at one place and taken apart at these three, and is no plainer. The words are
// compared by their numbers, so that the loop says from which on.
fn contents_in(bytes: &[u8], counts: Counts) -> bool
    requires n_le_streams { counts.n ≤ limit.streams }
    requires m_le_sources { counts.m ≤ limit.sources }
    requires byte_of_in_bounds { layout.byte_of 0 ≤ length bytes.now }
    ensures { result ≡ spec.same (take layout.contents_length (words_of bytes.now)) (spec.contents counts.edition counts.n counts.m) }
{
    let right = contents(counts.edition, counts.n as u16, counts.m as u16);
    for k in 0..CONTENTS {
        if word_at(bytes, k) != right[k] {
            return false;
        }
    }
    true
}

fn refused_counts(number: u32) -> Result<Counts, Refusal>
    ensures { result ≡ Err (record { number = number; place = 0 }) }
{
    Err(Refusal { number, place: 0 })
}

// The edition and how many streams and noise gaps the contents say, or the refusal of the contents.
fn counts(bytes: &[u8]) -> Result<Counts, Refusal>
    ensures { result ≡ spec.counts_of bytes.now }
{
    let length = bytes.len();
    if length < WORD * CONTENTS {
        return refused_counts(1);
    }
    if size(Edition::Three, STREAMS as u16, SOURCES as u16) < length {
        return refused_counts(1);
    }
    let edition = edition_in(bytes);
    let n = word_at(bytes, STREAMS_LENGTH) as usize / (WORD * stream_body(edition));
    let m = word_at(bytes, NOISE_LENGTH) as usize / WORD;
    let counts = Counts { edition, n, m };
    check_counts(counts)?;
    if !contents_in(bytes, counts) {
        return refused_counts(2);
    }
    if length != size(edition, n as u16, m as u16) {
        return refused_counts(2);
    }
    Ok(counts)
}

// Word k of those that are carried of a file of n streams: 0 where its edition has no word for it.
fn carried_word(bytes: &[u8], edition: Edition, n: usize, k: usize) -> u32
    requires { k < layout.largest }
    ensures { result ≡ cond (layout.has_word edition n k) (get_or (words_of bytes.now) (layout.contents_length + layout.in_bodies edition n k) 0) 0 }
{
    if has_word(edition, n, k) {
        word_at(bytes, CONTENTS + in_bodies(edition, n, k))
    } else {
        0
    }
}

// The words that are entered in an older file, at the front of those that are lent, one by one.
fn lay_older(bytes: &[u8], counts: Counts, words: &mut [u32])
    requires n_le_streams { counts.n ≤ limit.streams }
    requires m_le_sources { counts.m ≤ limit.sources }
    requires words_len { length words.old ≡ layout.largest }
    ensures { words.new ≡ laid_onto (entered_words (spec.entered_at counts.edition counts.n counts.m bytes.now)) words.old }
{
    let count = TIMING + STREAM * counts.n + counts.m;
    for (k, word) in words[..count].iter_mut().enumerate() {
        *word = carried_word(bytes, counts.edition, counts.n, k);
    }
}

// The words that are entered in a file, at the front of those that are lent. In edition 3 they are those of its bodies, as they stand.
fn lay_bodies(bytes: &[u8], counts: Counts, words: &mut [u32; CARRIED])
    requires n_le_streams { counts.n ≤ limit.streams }
    requires m_le_sources { counts.m ≤ limit.sources }
    requires bytes_len { length bytes.now ≡ layout.size counts.edition counts.n counts.m }
    ensures { words.new ≡ laid_onto (entered_words (spec.entered_at counts.edition counts.n counts.m bytes.now)) words.old }
{
    match counts.edition {
        Edition::One | Edition::Two => lay_older(bytes, counts, words),
        Edition::Three => words_into(&bytes[WORD * CONTENTS..], words),
    }
}

// What is carried of a file: its edition and its counts, and in the lent words those that are entered in it, LAG as it stands; or the refusal
// of its contents, and the words as they were.
pub fn carry(bytes: &[u8], words: &mut [u32; CARRIED]) -> Result<Counts, Refusal>
    ensures value { result ≡ spec.counts_of bytes.now }
    ensures words_after { words.new ≡ spec.carried_of bytes.now words.old }
{
    let counts = counts(bytes)?;
    lay_bodies(bytes, counts, words);
    Ok(counts)
}

// The plan in a file, or the first refusal that applies.
pub fn read(bytes: &[u8]) -> Result<Sheet, Refusal>
    ensures { result ≡ spec.read_of bytes.now }
{
    let mut words = [0; CARRIED];
    let counts = carry(bytes, &mut words)?;
    check_words(counts, &words)?;
    Ok(sheet_in(&words, counts.n, counts.m))
}
