// The limits of what is entered, field by field, and the lowest field that is outside them.
//
// The one public function answers for all words and every two counts, and its contract determines the answer. Nothing is assumed. A
// field is known by where it stands among the words that are carried; this crate must not know of bytes or of refusals.
#![tactic(auto)]

ghost use Rattle.std.specs.Prelude.{◌≡◌, ◌+◌, ◌-◌, ◌^◌, ◌*◌, min, ◌≤◌, length, zip};
ghost use Rattle.std.specs.List.{position_from};
ghost use mathlib.Core.List.{map, flat_map};
ghost use Rattle.names.specs.Limits as limit;
ghost use Rattle.laws.specs.Lists.{rows};
ghost use Rattle.carried.specs.Layout as layout;
ghost use Rattle.carried.specs.Carried.{entered_timing_in, streams_in, gaps_in, entered_in};
ghost use Rattle.fields.specs.Fields.{◌from◌to◌, inside, slot_least, slot_most, timing_fields, stream_fields, gap_field, fields, lowest};
ghost use Rattle.fields.specs.private.Bands.{fields_of, out_of_band};

use carried::{CARRIED, Counts, Edition, STREAM, TIMING, records};
use laws::smaller;
use names::{ACKNOWLEDGEMENT, BITS, CONSTANT, PAYLOAD, SLOT, SOURCES, STREAMS};

// The timing's words that have the number of priority bits and P.
const NB: usize = 8;

const P: usize = 9;

// The least and the most that a word may be.
#[derive(Clone, Copy)]
struct Band(u32, u32);

impl Band {
    fn holds(self, word: u32) -> bool
        ensures { result ≡ inside (word from self.0 to self.1) }
    {
        self.0 <= word && word <= self.1
    }
}

// The first word outside its limits.
fn first_outside<'a>(words: &'a [u32], bands: &'a [Band]) -> Option<usize>
    ensures { result ≡ position_from out_of_band 0 (zip words.now bands.now) }
{
    words
        .iter()
        .zip(bands)
        .position(|(word, band)| !band.holds(*word))
}

// The lowest field outside its limits, of words that stand from word k on.
fn words_outside<'a>(words: &'a [u32], bands: &'a [Band], k: usize) -> Option<u64>
    requires bands_len { length bands.now ≡ length words.now }
    requires words_bound { k + length words.now ≤ layout.largest }
    ensures { result ≡ lowest k (fields_of words.now bands.now) }
{
    let i = first_outside(words, bands)?;
    Some((k + i) as u64)
}

// The least and the most that P may be: edition 1 has none, and edition 3 a plan with none.
fn slot_band(edition: Edition) -> Band
    ensures { result ≡ record { 0 = slot_least edition; 1 = slot_most edition } }
{
    match edition {
        Edition::One => Band(0, 0),
        Edition::Two => Band(1, SLOT),
        Edition::Three => Band(0, SLOT),
    }
}

// F to LAG are at most 65,535, NB is 1 to 32, and P as its edition has it.
fn timing_outside(edition: Edition, words: &[u32; CARRIED]) -> Option<u64>
    ensures { result ≡ lowest 0 (timing_fields edition (entered_timing_in words.now)) }
{
    let mut bands = [Band(0, CONSTANT); TIMING];
    bands[NB] = Band(1, BITS);
    bands[P] = slot_band(edition);
    words_outside(&words[..TIMING], &bands, 0)
}

// 2^NB - 1, in 64 bits, where 2^32 has room.
fn largest_priority(nb: u32) -> u32
    requires { nb ≤ limit.bits }
    ensures { result ≡ 2 ^ nb - 1 }
{
    ((1u64 << nb) - 1) as u32
}

// The streams, which all have one row of limits. Every word is a label. Their count and that of the gaps are bounded by `outside`, by `smaller`: a
// type for that would be no plainer.
fn streams_outside(words: &[u32; CARRIED], n: usize, nb: u32) -> Option<u64>
    requires n_le_streams { n ≤ limit.streams }
    requires nb_le_bits { nb ≤ limit.bits }
    ensures { result ≡ lowest (layout.stream_at 0) (flat_map (stream_fields nb) (streams_in n words.now)) }
{
    let any = Band(0, u32::MAX);
    let some = Band(1, u32::MAX);
    let priority = Band(0, largest_priority(nb));
    let payload = Band(1, PAYLOAD);
    let acknowledgement = Band(0, ACKNOWLEDGEMENT);
    let bands = [any, priority, some, any, payload, some, acknowledgement];
    for (r, record) in records(words, n).iter().enumerate() {
        if let Some(p) = words_outside(record, &bands, TIMING + STREAM * r) {
            return Some(p);
        }
    }
    None
}

// The gaps, which start where stream n would.
fn gaps_outside(words: &[u32; CARRIED], n: usize, m: usize) -> Option<u64>
    requires n_le_streams { n ≤ limit.streams }
    requires m_le_sources { m ≤ limit.sources }
    ensures { result ≡ lowest (layout.stream_at n) (map gap_field (gaps_in n m words.now)) }
{
    let bands = [Band(1, u32::MAX); SOURCES];
    let at = TIMING + STREAM * n;
    words_outside(&words[at..at + m], &bands[..m], at)
}

// The lowest field that is outside its limits in an edition, counted from 0, of what is entered in the words of n streams and m gaps; of
// counts past the limits there are as many as there may be. No number is raised to the power NB before NB is known to be in its limits.
pub fn outside(counts: Counts, words: &[u32; CARRIED]) -> Option<u64>
    ensures { result ≡ lowest 0 (fields counts.edition (entered_in (min counts.n limit.streams) (min counts.m limit.sources) words.now)) }
{
    if let Some(p) = timing_outside(counts.edition, words) {
        return Some(p);
    }
    let rows = smaller(counts.n, STREAMS);
    if let Some(p) = streams_outside(words, rows, words[NB]) {
        return Some(p);
    }
    gaps_outside(words, rows, smaller(counts.m, SOURCES))
}
