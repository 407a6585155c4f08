// A plan as it is carried: the words that are entered of its timing, its streams and its noise gaps, one after the other, lent with its
// counts beside them. Only plain numbers can be lent, and a sheet is copied whenever it is handed on.
//
// A file, and a caller who lends words, may have a LAG beside ETG; a plan has none. What a LAG means is said here and nowhere else.
// Records are made of words and words of records here and nowhere else. Every public function answers for every input, and its
// contract determines the answer; nothing is checked. Nothing is assumed. This crate knows of a plan's values; it must not know of
// bytes or refusals.
#![tactic(auto)]

ghost use Rattle.std.specs.Prelude.{◌≡◌, ◌+◌, ◌≤◌, min, length, replicate, take};
ghost use Rattle.std.proofs.Math.Seq.{paste};
ghost use Rattle.names.specs.Limits as limit;
ghost use Rattle.laws.specs.Lists.{placed};
ghost use Rattle.plan.specs.Plan.{plan_of};
ghost use Rattle.plan.specs.Plan.{blank as no_stream};
ghost use Rattle.carried.specs.Layout as layout;
ghost use Rattle.carried.specs.Carried.{held_timing, held, plain_timing};
ghost use Rattle.carried.specs.Carried.{entered_timing_in, stream_in, streams_in, gaps_in, entered_in};
ghost use Rattle.carried.specs.Carried.{timing_words, stream_words, records_in, entered_words, values_of, in_places, sheet_of};

use laws::smaller;
use names::{Label, OLDER_STREAMS, Priority, SOURCES, STREAMS};
use plan::{Sheet, Stream, Timing};

// A file of edition 1 has a plan without a master node, and no word for P; one of edition 2 has a plan with one; neither has a word for K.
// One of edition 3 has either, with both words. It is the one that is written, and the one whose places lent values have.
#[derive(Clone, Copy)]
pub enum Edition {
    One,
    Two,
    Three,
}

// How much is carried: the edition of the file that it stands in, n streams and m noise gaps.
#[derive(Clone, Copy)]
pub struct Counts {
    pub edition: Edition,
    pub n: usize,
    pub m: usize,
}

// A timing as it is entered: the ten words in the file's order, LAG among them.
#[derive(Clone, Copy)]
pub struct EnteredTiming {
    pub f: u32,
    pub e: u32,
    pub tfcs: u32,
    pub swx: u32,
    pub h: u32,
    pub g: u32,
    pub etg: u32,
    pub lag: u32,
    pub nb: u32,
    pub p: u32,
}

// A word's bytes, and the words of a file's contents, of the timing and of a stream. A noise gap is one word.
pub const WORD: usize = 4;

pub const CONTENTS: usize = 11;

pub const TIMING: usize = 10;

pub const STREAM: usize = 7;

// The timing's words that have ETG, LAG and P.
pub const ETG: usize = 6;

pub const LAG: usize = 7;

pub const SLOT: usize = TIMING - 1;

// The words of the largest plan.
pub const CARRIED: usize = TIMING + STREAM * STREAMS + SOURCES;

// The number that a file says its edition by.
impl From<Edition> for u32 {
    ghost from_gives = { λ edition number. number ≡ layout.edition_number edition };

    fn from(edition: Edition) -> u32 {
        match edition {
            Edition::One => 1,
            Edition::Two => 2,
            Edition::Three => 3,
        }
    }
}

// How many timing words a file has.
pub fn timing_body(edition: Edition) -> usize
    ensures value { result ≡ layout.timing_body edition }
    ensures upper_bound { result ≤ layout.timing_length }
{
    match edition {
        Edition::One => TIMING - 1,
        Edition::Two | Edition::Three => TIMING,
    }
}

// How many words a stream's record has in a file.
pub fn stream_body(edition: Edition) -> usize
    ensures value { result ≡ layout.stream_body edition }
    ensures lower_bound { 1 ≤ result }
    ensures upper_bound { result ≤ layout.stream_length }
{
    match edition {
        Edition::One | Edition::Two => STREAM - 1,
        Edition::Three => STREAM,
    }
}

// How many streams there may be in a file.
pub fn most_streams(edition: Edition) -> usize
    ensures { result ≡ layout.most_streams edition }
{
    match edition {
        Edition::One | Edition::Two => OLDER_STREAMS,
        Edition::Three => STREAMS,
    }
}

// The word of the bodies at which the record of row r starts, and after the last of them the noise body.
pub fn record_at(edition: Edition, r: u16) -> usize
    ensures value { result ≡ layout.record_at edition r }
    ensures upper_bound { result ≤ layout.stream_at r }
{
    timing_body(edition) + stream_body(edition) * usize::from(r)
}

// Whether word k of those that are carried of n streams is the K of one of them.
fn is_acknowledgement(n: usize, k: usize) -> bool
    ensures { result ≡ layout.is_acknowledgement n k }
{
    TIMING <= k && (k - TIMING) / STREAM < n && (k - TIMING) % STREAM == STREAM - 1
}

// How many K come before it.
fn acknowledgements_before(n: usize, k: usize) -> usize
    ensures { result ≡ layout.acknowledgements_before n k }
{
    n.min(k.saturating_sub(TIMING) / STREAM)
}

// Whether a file of n streams has word k of those that are carried: edition 1 has no P, and editions 1 and 2 have no K.
pub fn has_word(edition: Edition, n: usize, k: usize) -> bool
    ensures { result ≡ layout.has_word edition n k }
{
    match edition {
        Edition::One => k != SLOT && !is_acknowledgement(n, k),
        Edition::Two => !is_acknowledgement(n, k),
        Edition::Three => true,
    }
}

// The word of the bodies in which it stands.
pub fn in_bodies(edition: Edition, n: usize, k: usize) -> usize
    ensures value { result ≡ layout.in_bodies edition n k }
    ensures upper_bound { result ≤ k }
{
    match edition {
        Edition::One if k < TIMING => k,
        Edition::One => k - 1 - acknowledgements_before(n, k),
        Edition::Two => k - acknowledgements_before(n, k),
        Edition::Three => k,
    }
}

// A plan's timing is entered with a LAG of 0.
impl From<Timing> for EnteredTiming {
    ghost from_gives = { λ t r. r ≡ plain_timing t };

    fn from(t: Timing) -> EnteredTiming {
        EnteredTiming {
            f: t.f,
            e: t.e,
            tfcs: t.tfcs,
            swx: t.swx,
            h: t.h,
            g: t.g,
            etg: t.etg,
            lag: 0,
            nb: t.nb,
            p: t.p,
        }
    }
}

// Words are a list with no type of their own, and a stream is of another crate: so these are functions, where a From would have no place.
fn entered_words(t: EnteredTiming) -> [u32; TIMING]
    ensures { result ≡ timing_words t }
{
    [t.f, t.e, t.tfcs, t.swx, t.h, t.g, t.etg, t.lag, t.nb, t.p]
}

// The words of a plan's timing, in their order.
pub fn timing_words(t: Timing) -> [u32; TIMING]
    ensures { result ≡ timing_words (plain_timing t) }
{
    entered_words(EnteredTiming::from(t))
}

fn stream_words(s: Stream) -> [u32; STREAM]
    ensures { result ≡ stream_words s }
{
    [
        s.label.0,
        s.priority.0,
        s.period,
        s.jitter,
        s.payload,
        s.deadline,
        s.acknowledgement,
    ]
}

// The words from word k on.
fn lay<'a>(out: &'a mut [u32], k: usize, words: &'a [u32])
    requires { k + length words.now ≤ length out.old }
    ensures { out.new ≡ paste out.old k words.now (length words.now) }
{
    out[k..k + words.len()].copy_from_slice(words);
}

// The words of a timing, of the first of these streams and of the first of these gaps, as many as are counted. Of counts past the places
// all places are taken.
pub fn words_entered(
    timing: EnteredTiming,
    streams: [Stream; STREAMS],
    count: usize,
    gaps: [u32; SOURCES],
    sources: usize,
) -> [u32; CARRIED]
    ensures { result ≡ in_places (entered_words (record { timing = timing; streams = take count streams; gaps = take sources gaps })) }
{
    let n = smaller(count, STREAMS);
    let m = smaller(sources, SOURCES);
    let mut out = [0; CARRIED];
    lay(&mut out, 0, &entered_words(timing));
    for (r, stream) in streams[..n].iter().enumerate() {
        lay(&mut out, TIMING + STREAM * r, &stream_words(*stream));
    }
    lay(&mut out, TIMING + STREAM * n, &gaps[..m]);
    out
}

// The words of a sheet's plan.
pub fn words_of(sheet: Sheet) -> [u32; CARRIED]
    ensures { result ≡ in_places (values_of (plan_of sheet)) }
{
    let timing = EnteredTiming::from(sheet.timing);
    words_entered(
        timing,
        sheet.streams,
        sheet.count,
        sheet.gaps,
        sheet.sources,
    )
}

// The words that a caller lends. What has no place is not taken, and a word that is not lent is 0.
pub fn words_from(values: &[u32]) -> [u32; CARRIED]
    ensures { result ≡ in_places values.now }
{
    let n = smaller(values.len(), CARRIED);
    let mut out = [0; CARRIED];
    out[..n].copy_from_slice(&values[..n]);
    out
}

// The timing that is entered in the words.
fn entered_in(words: &[u32; CARRIED]) -> EnteredTiming
    ensures { result ≡ entered_timing_in words.now }
{
    EnteredTiming {
        f: words[0],
        e: words[1],
        tfcs: words[2],
        swx: words[3],
        h: words[4],
        g: words[5],
        etg: words[ETG],
        lag: words[LAG],
        nb: words[8],
        p: words[SLOT],
    }
}

// The timing that is entered in the first ten words that a caller lends; who lends nine has no master node.
pub fn timing_from(values: &[u32]) -> EnteredTiming
    ensures { result ≡ entered_timing_in values.now }
{
    entered_in(&words_from(values))
}

// The one place where a LAG is added to ETG: as much of the sum as a word holds.
impl From<EnteredTiming> for Timing {
    ghost from_gives = { λ t r. r ≡ held_timing t };

    fn from(t: EnteredTiming) -> Timing {
        Timing {
            f: t.f,
            e: t.e,
            tfcs: t.tfcs,
            swx: t.swx,
            h: t.h,
            g: t.g,
            etg: t.etg.saturating_add(t.lag),
            nb: t.nb,
            p: t.p,
        }
    }
}

// The timing that is meant by the words.
pub fn timing_in(words: &[u32; CARRIED]) -> Timing
    ensures { result ≡ held_timing (entered_timing_in words.now) }
{
    Timing::from(entered_in(words))
}

// The one place where a stream is built.
fn stream_in(words: &[u32; STREAM]) -> Stream
    ensures { result ≡ stream_in words.now 0 }
{
    Stream {
        label: Label(words[0]),
        priority: Priority(words[1]),
        period: words[2],
        jitter: words[3],
        payload: words[4],
        deadline: words[5],
        acknowledgement: words[6],
    }
}

// What stands in the unused places for streams.
pub fn no_streams() -> [Stream; STREAMS]
    ensures { result ≡ replicate limit.streams no_stream }
{
    [stream_in(&[0; STREAM]); STREAMS]
}

// The records of the first n streams; of a count past the places there are as many as there are places.
pub fn records(words: &[u32; CARRIED], n: usize) -> &[[u32; STREAM]]
    ensures { result.now ≡ records_in (min n limit.streams) words.now }
{
    let (records, _) = words[TIMING..].as_chunks::<STREAM>();
    &records[..smaller(n, STREAMS)]
}

// The counts here and below are bounded where they are made, by `min`: a type for a bounded count would be made there in the same words.
fn streams_in(words: &[u32; CARRIED], n: usize) -> [Stream; STREAMS]
    requires { n ≤ limit.streams }
    ensures { result ≡ placed limit.streams no_stream (streams_in n words.now) }
{
    let mut out = no_streams();
    for (r, record) in records(words, n).iter().enumerate() {
        out[r] = stream_in(record);
    }
    out
}

fn gaps_in(words: &[u32; CARRIED], n: usize, m: usize) -> [u32; SOURCES]
    requires n_le_streams { n ≤ limit.streams }
    requires m_le_sources { m ≤ limit.sources }
    ensures { result ≡ placed limit.sources 0 (gaps_in n m words.now) }
{
    let first = TIMING + STREAM * n;
    let mut out = [0; SOURCES];
    out[..m].copy_from_slice(&words[first..first + m]);
    out
}

// The sheet of the plan that is meant by the words of n streams and m gaps; of counts past the places it has as many as there are.
pub fn sheet_in(words: &[u32; CARRIED], n: usize, m: usize) -> Sheet
    ensures { result ≡ sheet_of (held (entered_in (min n limit.streams) (min m limit.sources) words.now)) }
{
    let count = n.min(STREAMS);
    let sources = m.min(SOURCES);
    Sheet {
        timing: timing_in(words),
        streams: streams_in(words, count),
        count,
        gaps: gaps_in(words, count, sources),
        sources,
    }
}
