// Refusals 2, 3, 11, 4, 5 and 10 of what is entered, in this order, with the places that its file has: the counts, the fields, ETG and LAG,
// the rows, each by itself, and all of them.
//
// Every public function answers for every input, and the plan that `check` and `check_words` call fine is within document 01's limits, with
// distinct priorities and distinct labels, and fits its slots. Nothing is assumed. This crate knows of no bytes but where a field stands in
// them.
#![tactic(auto)]

ghost use Rattle.std.specs.Prelude.{◌≡◌, ◌+◌, ◌≤◌, ◌<◌, min, ltb, get_or};
ghost use Rattle.names.specs.Limits as limit;
ghost use Rattle.laws.specs.Lists.{rows};
ghost use Rattle.repeats.specs.Repeats.{first_repeat};
ghost use Rattle.judge.specs.Table.{judge};
ghost use Rattle.carried.specs.Layout as layout;
ghost use Rattle.plan.specs.Plan.{TimingWithin};
ghost use Rattle.costs.specs.Costs.{most_V, most_U};
ghost use Rattle.carried.specs.Carried.{entered_timing_in, timing_in, streams_in, entered_in};
ghost use Rattle.checks.specs.Checks.{in_range, range_lines, field_lines, lag_lines, row_lines, slot_lines, lines, checked_of};

use carried::{
    CARRIED, CONTENTS, Counts, ETG, Edition, LAG, STREAM, WORD, in_bodies, most_streams, records,
    timing_in, words_of,
};
use costs::overheads_of;
use fields::outside;
use judge::refused;
use laws::smaller;
use names::{CONSTANT, FEW, Refusal, Row, SOURCES, STREAMS};
use plan::Sheet;
use repeats::first_repeat;

// The words of a stream that have its label, its priority, its payload and its acknowledgement.
const LABEL: usize = 0;

const PRIORITY: usize = 1;

const PAYLOAD: usize = 4;

const ACKNOWLEDGEMENT: usize = 6;

// The most that ETG + LAG may be: it is one constant of the plan.
const SUM: u64 = CONSTANT as u64;

// The first row that repeats word k of an earlier one, by a column of plain numbers, as it can be lent, in a room of R places.
fn repeat_in<const R: usize>(words: &[u32; CARRIED], n: usize, k: usize) -> Option<Row>
    requires n_le_R { n ≤ R }
    requires R_le_streams { R ≤ limit.streams }
    requires k_lt_stream_length { k < layout.stream_length }
    ensures { result ≡ first_repeat (rows n (λ j. get_or words.now (layout.stream_at j + k) 0)) }
{
    let mut column = [0; R];
    for (r, record) in records(words, n).iter().enumerate() {
        column[r] = record[k];
    }
    first_repeat(&column[..n])
}

// Few rows have a small room. The count is bounded by its callers, by `smaller`: a type for that would be no plainer.
fn repeat_of(words: &[u32; CARRIED], n: usize, k: usize) -> Option<Row>
    requires n_le_streams { n ≤ limit.streams }
    requires k_lt_stream_length { k < layout.stream_length }
    ensures { result ≡ first_repeat (rows n (λ j. get_or words.now (layout.stream_at j + k) 0)) }
{
    if n <= FEW {
        return repeat_in::<FEW>(words, n, k);
    }
    repeat_in::<STREAMS>(words, n, k)
}

// Whether there may be so many streams and gaps.
fn in_range(counts: Counts) -> bool
    ensures { result ≡ in_range counts.edition counts.n counts.m }
{
    1 <= counts.n && counts.n <= most_streams(counts.edition) && counts.m <= SOURCES
}

// 2: n is not 1 to 256, in editions 1 and 2 not 1 to 64, or m is more than 8.
pub fn check_counts(counts: Counts) -> Result<(), Refusal>
    ensures { result ≡ judge (range_lines counts.edition counts.n counts.m) }
{
    if in_range(counts) {
        return Ok(());
    }
    refused(2, 0)
}

// Where in a file of n streams word k of those that are carried stands.
fn byte_of(edition: Edition, n: usize, k: usize) -> usize
    requires { k < layout.largest }
    ensures { result ≡ layout.byte_of (layout.in_bodies edition n k) }
{
    WORD * (CONTENTS + in_bodies(edition, n, k))
}

// 3: the byte of the lowest field outside its limits, of what is entered in the words of n streams and m gaps. Of counts past the limits
// there are as many as there may be; with no stream the timing and the gaps alone are looked at.
pub fn check_fields(counts: Counts, words: &[u32; CARRIED]) -> Result<(), Refusal>
    ensures { result ≡ judge (field_lines counts.edition (entered_in (min counts.n limit.streams) (min counts.m limit.sources) words.now)) }
{
    let rows = smaller(counts.n, STREAMS);
    match outside(counts, words) {
        Some(k) => refused(3, byte_of(counts.edition, rows, k as usize)),
        None => Ok(()),
    }
}

// Whether ETG and LAG are too much for one constant.
fn too_much(etg: u32, lag: u32) -> bool
    ensures { result ≡ ltb limit.constant (etg + lag) }
{
    SUM < u64::from(etg) + u64::from(lag)
}

// 11: ETG + LAG is above 65,535.
pub fn check_lag(words: &[u32; CARRIED]) -> Result<(), Refusal>
    ensures { result ≡ judge (lag_lines (entered_timing_in words.now)) }
{
    if too_much(words[ETG], words[LAG]) {
        return refused(11, WORD * (CONTENTS + ETG));
    }
    Ok(())
}

// 4 and 5: the lowest row that repeats an earlier row's priority, or else its label, among the first n streams in the words.
pub fn check_rows(words: &[u32; CARRIED], n: usize) -> Result<(), Refusal>
    ensures { result ≡ judge (row_lines (streams_in (min n limit.streams) words.now)) }
{
    let count = smaller(n, STREAMS);
    if let Some(r) = repeat_of(words, count, PRIORITY) {
        return refused(4, r.0);
    }
    if let Some(r) = repeat_of(words, count, LABEL) {
        return refused(5, r.0);
    }
    Ok(())
}

// Whether a message does not fit its slot: what comes to its payload and its acknowledgement is given beside.
fn too_long(slot: u32, beside: u64, stream: &[u32; STREAM]) -> bool
    requires { beside ≤ most_V + most_U }
    ensures { result ≡ ltb slot (beside + get_or stream.now 4 0 + get_or stream.now 6 0) }
{
    u64::from(slot) < beside + u64::from(stream[PAYLOAD]) + u64::from(stream[ACKNOWLEDGEMENT])
}

// 10: the lowest row whose C'' exceeds P, where there is a master node.
fn check_slots(words: &[u32; CARRIED], n: usize) -> Result<(), Refusal>
    requires timing_within { TimingWithin (timing_in words.now) }
    requires n_le_streams { n ≤ limit.streams }
    ensures { result ≡ judge (slot_lines (timing_in words.now) (streams_in n words.now)) }
{
    let timing = timing_in(words);
    let slot = timing.p;
    let none = slot == 0;
    if none {
        return Ok(());
    }
    let c = overheads_of(timing);
    let beside = c.lead + c.u;
    for (r, record) in records(words, n).iter().enumerate() {
        if too_long(slot, beside, record) {
            return refused(10, r);
        }
    }
    Ok(())
}

// The first refusal of 2, 3, 11, 4, 5, 10 that applies to what is entered in the words of n streams and m gaps, as they stand in a file of an
// edition.
pub fn check_words(counts: Counts, words: &[u32; CARRIED]) -> Result<(), Refusal>
    ensures { result ≡ judge (lines counts.edition counts.n counts.m (entered_in counts.n counts.m words.now)) }
{
    check_counts(counts)?;
    check_fields(counts, words)?;
    check_lag(words)?;
    check_rows(words, counts.n)?;
    check_slots(words, counts.n)
}

// The same of a sheet's values, with the places of edition 3.
pub fn check(sheet: Sheet) -> Result<(), Refusal>
    ensures { result ≡ checked_of sheet }
{
    let counts = Counts {
        edition: Edition::Three,
        n: sheet.count,
        m: sheet.sources,
    };
    check_words(counts, &words_of(sheet))
}
