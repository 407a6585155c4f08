// How a row's answer is laid into words, and how it is read from them; and its wait.
//
// Every public function answers for every input, and its contract determines the answer and the lent words. Nothing is assumed.
// This crate knows of answers alone; it must not know of plans, or of how an answer comes about.
#![tactic(auto)]

ghost use Rattle.std.specs.Prelude.{◌≡◌, ◌≤◌};
ghost use Rattle.bound.specs.Bound.{verdict_number};
ghost use Rattle.row_words.specs.RowWords as laid;

use bound::{Answer, Searched, Verdict, Wait};
use names::Row;

// The words of a row: its verdict, its bound, its worst instance and the number of its evaluations.
pub const WORDS_PER_ROW: usize = 4;

// The words of a row's wait: the number of its evaluations, and their limit.
pub const WORDS_PER_WAIT: usize = 2;

// What number a verdict has is known here alone: a From would have to stand beside Verdict, in a crate that knows of no words.
fn number(v: Verdict) -> u64
    ensures { result ≡ verdict_number v }
{
    match v {
        Verdict::Met => 0,
        Verdict::Missed => 1,
        Verdict::None => 2,
    }
}

fn verdict(number: u64) -> Verdict
    ensures { result ≡ laid.verdict_of_number number }
{
    match number {
        0 => Verdict::Met,
        1 => Verdict::Missed,
        _ => Verdict::None,
    }
}

// The W words of a row at their place, all of them, or nothing where there is no room; and whether there is. They are put word by word, so that
// an edit can put one of them elsewhere. It stays a function of its own: measured, a long chain of a stream alone runs slower where it stands
// beside these stores.
#[inline(never)]
fn put<const W: usize>(words: &mut [u64], row: Row, own: &[u64; W]) -> bool
    requires some_words { 1 ≤ W }
    requires few_words { W ≤ laid.words_per_row }
    ensures value { result ≡ laid.has_row W words.old row.0 }
    ensures words_after { words.new ≡ laid.with_row W words.old row.0 own.now }
{
    if words.len() / W <= row.0 {
        return false;
    }
    let at = W * row.0;
    for (k, word) in own.iter().enumerate() {
        words[at + k] = *word;
    }
    true
}

// A row's answer in its words, all of it, or nothing where there is no room; and whether there is.
pub fn put_answer(words: &mut [u64], row: Row, searched: Searched) -> bool
    ensures value { result ≡ laid.has_row laid.words_per_row words.old row.0 }
    ensures words_after { words.new ≡ laid.with_row laid.words_per_row words.old row.0 (laid.row_words searched) }
{
    let answer = searched.answer;
    let own = [
        number(answer.verdict),
        answer.bound,
        answer.instance,
        searched.evaluations,
    ];
    put::<WORDS_PER_ROW>(words, row, &own)
}

// A row's wait in its words, as an answer.
pub fn put_wait(words: &mut [u64], row: Row, wait: Wait) -> bool
    ensures value { result ≡ laid.has_row laid.words_per_wait words.old row.0 }
    ensures words_after { words.new ≡ laid.with_row laid.words_per_wait words.old row.0 (laid.wait_words wait) }
{
    put::<WORDS_PER_WAIT>(words, row, &[wait.evaluations, wait.limit])
}

// A row's answer from its words; none where they are not all there.
pub fn answer_in(words: &[u64], row: Row) -> Answer
    ensures { result ≡ laid.answer_at words.now row.0 }
{
    let (rows, _) = words.as_chunks::<WORDS_PER_ROW>();
    match rows.get(row.0) {
        Some(own) => Answer {
            verdict: verdict(own[0]),
            bound: own[1],
            instance: own[2],
        },
        None => Answer {
            verdict: Verdict::None,
            bound: 0,
            instance: 0,
        },
    }
}

// A row's wait from its words; 0 and 0 where they are not all there, which is what their line shows: an Option would be told the same there.
// It is not one function with the above: they share where the words stand, which is std's, and nothing that is made of them.
pub fn wait_in(words: &[u64], row: Row) -> Wait
    ensures { result ≡ laid.wait_at words.now row.0 }
{
    let (rows, _) = words.as_chunks::<WORDS_PER_WAIT>();
    match rows.get(row.0) {
        Some(own) => Wait {
            evaluations: own[0],
            limit: own[1],
        },
        None => Wait {
            evaluations: 0,
            limit: 0,
        },
    }
}
