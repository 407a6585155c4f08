// What a stream's words say of it, and what its message costs.
ghost use Rattle.std.specs.Prelude.{◌≡◌, ◌+◌, ◌^◌, ◌<◌, get_or};
ghost use Rattle.names.specs.Limits as limit;
ghost use Rattle.plan.specs.Rules.{C'', airtime};
ghost use Rattle.carried.specs.Layout as layout;
ghost use Rattle.carried.specs.Carried.{timing_in};
ghost use Rattle.answers.specs.private.Gather.{row_stream};

use crate::fine::FinePlan;
use carried::{CARRIED, STREAM, TIMING};

// The words of the first stream, and where in a stream's words its values stand.
pub(crate) const FIRST: usize = TIMING;

pub(crate) const PRIORITY: usize = 1;

pub(crate) const PERIOD: usize = 2;

pub(crate) const JITTER: usize = 3;

const PAYLOAD: usize = 4;

pub(crate) const DEADLINE: usize = 5;

const ACKNOWLEDGEMENT: usize = 6;

// Word w of the stream of row k. That a row has a place is asked of a number here and below: a type for it would be taken apart at once.
pub(crate) fn word_of(words: &[u32; CARRIED], k: usize, w: usize) -> u64
    requires k_lt_streams { k < limit.streams }
    requires w_lt_stream_length { w < layout.stream_length }
    ensures value { result ≡ get_or words.now (layout.stream_at k + w) 0 }
    ensures upper_bound { result < 2 ^ 32 }
{
    u64::from(words[FIRST + STREAM * k + w])
}

// C'' of the stream of row k.
pub(crate) fn whole_of(fine: FinePlan, k: usize) -> u64
    requires { k < limit.streams }
    ensures { result ≡ C'' (timing_in fine.entry.words.now) (row_stream fine.entry.words.now k) }
{
    let payload = word_of(fine.words, k, PAYLOAD);
    let acknowledgement = word_of(fine.words, k, ACKNOWLEDGEMENT);
    fine.over.lead + fine.over.u + payload + acknowledgement
}

// What a message of row k takes of the channel: C'', and in slots a whole slot.
pub(crate) fn cost_of(fine: FinePlan, k: usize) -> u64
    requires { k < limit.streams }
    ensures { result ≡ airtime (timing_in fine.entry.words.now) (row_stream fine.entry.words.now k) }
{
    if fine.over.slot == 0 {
        return whole_of(fine, k);
    }
    fine.over.slot
}
