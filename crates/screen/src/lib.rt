// The planner's screen: the answers of a plan whose streams are lent as a list of records.
//
// `screen` answers for every list, however long, just as `answers::answer_words` does for the words of these values: the
// first 256 streams and 8 gaps are copied out, and the list's own lengths are its counts, so an empty or over-long list is
// refused 2. The timing is lent as it is entered, with a LAG or with none. Nothing is assumed. Its code must not know of
// files or text, and it makes no check and no bound of its own; specs/Screen.antt holds it against the file.
#![tactic(auto)]

ghost use Rattle.std.specs.Prelude.{◌≡◌, ◌++◌, length, take, drop};
ghost use Rattle.screen.specs.Screen.{Screens};

use answers::{Answer, answer_words};
use carried::{Counts, Edition, EnteredTiming, no_streams, words_entered};
use laws::smaller;
use names::{Refusal, SOURCES};
use plan::Stream;

// The first of the values, as many as have room, over the places from the front; the places after them stay.
fn over<T: Copy, const N: usize>(mut places: [T; N], values: &[T]) -> [T; N]
    ensures { result ≡ take N values.now ++ drop (length values.now) places }
{
    let n = smaller(values.len(), N);
    places[..n].copy_from_slice(&values[..n]);
    places
}

// The answers of the lent streams under this timing and these noise gaps, or the first refusal of 2, 3, 11, 4, 5, 10, 6 that applies.
// However long the lists are, no more is copied than has a place; their own lengths go along, so that they are refused later.
pub fn screen(
    streams: &[Stream],
    timing: EnteredTiming,
    gaps: &[u32],
    out: &mut [u64],
) -> Result<(), Refusal>
    ensures { Screens streams.now timing gaps.now out.old result out.new }
{
    let rows = over(no_streams(), streams);
    let copies = over([0; SOURCES], gaps);
    let words = words_entered(timing, rows, streams.len(), copies, gaps.len());
    let counts = Counts {
        edition: Edition::Three,
        n: streams.len(),
        m: gaps.len(),
    };
    answer_words::<Answer>(counts, &words, out)
}
