// What is told of all rows, in file order.
ghost use Rattle.std.specs.Prelude.{◌≡◌, true, ℕ, ◌+◌, ◌*◌, ◌/◌, ◌≤◌, ◌<◌, length, get_or};
ghost use Rattle.names.specs.Limits.{streams};
ghost use Rattle.bound.specs.Evaluations.{searched};
ghost use Rattle.plan.specs.Evaluations.{row_searched};
ghost use Rattle.carried.specs.Carried.{plan_in};
ghost use Rattle.terms.specs.Gathered.{lent, terms_of, fits, stairs};
ghost use Rattle.answers.specs.Answers.{per_row, laid_in};
ghost use Rattle.answers.specs.private.Gather.{row_stream, PlacesWithin, Long};
ghost use Rattle.answers.specs.private.FinePlan.{plan_held, seat, Seats, AllInOrder, GapsBefore};

use crate::fine::FinePlan;
use crate::order::{put_gaps, put_hits, put_in_order, put_places, put_priorities};
use crate::own::gathered;
use crate::read::{DEADLINE, FIRST, word_of};
use crate::tell::Tell;
use bound::Searched;
use carried::{CARRIED, STREAM, timing_in};
use costs::overheads_of;
use names::{FEW, Row, SOURCES, STREAMS};
use terms::{Gathered, LentTerms, STAIRS};

// Few streams have small rooms.
const FEW_STAIRS: usize = SOURCES + FEW;

// The answer of terms that are within the limits, as a plan's are.
fn row_answer<'a>(
    g: Gathered,
    costs: &'a [u64],
    periods: &'a [u64],
    jitters: &'a [u64],
    deadline: u64,
) -> Searched
    requires { fits (lent g costs.now periods.now jitters.now) ≡ true }
    ensures { result ≡ searched (terms_of (lent g costs.now periods.now jitters.now)) deadline }
{
    let terms = LentTerms {
        row: g,
        costs,
        periods,
        jitters,
    };
    analysis::answer(terms, deadline).unwrap()
}

// The answer of row k, from streams that stand in order; its hits are put before them.
fn searched_row<'a>(
    fine: FinePlan,
    row: Row,
    place: usize,
    costs: &mut [u64],
    periods: &'a [u64],
    jitters: &'a [u64],
) -> Searched
    requires row_lt_n { row.0 < fine.n }
    requires place_value { place ≡ seat fine row.0 }
    requires in_order { AllInOrder fine costs.old periods.now jitters.now }
    requires gaps_before { GapsBefore fine periods.now }
    ensures value { result ≡ row_searched (plan_held fine.entry) (row_stream fine.entry.words.now row.0) }
    ensures in_order_2 { AllInOrder fine.entry costs.new periods.now jitters.now }
{
    let g = gathered(fine, row, place, &costs[..]);
    put_hits(g.hit, fine.m, costs);
    let deadline = word_of(fine.words, row.0, DEADLINE);
    row_answer(g, &costs[..], periods, jitters, deadline)
}

// What is told of each row in file order, at the start of what is lent, from streams that stand in order.
fn put_told<'a, T: Tell>(
    fine: FinePlan,
    places: &[usize],
    costs: &mut [u64],
    periods: &'a [u64],
    jitters: &'a [u64],
    out: &mut [u64],
)
    requires seats { Seats fine places.now }
    requires in_order { AllInOrder fine costs.old periods.now jitters.now }
    requires gaps_before { GapsBefore fine periods.now }
    requires n_in_bounds { per_row T.told * fine.n ≤ length out.old }
    ensures { out.new ≡ laid_in T.told (plan_held fine.entry) fine.entry.n out.old }
{
    for (k, place) in places[..fine.n].iter().enumerate() {
        let s = searched_row(fine, Row(k), *place, costs, periods, jitters);
        T::put_row(Row(k), s, &costs[..], fine.m, fine.m + *place, out);
    }
}

// The same from the words: the streams are put in order once, in rooms that are large enough.
fn put_sorted<T: Tell>(
    fine: FinePlan,
    places: &[usize],
    costs: &mut [u64],
    periods: &mut [u64],
    jitters: &mut [u64],
    out: &mut [u64],
)
    requires seats { Seats fine places.now }
    requires long { Long fine.n fine.m costs.old periods.old jitters.old }
    requires n_in_bounds { per_row T.told * fine.n ≤ length out.old }
    ensures { out.new ≡ laid_in T.told (plan_held fine.entry) fine.entry.n out.old }
{
    put_in_order(fine, places, costs, periods, jitters);
    put_gaps(fine.words, FIRST + STREAM * fine.n, fine.m, periods);
    put_told::<T>(fine, places, costs, &periods[..], &jitters[..], out);
}

// The same in rooms for R streams, and for S streams and noise sources together.
fn put_in_rooms<T: Tell, const R: usize, const S: usize>(fine: FinePlan, out: &mut [u64])
    requires n_le_R { fine.n ≤ R }
    requires R_le_streams { R ≤ streams }
    requires all_le_S { fine.m + fine.n ≤ S }
    requires S_le_stairs { S ≤ stairs }
    requires n_in_bounds { per_row T.told * fine.n ≤ length out.old }
    ensures { out.new ≡ laid_in T.told (plan_held fine.entry) fine.entry.n out.old }
{
    let mut priorities = [0; R];
    put_priorities(fine.words, fine.n, &mut priorities);
    let mut places = [0; R];
    put_places(&priorities, fine.n, &mut places);
    let mut costs = [0; S];
    let mut periods = [0; S];
    let mut jitters = [0; R];
    put_sorted::<T>(fine, &places, &mut costs, &mut periods, &mut jitters, out);
}

// What is told of each row in file order, at the start of what is lent.
pub(crate) fn put_rows<T: Tell>(words: &[u32; CARRIED], n: usize, m: usize, out: &mut [u64])
    requires places_within { PlacesWithin words.now n m }
    requires n_in_bounds { per_row T.told * n ≤ length out.old }
    ensures { out.new ≡ laid_in T.told (plan_in n m words.now) n out.old }
{
    let over = overheads_of(timing_in(words));
    let fine = FinePlan { words, n, m, over };
    if n <= FEW {
        return put_in_rooms::<T, FEW, FEW_STAIRS>(fine, out);
    }
    put_in_rooms::<T, STREAMS, STAIRS>(fine, out)
}
