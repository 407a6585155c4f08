// Whether a second plan is lighter than a first, so that it keeps the first one's promise, or why it is to be run again.
//
// `lighter` answers for every two sheets, and its contract says when it answers what, both ways, and what follows for the bounds.
// Nothing is assumed. This crate knows of plans' values; it must not know of bytes or of text, and it runs no analysis.
#![tactic(auto)]

ghost use Rattle.std.specs.Prelude.{◌≡◌, ◌≤◌, ◌<◌, ◌==◌, leb, ltb, length, map, find, slice_index};
ghost use Rattle.names.specs.Limits as limit;
ghost use Rattle.plan.specs.Plan.{plan_of};
ghost use Rattle.compare.specs.Changes as rule;
ghost use Rattle.compare.specs.Changes.{compared_with};
ghost use Rattle.compare.specs.Claims.{SaysLighter};
ghost use Rattle.compare.specs.private.Moves.{label_of, column_placed, overtaken_by, order_by, streams_by, noise_by};

use checks::check;
use names::{Label, Refusal, STREAMS};
use plan::{Sheet, Stream, Timing};

// A timing constant of a plan, under the documents' letters.
#[derive(Clone, Copy)]
pub enum Constant {
    F,
    E,
    Tfcs,
    Swx,
    H,
    G,
    Etg,
    Nb,
    P,
}

// Why a plan is to be run again: the condition that is broken first, and the constant, label or gap that breaks it.
#[derive(Clone, Copy)]
pub enum Reason {
    // One plan has a master node and the other has none.
    MasterNode,
    GreaterConstant(Constant),
    NewLabel(Label),
    ShorterPeriod(Label),
    LongerJitter(Label),
    LongerPayload(Label),
    ShorterDeadline(Label),
    LongerAcknowledgement(Label),
    LessUrgent(Label),
    MoreNoise(u32),
}

#[derive(Clone, Copy)]
pub enum Compared {
    FirstRefused(Refusal),
    SecondRefused(Refusal),
    Lighter,
    RunAgain(Reason),
}

// A reason, where what must hold does not.
fn must(holds: bool, why: Reason) -> Result<(), Reason>
    ensures { result ≡ rule.must holds why }
{
    if holds { Ok(()) } else { Err(why) }
}

// A plan with slots is not held to one without, whatever their constants.
fn kit(old: Timing, new: Timing) -> Result<(), Reason>
    ensures { result ≡ rule.of_kit old new }
{
    must((1 <= old.p) == (1 <= new.p), Reason::MasterNode)
}

fn no_greater(constant: Constant, had: u32, has: u32) -> Result<(), Reason>
    ensures { result ≡ rule.must (leb has had) (Reason.GreaterConstant constant) }
{
    must(has <= had, Reason::GreaterConstant(constant))
}

// Each constant is held to its own: a greater TFCS is a change even below SWX.
#[tactic(auto, unfolding(crate::specs::Changes::first_change))]
fn constants(old: Timing, new: Timing) -> Result<(), Reason>
    ensures { result ≡ rule.of_constants old new }
{
    no_greater(Constant::F, old.f, new.f)?;
    no_greater(Constant::E, old.e, new.e)?;
    no_greater(Constant::Tfcs, old.tfcs, new.tfcs)?;
    no_greater(Constant::Swx, old.swx, new.swx)?;
    no_greater(Constant::H, old.h, new.h)?;
    no_greater(Constant::G, old.g, new.g)?;
    no_greater(Constant::Etg, old.etg, new.etg)?;
    no_greater(Constant::Nb, old.nb, new.nb)?;
    no_greater(Constant::P, old.p, new.p)
}

// The streams of a plan, and its noise gaps: as many as are counted and have a place.
fn streams_of(plan: &Sheet) -> &[Stream]
    ensures value { result.now ≡ (plan_of plan.now).streams }
    ensures few { length result.now ≤ limit.streams }
{
    let places: &[Stream] = &plan.streams;
    &places[..plan.count.min(places.len())]
}

fn gaps_of(plan: &Sheet) -> &[u32]
    ensures { result.now ≡ (plan_of plan.now).gaps }
{
    &plan.gaps[..plan.sources.min(plan.gaps.len())]
}

// The labels of streams, as plain numbers. Where each row is held to each, a row is a number in a column, and the loop is written out: measured,
// comparing two plans of 256 streams takes a third longer or more over a list of structs, and seven times as long with `find` and `filter`.
fn labels_of(streams: &[Stream]) -> [u32; STREAMS]
    requires { length streams.now ≤ limit.streams }
    ensures { result ≡ column_placed label_of streams.now }
{
    let mut labels = [0; STREAMS];
    for (k, s) in streams.iter().enumerate() {
        labels[k] = s.label.0;
    }
    labels
}

// The stream that is under a label.
fn namesake(streams: &[Stream], labels: &[u32], label: Label) -> Option<Stream>
    requires { labels.now ≡ map label_of streams.now }
    ensures { result ≡ find (λ s. s.label.0 == label.0) streams.now }
{
    for (r, held) in labels.iter().enumerate() {
        if *held == label.0 {
            return Some(streams[r]);
        }
    }
    None
}

// A stream of the second plan beside the one that it stands in.
#[tactic(auto, unfolding(crate::specs::Changes::eased))]
fn eased(old: Stream, new: Stream) -> Result<(), Reason>
    ensures { result ≡ rule.eased old new }
{
    let label = new.label;
    must(old.period <= new.period, Reason::ShorterPeriod(label))?;
    must(new.jitter <= old.jitter, Reason::LongerJitter(label))?;
    must(new.payload <= old.payload, Reason::LongerPayload(label))?;
    must(old.deadline <= new.deadline, Reason::ShorterDeadline(label))?;
    must(
        new.acknowledgement <= old.acknowledgement,
        Reason::LongerAcknowledgement(label),
    )
}

// Whether some row overtakes row k. There is no way out of the loop, so that several rows are compared at once.
fn overtaken(was: &[u32], is: &[u32], k: usize) -> bool
    requires same { length was.now ≡ length is.now }
    requires row { k < length is.now }
    ensures { result ≡ overtaken_by was.now is.now k }
{
    let had = was[k];
    let has = is[k];
    let mut overtaking = false;
    for (j, other) in is.iter().enumerate() {
        overtaking |= (*other < has) & (had <= was[j]);
    }
    overtaking
}

// The first row that is overtaken, by the numbers of the priorities that the rows had and have.
fn order(new: &[Stream], was: &[u32], is: &[u32]) -> Result<(), Reason>
    requires was_len { length was.now ≡ length new.now }
    requires is_len { length is.now ≡ length new.now }
    ensures { result ≡ order_by new.now was.now is.now }
{
    for (k, s) in new.iter().enumerate() {
        if overtaken(was, is, k) {
            return Err(Reason::LessUrgent(s.label));
        }
    }
    Ok(())
}

// The streams of the second plan beside those that they stand in, and then their order of priority. The columns are made and looked through in
// one function, so that they are not copied.
fn streams(old: &[Stream], new: &[Stream]) -> Result<(), Reason>
    requires few_old { length old.now ≤ limit.streams }
    requires few_new { length new.now ≤ limit.streams }
    ensures { result ≡ streams_by old.now new.now }
{
    let labels = labels_of(old);
    let labels = &labels[..old.len()];
    let mut was = [0; STREAMS];
    let mut is = [0; STREAMS];
    for (k, s) in new.iter().enumerate() {
        let held = namesake(old, labels, s.label).ok_or(Reason::NewLabel(s.label))?;
        eased(held, *s)?;
        was[k] = held.priority.0;
        is[k] = s.priority.0;
    }
    order(new, &was[..new.len()], &is[..new.len()])
}

// How many of the gaps are at most x.
#[tactic(auto, using(crate::proofs::Gaps::at_most_counts))]
fn at_most(gaps: &[u32], x: u32) -> usize
    ensures { result ≡ rule.at_most x gaps.now }
{
    gaps.iter().filter(|gap| **gap <= x).count()
}

// Whether more gaps of the second plan than of the first are at most gap k of the second.
fn outnumbered(old: &[u32], new: &[u32], k: usize) -> bool
    requires { k < length new.now }
    ensures { let x = slice_index new.now k in result ≡ ltb (rule.at_most x old.now) (rule.at_most x new.now) }
{
    let gap = new[k];
    let wanted = at_most(new, gap);
    at_most(old, gap) < wanted
}

fn noise(old: &[u32], new: &[u32]) -> Result<(), Reason>
    ensures { result ≡ noise_by old.now new.now }
{
    for (k, gap) in new.iter().enumerate() {
        if outnumbered(old, new, k) {
            return Err(Reason::MoreNoise(*gap));
        }
    }
    Ok(())
}

// The first condition of the lighter plan that does not hold between two plans, refused or not.
pub fn changes(old: Sheet, new: Sheet) -> Result<(), Reason>
    ensures { result ≡ rule.changes (plan_of old) (plan_of new) }
{
    kit(old.timing, new.timing)?;
    constants(old.timing, new.timing)?;
    streams(streams_of(&old), streams_of(&new))?;
    noise(gaps_of(&old), gaps_of(&new))
}

// The answer to two plans, or their refusals: the first is reported first.
pub fn outcome(first: Result<Sheet, Refusal>, second: Result<Sheet, Refusal>) -> Compared
    ensures { result ≡ compared_with first second }
{
    match first {
        Err(r) => Compared::FirstRefused(r),
        Ok(old) => match second {
            Err(r) => Compared::SecondRefused(r),
            Ok(new) => match changes(old, new) {
                Err(why) => Compared::RunAgain(why),
                Ok(()) => Compared::Lighter,
            },
        },
    }
}

// Whether the second plan is lighter than the first, or why not.
pub fn lighter(old: Sheet, new: Sheet) -> Compared
    ensures { SaysLighter old new result }
{
    outcome(check(old).and(Ok(old)), check(new).and(Ok(new)))
}
