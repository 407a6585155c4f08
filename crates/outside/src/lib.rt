// The boundary to other languages: a handful of functions on numbers and slices, and what they hand back as numbers.
//
// Each answers for every input, as the function that it calls does; nothing is computed here, and nothing checked but that a
// tournament has a mark for each contender. A slice is a pointer and then a length. Nothing is assumed of the caller but that
// what it lends is its own to lend. What C links are the exports of the crate outside_c, one for each of these and under its name.
#![tactic(auto)]

ghost use Rattle.std.specs.Prelude.{◌≡◌};
ghost use Rattle.answer_files.specs.AnswerFiles.{answer_file_of};
ghost use Rattle.compare.specs.Changes.{place_of};
ghost use Rattle.compare_files.specs.Files.{compared_files};
ghost use Rattle.tournament.specs.Answers.{parting_of};
ghost use Rattle.rewriter.specs.Rewriter.{rewrite_of};
ghost use Rattle.outside.specs.Outside as number;
ghost use Rattle.outside.specs.Outside.{Screened};

use answer_files::answer_file;
use carried::{Counts, Edition, LAG, SLOT, timing_from, words_from};
use compare::{Compared, Constant, Reason};
use compare_files::lighter_files;
use names::{Label, Priority, Refusal};
use plan::Stream;
use rewriter::rewrite;
use screen::screen;
use states::{mark_out, marks_into, priorities_from, state_from};
use tournament::{parting_bit, start, step};
use tournament_state::Phase;
use writer::write_words;

// C has no results or options, so these three are numbers. 0 and what was asked for, or the number of a refusal and its place.
#[repr(C)]
#[derive(Clone, Copy)]
pub struct Said {
    pub refusal: u64,
    pub value: u64,
}

// 0 lighter, 1 first refused, 2 second refused (both with number and place), 3 run again (with the condition and what breaks it).
#[repr(C)]
#[derive(Clone, Copy)]
pub struct Weighed {
    pub answer: u64,
    pub number: u64,
    pub value: u64,
}

// A tournament after a call: the refusal and its place, or 0 and 0; then the phase of the state that is handed back, 0 at a bit (with its
// number), 1 finished (with the winner's row), 2 no winner (with 0).
#[repr(C)]
#[derive(Clone, Copy)]
pub struct Stepped {
    pub refusal: u64,
    pub place: u64,
    pub phase: u64,
    pub at: u64,
}

impl From<Result<u64, Refusal>> for Said {
    ghost from_gives = { λ answer said. said ≡ number.written answer };

    fn from(answer: Result<u64, Refusal>) -> Said {
        match answer {
            Ok(value) => Said { refusal: 0, value },
            Err(r) => Said {
                refusal: u64::from(r.number),
                value: r.place as u64,
            },
        }
    }
}

// The answer words of a file's plan.
pub fn livnakesh_answers(file: &[u8], out: &mut [u64]) -> Said
    ensures value { result ≡ number.checked (answer_file_of file.now out.old).0 }
    ensures out_after { out.new ≡ (answer_file_of file.now out.old).1 }
{
    Said::from(answer_file(file, out).map(|()| 0))
}

// The plan in a file, written again into lent bytes.
pub fn livnakesh_rewrite(file: &[u8], out: &mut [u8]) -> Said
    ensures value { result ≡ number.written (rewrite_of file.now out.old).0 }
    ensures out_after { out.new ≡ (rewrite_of file.now out.old).1 }
{
    Said::from(rewrite(file, out).map(|bytes| bytes as u64))
}

// The file of the plan that is meant by lent words, ten of the timing, seven for each of n streams and m noise gaps, written into lent bytes.
pub fn livnakesh_write(n: usize, m: usize, values: &[u32], out: &mut [u8]) -> Said
    ensures value { result ≡ number.written (number.write_from n m values.now out.old).0 }
    ensures out_after { out.new ≡ (number.write_from n m values.now out.old).1 }
{
    let counts = Counts {
        edition: Edition::Three,
        n,
        m,
    };
    let placed = words_from(values);
    Said::from(write_words(counts, &placed, out).map(|bytes| bytes as u64))
}

// The answer words of lent streams, each of them its seven words in file order, under a timing of ten words and these noise gaps.
pub fn livnakesh_screen(streams: &[Stream], timing: &[u32], gaps: &[u32], out: &mut [u64]) -> Said
    ensures { Screened streams.now timing.now gaps.now out.old result out.new }
{
    Said::from(screen(streams, timing_from(timing), gaps, out).map(|()| 0))
}

// The bit at which two priorities part.
pub fn livnakesh_parting(bits: u32, a: u32, b: u32) -> Said
    ensures { result ≡ number.parting (parting_of bits (record { 0 = a }) (record { 0 = b })) }
{
    Said::from(parting_bit(bits, Priority(a), Priority(b)).map(u64::from))
}

fn broken(condition: u64, value: u64) -> Weighed
    ensures { result ≡ number.broken condition value }
{
    Weighed {
        answer: 3,
        number: condition,
        value,
    }
}

fn by_label(condition: u64, label: Label) -> Weighed
    ensures { result ≡ number.broken condition label.0 }
{
    broken(condition, u64::from(label.0))
}

// The place in the file of a plan's constant: NB and P come after LAG, which a plan has not.
fn constant_at(constant: Constant) -> u64
    ensures { result ≡ number.constant_at (place_of constant) }
{
    match constant {
        Constant::F => 0,
        Constant::E => 1,
        Constant::Tfcs => 2,
        Constant::Swx => 3,
        Constant::H => 4,
        Constant::G => 5,
        Constant::Etg => 6,
        Constant::Nb => (LAG + 1) as u64,
        Constant::P => SLOT as u64,
    }
}

impl From<Reason> for Weighed {
    ghost from_gives = { λ reason weighed. weighed ≡ number.again reason };

    fn from(reason: Reason) -> Weighed {
        match reason {
            Reason::MasterNode => broken(9, 0),
            Reason::GreaterConstant(c) => broken(1, constant_at(c)),
            Reason::NewLabel(l) => by_label(2, l),
            Reason::ShorterPeriod(l) => by_label(3, l),
            Reason::LongerJitter(l) => by_label(4, l),
            Reason::LongerPayload(l) => by_label(5, l),
            Reason::ShorterDeadline(l) => by_label(6, l),
            Reason::LongerAcknowledgement(l) => by_label(10, l),
            Reason::LessUrgent(l) => by_label(7, l),
            Reason::MoreNoise(x) => broken(8, u64::from(x)),
        }
    }
}

fn not_weighed(which: u64, r: Refusal) -> Weighed
    ensures { result ≡ record { answer = which; number = r.number; value = r.place } }
{
    Weighed {
        answer: which,
        number: u64::from(r.number),
        value: r.place as u64,
    }
}

impl From<Compared> for Weighed {
    ghost from_gives = { λ compared weighed. weighed ≡ number.weighed compared };

    fn from(compared: Compared) -> Weighed {
        match compared {
            Compared::Lighter => Weighed {
                answer: 0,
                number: 0,
                value: 0,
            },
            Compared::FirstRefused(r) => not_weighed(1, r),
            Compared::SecondRefused(r) => not_weighed(2, r),
            Compared::RunAgain(reason) => Weighed::from(reason),
        }
    }
}

// Whether the plan in the second file is lighter.
pub fn livnakesh_lighter(old: &[u8], new: &[u8]) -> Weighed
    ensures { result ≡ number.weighed (compared_files old.now new.now) }
{
    Weighed::from(lighter_files(old, new))
}

fn at_phase(refusal: u64, place: u64, phase: Phase) -> Stepped
    ensures { result ≡ record { refusal = refusal; place = place; phase = number.phase_number phase; at = number.phase_at phase } }
{
    let (phase, at) = match phase {
        Phase::AtBit(k) => (0, u64::from(k)),
        Phase::Finished(row) => (1, row.0 as u64),
        Phase::NoWinner => (2, 0),
    };
    Stepped {
        refusal,
        place,
        phase,
        at,
    }
}

fn refused_at(r: Refusal, phase: Phase) -> Stepped
    ensures { result ≡ number.stepped (Err r) phase }
{
    at_phase(u64::from(r.number), r.place as u64, phase)
}

// The start of a tournament of as many contenders as there are priorities: what stood in the lent marks is not looked at. One that is
// not refused leaves every place in the lent bytes, in or out.
pub fn livnakesh_start(bits: u32, priorities: &[u32], marks: &mut [u8]) -> Stepped
    ensures value { result ≡ number.started bits priorities.now marks.old }
    ensures marks_after { marks.new ≡ number.start_marks bits priorities.now marks.old }
{
    let n = priorities.len();
    if marks.len() < n {
        return at_phase(6, 0, Phase::NoWinner);
    }
    match start(bits, n, priorities_from(priorities)) {
        Ok(begun) => {
            marks_into(begun.marks, marks);
            at_phase(0, 0, begun.phase)
        }
        Err(r) => refused_at(r, Phase::NoWinner),
    }
}

// One step of the tournament that is lent: its marks are copied out before they are written over. One that is not refused leaves the
// bytes as lent, but for the contenders that it marks out.
pub fn livnakesh_step(
    bits: u32,
    phase: u32,
    at: u32,
    priorities: &[u32],
    marks: &mut [u8],
) -> Stepped
    ensures value { result ≡ number.gone_on bits phase at priorities.now marks.old }
    ensures marks_after { marks.new ≡ number.step_marks bits phase at priorities.now marks.old }
{
    let t = state_from(bits, phase, at, priorities, &marks[..]);
    let lent = t.phase;
    if marks.len() < priorities.len() {
        return at_phase(6, 0, lent);
    }
    match step(t) {
        Ok(after) => {
            mark_out(after.count, after.marks, marks);
            at_phase(0, 0, after.phase)
        }
        Err(r) => refused_at(r, lent),
    }
}
