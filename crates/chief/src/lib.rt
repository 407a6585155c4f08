// What the rig chief is told of two plan files: that the second plan is lighter, why it is to be run again, or which is refused.
//
// The one public function answers for any bytes, and its contract fixes each byte of the lent buffer. Nothing is assumed. This
// crate puts into words what the crate compare_files says; it must not know the rule of the lighter plan, nor input and output.
#![tactic(auto)]

ghost use Rattle.std.specs.Prelude.{◌++◌};
ghost use Rattle.text.specs.Put.{Lays, Puts};
ghost use Rattle.text.specs.Listing.{label_text, refused_of};
ghost use Rattle.chief.specs.Told as told;

use compare::{Compared, Constant, Reason};
use compare_files::lighter_files;
use names::{Label, Refusal};
use text::{Laid, lay_label, lay_number, lay_refusal, lay_text, put};

fn lay_constant(out: &mut [u8], at: usize, constant: Constant) -> usize
    ensures { Lays out.old at (told.constant_name constant) result out.new }
{
    match constant {
        Constant::F => lay_text(out, at, b"F"),
        Constant::E => lay_text(out, at, b"E"),
        Constant::Tfcs => lay_text(out, at, b"TFCS"),
        Constant::Swx => lay_text(out, at, b"SWX"),
        Constant::H => lay_text(out, at, b"H"),
        Constant::G => lay_text(out, at, b"G"),
        Constant::Etg => lay_text(out, at, b"ETG"),
        Constant::Nb => lay_text(out, at, b"NB"),
        Constant::P => lay_text(out, at, b"P"),
    }
}

fn lay_greater(out: &mut [u8], at: usize, constant: Constant) -> usize
    ensures { Lays out.old at (told.greater_text constant) result out.new }
{
    let at = lay_constant(out, at, constant);
    lay_text(out, at, b" is greater")
}

fn lay_noise(out: &mut [u8], at: usize, gap: u32) -> usize
    ensures { Lays out.old at (told.noise_text gap) result out.new }
{
    let at = lay_text(out, at, b"more noise sources with a gap of ");
    let at = lay_number(out, at, gap as u64);
    lay_text(out, at, b" or less")
}

fn lay_stream(out: &mut [u8], at: usize, label: Label, words: &[u8]) -> usize
    ensures { Lays out.old at (label_text label ++ words.now) result out.new }
{
    let at = lay_label(out, at, label);
    lay_text(out, at, words)
}

fn lay_reason(out: &mut [u8], at: usize, why: Reason) -> usize
    ensures { Lays out.old at (told.reason_text why) result out.new }
{
    match why {
        Reason::MasterNode => lay_text(
            out,
            at,
            b"one plan has a master node and the other has none",
        ),
        Reason::GreaterConstant(constant) => lay_greater(out, at, constant),
        Reason::NewLabel(l) => lay_stream(out, at, l, b" is not in the first plan"),
        Reason::ShorterPeriod(l) => lay_stream(out, at, l, b" has a shorter period"),
        Reason::LongerJitter(l) => lay_stream(out, at, l, b" has a longer jitter"),
        Reason::LongerPayload(l) => lay_stream(out, at, l, b" has a longer payload"),
        Reason::ShorterDeadline(l) => lay_stream(out, at, l, b" has a shorter deadline"),
        Reason::LongerAcknowledgement(l) => lay_stream(
            out,
            at,
            l,
            b" has a longer acknowledgement",
        ),
        Reason::LessUrgent(l) => lay_stream(
            out,
            at,
            l,
            b" comes after a stream that it came before",
        ),
        Reason::MoreNoise(gap) => lay_noise(out, at, gap),
    }
}

fn lay_again(out: &mut [u8], at: usize, why: Reason) -> usize
    ensures { Lays out.old at (told.again_line why) result out.new }
{
    let at = lay_text(out, at, b"run again: ");
    let at = lay_reason(out, at, why);
    lay_text(out, at, b"\n")
}

fn lay_refused(out: &mut [u8], at: usize, which: &[u8], r: Refusal) -> usize
    ensures { Lays out.old at (which.now ++ refused_of r) result out.new }
{
    let at = lay_text(out, at, which);
    lay_refusal(out, at, r)
}

// What is told of two plans, as a line.
#[derive(Clone, Copy)]
struct Line(Compared);

impl Laid for Line {
    ghost bytes = { λ line. told.told_as line.0 };

    fn lay(&self, out: &mut [u8], at: usize) -> usize {
        match self.0 {
            Compared::FirstRefused(r) => lay_refused(out, at, b"first ", r),
            Compared::SecondRefused(r) => lay_refused(out, at, b"second ", r),
            Compared::Lighter => lay_text(out, at, b"lighter\n"),
            Compared::RunAgain(why) => lay_again(out, at, why),
        }
    }
}

// What is told of the old file's plan and the new one's, at the start of the buffer; the rest of it stays.
pub fn told(old: &[u8], new: &[u8], out: &mut [u8]) -> Option<usize>
    ensures { Puts out.old 0 (told.told_of old.now new.now) result out.new }
{
    put(out, &Line(lighter_files(old, new)))
}
