// The table of refusals: what a check answers, and that the first line that is given decides.
//
// The one function answers for every input. Nothing is assumed. This crate knows of no plan, file or tournament: whoever
// refuses anything has its own lines, and has them judged by the definition that stands here.
#![tactic(auto)]

ghost use Rattle.std.specs.Prelude.{◌≡◌};

use names::Refusal;

// The refusal of that number, at that place.
pub fn refused(number: u32, place: usize) -> Result<(), Refusal>
    ensures { result ≡ Err (record { number = number; place = place }) }
{
    Err(Refusal { number, place })
}
