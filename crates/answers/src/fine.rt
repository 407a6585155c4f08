// A carried plan that is known to be fine, and what its messages cost beside payload and acknowledgement.
ghost use Rattle.costs.specs.Costs.{Overhead};
ghost use Rattle.carried.specs.Carried.{timing_in};
ghost use Rattle.answers.specs.private.Gather.{PlacesWithin};

use carried::CARRIED;
use costs::Overheads;

#[derive(Clone, Copy)]
pub(crate) struct FinePlan<'a> {
    pub(crate) words: &'a [u32; CARRIED],
    pub(crate) n: usize,
    pub(crate) m: usize,
    pub(crate) over: Overheads,
    ghost within: { PlacesWithin words.now n m },
    ghost overhead: { Overhead (timing_in words.now) over },
}
