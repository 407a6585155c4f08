// The crew's words, the limits of document 01, each once, and how many streams are few.
//
// A priority decides a tournament, a row is a place in the plan (from 0), a label is what is painted on
// the node. Each is a struct of one number, so the build refuses one where another is wanted.
// There is no function here but what prints a refusal, nothing is assumed, and this crate knows of no other.
#![tactic(auto)]

ghost use Rattle.std.specs.Prelude.{Some, ◌++◌, codes, decimal};

use std::fmt;

// A smaller priority is the more urgent one: bit 0 is dominant.
#[repr(C)]
#[derive(Clone, Copy)]
pub struct Priority(pub u32);

// A place in a plan or a tournament, counted from 0.
#[derive(Clone, Copy)]
pub struct Row(pub usize);

// group * 65,536 + number, painted on the node as group.number.
#[repr(C)]
#[derive(Clone, Copy)]
pub struct Label(pub u32);

// Why the answer is no: the number of document 01's table, and the place that its last column names. The number is no enum of the table's
// lines, since whoever makes or shows a refusal answers for every number.
#[derive(Clone, Copy)]
pub struct Refusal {
    pub number: u32,
    pub place: usize,
}

// The words of a refusal, with no end of the line. Whether they are written is the writer's to say.
impl fmt::Display for Refusal {
    ghost output = { λ r. Some (codes "refused " ++ decimal r.number ++ codes " at " ++ decimal r.place) };

    fn fmt<W: fmt::Write>(&self, f: &mut fmt::Formatter<W>) -> fmt::Result {
        write!(f, "refused {} at {}", self.number, self.place)
    }
}

// The most streams, the most in a file of edition 1 or 2, the most noise sources and contenders.
pub const STREAMS: usize = 256;

pub const OLDER_STREAMS: usize = 64;

pub const SOURCES: usize = 8;

// So many streams are few. A room is cleared whole, and one for the most streams takes longer to clear than a few take to be answered.
pub const FEW: usize = 16;

pub const CONTENDERS: usize = 128;

// The largest timing constant, payload, acknowledgement and number of priority bits.
pub const CONSTANT: u32 = 65535;

pub const PAYLOAD: u32 = 65535;

pub const ACKNOWLEDGEMENT: u32 = 65535;

pub const BITS: u32 = 32;

// The longest slot of a master node, in ticks.
pub const SLOT: u32 = 5000000;

// The largest busy period, in ticks, that is looked for.
pub const TICKS: u64 = 4294967295;
