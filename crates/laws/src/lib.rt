// Definitions and laws over plain numbers and lists, with no word of the product: sums, largest values,
// rounding up, the first number that passes a test, chains that climb to a least fixed point, signed
// differences, and what it is for a contract to determine its outcome.
//
// The one function answers for every input. Nothing is assumed. This crate knows of no other.
#![tactic(auto)]

ghost use Rattle.std.specs.Prelude.{◌≡◌, min};

// The smaller of two counts: how many of the places of an array are used, whatever is said.
pub fn smaller(a: usize, b: usize) -> usize
    ensures { result ≡ min a b }
{
    a.min(b)
}
