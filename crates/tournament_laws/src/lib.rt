// The tournament's facts, for every bit count at once: `specs/Facts.antt` states them, `proofs/` proves them.
//
// They are about the very definitions that the contracts of the crate tournament cite. There is no function
// here and nothing is assumed. This crate must not know how the functions do their work.
#![tactic(auto)]
