// A number as decimal text: its digits in specs/, most significant first, and what is true of them in proofs/.
//
// A number has one text and a text is one number's: reading the digits back gives the number, and writing what was read gives
// the text. There is no function here and nothing is assumed. This crate knows of no other.
#![tactic(auto)]
