// A text's bytes: what lets a definition say the words of a line as they are read.
//
// There is no function here: specs/ has the definition. Nothing is assumed. This crate knows no word of the product.
#![tactic(auto)]
