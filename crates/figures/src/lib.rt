// The plans of document 01, "Plans to run", with its figures: P1 to P12, and three of our own, as one table with one claim, proved
// about the definitions.
//
// There is no function here and nothing is assumed: antt computes every figure, and for the rows that have no bound a load that is
// full shows it, for any terms. This crate knows of plans, files, the listing and the tournament; it must not know of
// lent memory.
#![tactic(auto)]
