// No condition of the lighter plan is idle: for each there are two plans that break it alone, and a stream loses its promise.
//
// There is no function here and nothing is assumed. The plans are small enough to be checked by hand, and antt computes
// every figure of them. This crate knows of plans, of the test of compare and of the base constants of figures; it must not know of
// lent memory.
#![tactic(auto)]
