// A LAG that is added to ETG moves no bound: the rule that had LAG in U, on the words as they are entered, and today's rule, on the plan that
// is meant by them, give the same answers and the same refusals, but for 11.
//
// There is no function here and nothing is assumed. The older rule is written out in the documents' letters, so that it can be held against
// today's line by line. This crate must not know of lent memory.
#![tactic(auto)]
