// The rule between the gate and the desk, as a theorem: a lighter plan keeps its promise.
//
// There is no function here and nothing is assumed. This crate knows of plans and of what terms that cover others
// promise; it must not know of files, lent memory or text.
#![tactic(auto)]
