// A lighter row keeps its promise, over terms: terms that cover other terms have no smaller a busy period and bound.
//
// There is no function here and nothing is assumed. This crate knows of terms alone, so that it serves however a
// plan's costs come about; it must not know of plans, labels or files.
#![tactic(auto)]
