// No code: this crate has runs with numbers of what `demands` says of the counter lost (specs/), and that they compute so
// (proofs/). They stand apart because computing them takes as long as proving all of `demands`, which each of its wrong
// answers does again.
#![tactic(auto)]
