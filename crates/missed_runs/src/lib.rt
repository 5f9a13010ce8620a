// No code: this crate has runs with numbers of what `demands` says of order 8 (specs/), and that they compute so (proofs/). They
// stand apart for the reason that `lost_runs` gives.
#![tactic(auto)]
