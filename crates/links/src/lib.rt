// No code: what holds of virtual links and what does not (specs/), and why (proofs/).
#![tactic(auto)]
