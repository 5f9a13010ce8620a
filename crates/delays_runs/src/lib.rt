// No code: runs with numbers of what `delays` says (specs/), and that they compute (proofs/).
#![tactic(auto)]
