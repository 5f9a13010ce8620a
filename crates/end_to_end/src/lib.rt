// No code: from the frames given to our sender to the frames that the application gets (specs/), and why (proofs/).
#![tactic(auto)]
