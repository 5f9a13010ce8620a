// No code: the list of all that ships, every call by its name with the contract that it must have (specs/), and why it has it (proofs/).
#![tactic(auto)]
