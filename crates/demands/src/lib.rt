// No code: this crate has the customer's three demands as statements (specs/) and their proofs (proofs/).
#![tactic(auto)]
