// No code: this crate holds what the crates below it define and prove. Definitions stand at cases that no law tells apart, and the
// statements of receivers, machines and sending sides are written out from their lists of theorems, so that one of these that is
// changed alone is refused here (specs/, proofs/).
#![tactic(auto)]
