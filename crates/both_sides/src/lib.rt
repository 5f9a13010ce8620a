// What is shown of the sending side and the receiver together. There is no code of its own here.
#![tactic(auto)]
