// An event file's records, and the lines that answer them (document 01, "Event file and the program `events`").
#![tactic(auto)]

pub mod line;
pub mod reader;
mod writer;
