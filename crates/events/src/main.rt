// Runs the event file on standard input and writes its lines to standard output (document 01, "Event file and the program
// `events`").
#![tactic(auto)]

use std::os::fd::AsRawFd;

fn main(rt: HostRuntime) {
    let mut input = rt.stdin();
    let output = rt.stdout();
    event_turns::run(&mut input, output.as_raw_fd());
}
