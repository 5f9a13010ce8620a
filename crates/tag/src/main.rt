// Puts a redundancy tag with the number 7 into the frame on standard input and writes the tagged frame to standard output:
// the smallest use of the proved tag writer. A frame that it refuses gives no output.
#![tactic(auto)]

use record::Stream;
use std::io::Read;
use std::os::fd::AsRawFd;

fn main(rt: HostRuntime) {
    let mut input = [0; Stream::FRAME_MOST];
    let Ok(n) = rt.stdin().read(&mut input) else {
        return;
    };
    let mut out = [0; Stream::FRAME_MOST];
    let Ok(length) = frame::write_tag(&input[..n], 7, &mut out) else {
        return;
    };
    // A write that fails is told to nobody: the status is always 0. (By the kit's `io`, as `events` writes: one that a signal interrupts
    // before a byte has moved counts as failed, and std's `write_all` would try it again.)
    io::write_all(rt.stdout().as_raw_fd(), &out[..length]);
}
