// The decision on one record, exported for the benchmark alone: what `stream::weigh` and `stream::next` give, by value.
// A row of decisions has a crate of its own: with two callers in one archive `weigh` would no longer be inlined.
#![tactic(auto)]

ghost use Rattle.std.specs.Prelude.{◌≡◌};
ghost use Rattle.timing.specs.Decided.{tell, decided_of};

use record::Stream;
use stream::Weighed;

// The record after an arrival, and what the arrival was to it.
#[repr(C)]
#[derive(Clone, Copy, Debug, PartialEq, Eq)]
pub struct Decided {
    pub stream: Stream,
    // 0 damaged, 1 handed up, 2 duplicate, 3 rogue: a number, since it goes to C.
    pub verdict: u8,
}

// (No `From`: neither type is this crate's.)
fn tell(w: Option<Weighed>) -> u8
    ensures { result ≡ tell w }
{
    match w {
        None => 0,
        Some(Weighed::HandedUp(_)) => 1,
        Some(Weighed::Duplicate) => 2,
        Some(Weighed::Rogue) => 3,
    }
}

// One arrival.
pub fn timing_decide(s: Stream, number: u16, network: u8) -> Decided
    ensures { result ≡ decided_of s number network }
{
    let w = stream::weigh(s, number);
    // Before the record: after it this took 338 instructions in place of 326.
    let verdict = tell(w);
    Decided {
        stream: stream::next(s, network, w),
        verdict,
    }
}
