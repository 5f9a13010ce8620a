// The record after a verdict: the effects of the decision (document 01, "Decisions").
ghost use Rattle.std.specs.Prelude.{◌≡◌, ◌&&◌, ◌==◌, nat_le, nat_lt, Some};
ghost use Rattle.record.specs.Sizes.{vector_rule};
ghost use Rattle.stream.specs.Decisions.{counted};
ghost use Rattle.stream.specs.Steps.{arrived, history_after, short_after, record_up, record_after, record_short};

use super::history::{self, Shift};
use super::{Marks, Weighed};
use record::{Counts, State, Stream};

// A counter, risen by 1 where the test holds.
pub fn counted(test: bool, count: u64) -> u64
    ensures { result ≡ counted test count }
{
    if test { count.wrapping_add(1) } else { count }
}

// The marks fit a vector record whose window has at most so many places.
fn fits(m: Marks, rule: u8, window: u16, most: u16) -> bool
    ensures { result ≡ (rule == vector_rule && nat_lt m.places window && nat_le window most && nat_lt m.bit most) }
{
    if rule != Stream::VECTOR_RULE || window <= m.places || most < window {
        return false;
    }
    m.bit < most
}

// The counters after an arrival on the network: its arrival counter has risen.
fn arrived(c: Counts, network: u8) -> Counts
    ensures { result ≡ arrived c network }
{
    Counts {
        arrivals0: counted(network == 0, c.arrivals0),
        arrivals1: counted(network != 0, c.arrivals1),
        ..c
    }
}

// The history after marks. That of a match record stays, and so does one that the marks do not fit.
fn history_after(h: [u64; 8], rule: u8, window: u16, m: Marks) -> [u64; 8]
    ensures { result ≡ history_after rule window m h }
{
    if fits(m, rule, window, Stream::WINDOW_MOST) {
        let shift = Shift {
            window,
            up: m.places,
        };
        history::marked(h, shift, m.bit)
    } else {
        h
    }
}

// The same for a window of at most a word: the first word alone is read and written. Two functions and not one with a parameter: what
// they have in common is `fits`, and they differ in the function that they call.
fn short_after(h: [u64; 8], rule: u8, window: u16, m: Marks) -> [u64; 8]
    ensures { result ≡ short_after rule window m h }
{
    if fits(m, rule, window, 64) {
        let shift = Shift {
            window,
            up: m.places,
        };
        history::marked_first(h, shift, m.bit)
    } else {
        h
    }
}

// Handed up, with the history after it. (Record, network and marks one by one, as the pages name them of `handed_up`; rule and window
// go on to the history as fields, so that no record is copied around a call.)
fn up_with(s: Stream, network: u8, m: Marks, history: [u64; 8]) -> Stream
    ensures { result ≡ record_up s network m history }
{
    let c = s.counts;
    Stream {
        state: State {
            history,
            anchor: m.anchor,
            remaining: s.time,
            early: m.early,
            any: 0,
        },
        counts: Counts {
            passed: c.passed.wrapping_add(1),
            disorder: counted(m.disorder, c.disorder),
            lost: c.lost.wrapping_add(m.lost),
            ..arrived(c, network)
        },
        ..s
    }
}

pub fn handed_up(s: Stream, network: u8, m: Marks) -> Stream
    ensures { result ≡ record_after s network (Some (Weighed.HandedUp m)) }
{
    let history = history_after(s.state.history, s.rule, s.window, m);
    up_with(s, network, m, history)
}

// The same where the window is at most a word: of the history the first word alone is new, so that a caller who stores the
// record stores no more of it.
pub fn handed_up_short(s: Stream, network: u8, m: Marks) -> Stream
    ensures { result ≡ record_short s network m }
{
    let history = short_after(s.state.history, s.rule, s.window, m);
    up_with(s, network, m, history)
}

pub fn duplicate(s: Stream, network: u8) -> Stream
    ensures { result ≡ record_after s network (Some Weighed.Duplicate) }
{
    let counts = Counts {
        discarded: s.counts.discarded.wrapping_add(1),
        ..arrived(s.counts, network)
    };
    Stream { counts, ..s }
}

pub fn rogue(s: Stream, network: u8) -> Stream
    ensures { result ≡ record_after s network (Some Weighed.Rogue) }
{
    let counts = Counts {
        rogue: s.counts.rogue.wrapping_add(1),
        ..arrived(s.counts, network)
    };
    Stream { counts, ..s }
}
