// One stream record, by value: when it is lawful, how an arrival is decided, how it ages (document 01, "The stream record"
// and "Decisions"). No public function has a condition on its caller: every bit pattern of a record is answered for.
#![tactic(auto)]

// What the module decides is the definitions' words, one for one: so its proofs look into them, and need little else.
#[tactic(auto, unfolding(crate::specs::Steps::weighed_as, crate::specs::Decisions::case_of, crate::specs::Decisions::vector_case, crate::specs::Decisions::match_case, crate::specs::Decisions::link_case, crate::specs::Decisions::link_up, crate::specs::Decisions::link_steps, crate::specs::Decisions::state_after, crate::specs::Decisions::losses, crate::specs::Decisions::out_of_order, record::specs::Words::yes))]
mod cases;
#[tactic(auto, unfolding(crate::specs::Steps::history_after, crate::specs::Steps::short_after, crate::specs::Steps::record_after, crate::specs::Steps::record_short, crate::specs::Decisions::tally))]
mod effects;
mod history;
mod number;

ghost use Rattle.std.specs.Prelude.{◌≡◌, ◌≤◌, ◌&&◌, ◌||◌, ◌==◌, nat_le};
ghost use Rattle.record.specs.Sizes.{window_least, window_most, vector_rule, match_rule, link_rule};
ghost use Rattle.stream.specs.Record.{fresh, settled, linked, placed, lawful, opened, closed};
ghost use Rattle.stream.specs.Decisions.{reset};
ghost use Rattle.stream.specs.Steps.{plain, right, weighed, record_after, tick_of};

pub use effects::{counted, duplicate, handed_up, handed_up_short, rogue};
use record::{Counts, State, Stream};

// The anchor of the fresh state.
const FRESH_ANCHOR: u16 = 65535;

// What an arrival that is handed up leaves: how many more are lost, how many places the history moves up and which bit is then
// set, the anchor, the places left for older numbers, and whether it is out of order.
#[derive(Clone, Copy, Debug, PartialEq, Eq, Default)]
pub struct Marks {
    pub lost: u64,
    pub places: u16,
    pub bit: u16,
    pub anchor: u16,
    pub early: u16,
    // A flag, since it raises a counter of its own.
    pub disorder: bool,
}

// What an arrival is to a lawful record.
#[derive(Clone, Copy, Debug, PartialEq, Eq)]
pub enum Weighed {
    HandedUp(Marks),
    Duplicate,
    Rogue,
}

// The answer of a tick: the record after it, whether the stream was reset, whether the record is damaged. (Two flags and no enum:
// each is counted by itself, as `tick_of` says.)
#[derive(Clone, Copy, Debug, PartialEq, Eq)]
pub struct Ticked {
    pub stream: Stream,
    pub reset: bool,
    pub damaged: bool,
}

fn fresh_state() -> State
    ensures { result ≡ fresh }
{
    State {
        anchor: FRESH_ANCHOR,
        any: 1,
        ..State::default()
    }
}

// A fresh record in use, counters zero. (Its parameters are those of an open, as the README names them.)
pub fn opened(dest: u64, vlan: u16, rule: u8, window: u16, time: u16) -> Stream
    ensures { result ≡ opened dest vlan rule window time }
{
    Stream {
        dest,
        vlan,
        window,
        time,
        rule,
        used: 1,
        state: fresh_state(),
        counts: Counts::default(),
    }
}

// The record of a slot that becomes free; its other fields stay.
pub fn closed(s: Stream) -> Stream
    ensures { result ≡ closed s }
{
    Stream { used: 0, ..s }
}

// A rule, and with rule 3 no other VLAN id than 0. (A rule is a number, which C fills: it is asked wherever each rule does something
// else.)
fn is_rule(rule: u8, vlan: u16) -> bool
    ensures { result ≡ (rule == vector_rule || rule == match_rule || (rule == link_rule && vlan == 0)) }
{
    match rule {
        Stream::VECTOR_RULE | Stream::MATCH_RULE => true,
        Stream::LINK_RULE => vlan == 0,
        _ => false,
    }
}

// The anchor of a virtual link is a byte.
#[tactic(auto, unfolding(crate::specs::Record::linked))]
fn is_linked(rule: u8, anchor: u16) -> bool
    ensures { result ≡ linked rule anchor }
{
    rule != Stream::LINK_RULE || anchor <= 255
}

// The settings are within the sizes. (Every u16 is at most the greatest reset time.) Each test returns by itself: joined by `&&` they
// took 22 instructions more in a decision of 332.
#[tactic(auto, unfolding(crate::specs::Record::settled))]
pub fn settled(s: Stream) -> bool
    ensures { result ≡ settled s }
{
    if !is_rule(s.rule, s.vlan)
        || s.window < Stream::WINDOW_LEAST
        || Stream::WINDOW_MOST < s.window
        || s.time < Stream::TIME_LEAST
    {
        return false;
    }
    s.vlan <= Stream::VLAN_MOST
}

// The places left for numbers older than the first: the first stands next to them.
#[tactic(auto, unfolding(crate::specs::Record::placed))]
fn is_placed(window: u16, n: u16, h: [u64; 8]) -> bool
    requires { (window_least ≤ window) × (window ≤ window_most) }
    ensures { result ≡ placed window n h }
{
    n == 0 || n < window && history::has_bit(h, window - 1 - n)
}

// The half of `lawful` that asks for no history: in use, the settings and the ticks; with take-any also the anchor.
#[tactic(auto, unfolding(crate::specs::Steps::plain, record::specs::Words::yes))]
fn is_plain(s: Stream) -> bool
    ensures { result ≡ plain s }
{
    if s.used == 0 || !settled(s) || s.time < s.state.remaining {
        return false;
    }
    if s.state.any != 0 {
        return s.state.remaining == 0 && s.state.anchor == FRESH_ANCHOR;
    }
    s.state.remaining != 0 && is_linked(s.rule, s.state.anchor)
}

// The other half: the history, and the places for older numbers, which are asked for last, since most often there are none. The
// tests of take-any and of the rule stand apart, as in `is_plain`: joined they took 3 instructions more in a decision. (That the window
// is within the sizes comes from `settled`: a type for it would be made from the record's number and taken apart again.)
#[tactic(auto, unfolding(crate::specs::Steps::right, record::specs::Words::yes))]
fn is_right(rule: u8, window: u16, any: u16, n: u16, h: [u64; 8]) -> bool
    requires { (window_least ≤ window) × (window ≤ window_most) }
    ensures { result ≡ right rule window any n h }
{
    if any != 0 {
        return n == 0 && history::is_empty(h);
    }
    if rule == Stream::VECTOR_RULE {
        if !history::has_bit(h, 0) || !history::is_within(h, window) {
            return false;
        }
        return is_placed(window, n, h);
    }
    n == 0 && history::is_empty(h)
}

// In use, its settings within the sizes, and its state as document 01 shapes it, with order 4. Counters may hold anything.
// In two halves, of which the second gets fields alone: so no record is copied around a call.
#[tactic(auto, using(crate::proofs::Law::halves))]
pub fn lawful(s: Stream) -> bool
    ensures { result ≡ lawful s }
{
    is_plain(s)
        && is_right(
            s.rule,
            s.window,
            s.state.any,
            s.state.early,
            s.state.history,
        )
}

// The first step of the decision: what an arrival is to the record. One that is not lawful has no verdict. It makes no record and
// reads no counter. (Each of the three asks for take-any itself: asked here once it took 5 instructions more of 326.)
#[tactic(auto, unfolding(crate::specs::Steps::weighed))]
pub fn weigh(s: Stream, number: u16) -> Option<Weighed>
    ensures { result ≡ weighed s number }
{
    if !lawful(s) {
        return None;
    }
    Some(match s.rule {
        Stream::VECTOR_RULE => cases::by_vector(s, number),
        Stream::LINK_RULE => cases::by_link(s, number),
        _ => cases::by_match(s, number),
    })
}

// The window is at most a word, so that the second step may be `handed_up_short`.
pub fn is_narrow(s: Stream) -> bool
    ensures { result ≡ nat_le s.window 64 }
{
    s.window <= 64
}

// The second step of the decision: the record after what the first step found.
#[tactic(auto, unfolding(crate::specs::Steps::record_after))]
pub fn next(s: Stream, network: u8, w: Option<Weighed>) -> Stream
    ensures { result ≡ record_after s network w }
{
    match w {
        None => s,
        Some(Weighed::HandedUp(m)) => effects::handed_up(s, network, m),
        Some(Weighed::Duplicate) => effects::duplicate(s, network),
        Some(Weighed::Rogue) => effects::rogue(s, network),
    }
}

// Fresh state, resets rises; all else stays.
#[tactic(auto, unfolding(crate::specs::Decisions::reset))]
pub fn reset(s: Stream) -> Stream
    ensures { result ≡ reset s }
{
    Stream {
        state: fresh_state(),
        counts: Counts {
            resets: s.counts.resets.wrapping_add(1),
            ..s.counts
        },
        ..s
    }
}

// One tick. A damaged record and a free one stay as they are.
#[tactic(auto, unfolding(crate::specs::Steps::tick_of, crate::specs::Decisions::ticked, crate::specs::Decisions::expires, crate::specs::Record::damaged, record::specs::Words::yes))]
pub fn tick(s: Stream) -> Ticked
    ensures { result ≡ tick_of s }
{
    if !lawful(s) {
        return Ticked {
            stream: s,
            reset: false,
            damaged: s.used != 0,
        };
    }
    if s.state.remaining == 1 {
        return Ticked {
            stream: reset(s),
            reset: true,
            damaged: false,
        };
    }
    let state = State {
        remaining: s.state.remaining.saturating_sub(1),
        ..s.state
    };
    Ticked {
        stream: Stream { state, ..s },
        reset: false,
        damaged: false,
    }
}
