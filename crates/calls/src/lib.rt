// The by-value part of each call on a table: what it answers, what it stores, what it writes (document 01, "Calls and the
// order of checks", and document 02, orders 1, 10 and 11). The walks over the table are in the crate `receiver`.
#![tactic(auto)]

mod arrival;
mod link;
mod slot;
mod told;

ghost use Rattle.std.specs.Prelude.{◌≡◌};
ghost use Rattle.calls.specs.Ticks.{no_sums, visited};
ghost use Rattle.calls.specs.Table.{blank, hears};

pub use arrival::{ask, finish, fits, judge};
use frame::Rank;
pub use link::{ask_link, finish_link, fits_link};
use record::Stream;
pub use slot::{close, is_free, place, reset};

// What an arrival was found to be.
#[derive(Clone, Copy, Debug, PartialEq, Eq)]
pub enum Verdict {
    // With the length of the frame that was written.
    HandedUp(usize),
    Duplicate,
    Rogue,
}

// What an arrival that is not refused answers: its stream's slot, its number, its priority and its verdict.
#[derive(Clone, Copy, Debug, PartialEq, Eq)]
pub struct Arrived {
    pub slot: usize,
    pub number: u16,
    pub rank: Rank,
    pub verdict: Verdict,
}

// The same, or a refusal, in plain fields, since an enum can't cross to C, and an array of these is what a batch answers. Refusal
// 0: verdict is 1 handed up, 2 duplicate, 3 rogue, and length is what was written to the output, 0 but for a frame handed up.
// Where it is refused, refusal is the number and the rest is 0. The rank goes through as one: of two fields here the compiler
// parted it, at three instructions an arrival (docs/SPEED.md).
#[repr(C)]
#[derive(Clone, Copy, Debug, Default, PartialEq, Eq)]
pub struct ArrivalAnswer {
    pub slot: usize,
    pub length: usize,
    pub number: u16,
    pub verdict: u8,
    pub refusal: u8,
    pub rank: Rank,
}

// The key that is asked for: a destination and a VLAN id, among the virtual links or among the rest (document 02, order 10). (A flag
// says which, as in the definition `hears`.)
#[derive(Clone, Copy, Debug, PartialEq, Eq)]
pub struct Key {
    pub dest: u64,
    pub vlan: u16,
    pub link: bool,
}

// Is this a slot in use that has the key, and is a virtual link, or is none (document 02, order 10)? Of one that is none the VLAN
// id is compared first (order 2): on the customer's lines it differs most often. Whether it is in use is asked last, behind the
// rule: with the two the other way round the compiler asks both of every slot that is passed (docs/SPEED.md).
pub fn hears(s: Stream, key: Key) -> bool
    ensures { result ≡ hears key.link key.dest key.vlan s }
{
    let Key { dest, vlan, link } = key;
    if link {
        return link::hears_links(s, dest, vlan);
    }
    if s.vlan != vlan {
        return false;
    }
    if s.dest != dest {
        return false;
    }
    if s.rule == Stream::LINK_RULE {
        return false;
    }
    s.used != 0
}

// A slot that never was in use.
pub fn blank() -> Stream
    ensures { result ≡ blank }
{
    Stream::default()
}

// What a tick counts: streams that it reset, and records in use that are damaged.
#[derive(Clone, Copy, Debug, Default, PartialEq, Eq)]
pub struct Sums {
    pub resets: u64,
    pub damaged: u64,
}

// A record after its tick, and what was counted so far.
#[derive(Clone, Copy, Debug, PartialEq, Eq)]
pub struct Visited {
    pub stream: Stream,
    pub sums: Sums,
}

// The tick of one record, after those that c counts.
pub fn visit(c: Sums, s: Stream) -> Visited
    ensures { result ≡ visited c s }
{
    let k = stream::tick(s);
    let resets = stream::counted(k.reset, c.resets);
    let damaged = stream::counted(k.damaged, c.damaged);
    let stream = k.stream;
    let sums = Sums { resets, damaged };
    Visited { stream, sums }
}
