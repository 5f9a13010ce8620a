// The stream record: its types and its sizes (document 01, "The stream record" and "Sizes").
// No functions but the derived ones: the crate `stream` decides on a record, and `receiver` walks over the table that a caller
// lends. Each type is `repr(C)`, since that caller may be written in C.
#![tactic(auto)]

// What an arrival and a tick change. With fields of these sizes in this order no byte of a record is padding: `any` has two,
// so that a record is copied without a rest.
#[repr(C)]
#[derive(Clone, Copy, Debug, Default, PartialEq, Eq)]
pub struct State {
    // Bit k stands for the number anchor - k. It is bit k mod 64 of word k / 64.
    pub history: [u64; 8],
    pub anchor: u16,
    // Ticks remaining.
    pub remaining: u16,
    // Places left for numbers older than the first that was handed up since the reset.
    pub early: u16,
    // Take-any: 0 is no, every other value is yes.
    pub any: u16,
}

// The counters. They wrap to zero after 2^64 - 1.
#[repr(C)]
#[derive(Clone, Copy, Debug, Default, PartialEq, Eq)]
pub struct Counts {
    pub arrivals0: u64,
    pub arrivals1: u64,
    pub passed: u64,
    pub discarded: u64,
    pub rogue: u64,
    // Out of order.
    pub disorder: u64,
    pub lost: u64,
    pub resets: u64,
}

// A slot of the table that the caller lends. Every bit pattern of it is a value: so rule and used are numbers, and no enum and
// bool, and so is `any` above. The caller may be written in C.
#[repr(C)]
#[derive(Clone, Copy, Debug, Default, PartialEq, Eq)]
pub struct Stream {
    // The key: the destination's six bytes as one number, high byte first, and the VLAN id.
    pub dest: u64,
    pub vlan: u16,
    // The window L.
    pub window: u16,
    // The reset time R, in ticks.
    pub time: u16,
    pub rule: u8,
    // In use: 0 is no (a free slot), every other value is yes.
    pub used: u8,
    pub state: State,
    pub counts: Counts,
}

// The sizes. specs/Sizes.antt has the same names for the contracts.
impl Stream {
    // Slots in a table.
    pub const SLOTS_MOST: usize = 64;

    // Bytes in a frame.
    pub const FRAME_MOST: usize = 2000;

    // Bytes in a frame before the tag is put in.
    pub const UNTAGGED_MOST: usize = 1994;

    pub const WINDOW_LEAST: u16 = 2;

    pub const WINDOW_MOST: u16 = 512;

    pub const TIME_LEAST: u16 = 1;

    // The greatest u16, so no code compares with it; the bindings have it for their callers.
    pub const TIME_MOST: u16 = 65535;

    pub const VLAN_MOST: u16 = 4094;

    // The rules: vector recovery, match recovery, and virtual links. Numbers and no enum, since the caller's record holds any byte.
    pub const VECTOR_RULE: u8 = 1;

    pub const MATCH_RULE: u8 = 2;

    pub const LINK_RULE: u8 = 3;
}
