// The refusals of document 01, "Calls and the order of checks", and of the orders of document 02. Each has the number of that
// table, and stands under the document's words. specs/Numbers.antt has the numbers by name for the contracts.
#![tactic(auto)]

ghost use Rattle.std.specs.Prelude.{◌≡◌};
ghost use Rattle.refusal.specs.Numbers.{number_of};

// What a call that refuses answers. (17 is no refusal's number.)
#[derive(Clone, Copy, Debug, PartialEq, Eq)]
pub enum Refusal {
    // The table has more than 64 slots.
    Table = 1,
    // Network is not 0 or 1.
    Network = 2,
    // Frame too long.
    Long = 3,
    // Frame short.
    Short = 4,
    // No F1C1 at the type field.
    Untagged = 5,
    // No slot in use has the key.
    Unknown = 6,
    // The record is damaged (for the reset call: its settings are out of range).
    Damaged = 7,
    // Output too small.
    Room = 8,
    // A setting outside the sizes.
    Setting = 9,
    // A slot in use has the key.
    Taken = 10,
    // No free slot.
    Full = 11,
    // Slot beyond the table or free.
    Slot = 12,
    // Frame already carries F1C1.
    Tagged = 13,
    // Group source address (order 1).
    Group = 14,
    // Count above 32, or lengths that run past the buffer (order 3).
    Batch = 15,
    // No trailer of the set kind with a fitting size and a LAN of A or B (order 7).
    Trailer = 16,
    // Index not of 128 places or not in agreement with the table (order 9).
    Index = 18,
}

// The refusal's number.
impl From<Refusal> for u8 {
    ghost from_gives = { λ refusal number. number ≡ number_of refusal };

    fn from(refusal: Refusal) -> u8 {
        refusal as u8
    }
}
