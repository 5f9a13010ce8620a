// Open, close and reset once 1 (and of an open also 9) is passed: which slot an open fills, and what a close and a reset leave in
// theirs (document 01, "Calls and the order of checks").
ghost use Rattle.std.specs.Prelude.{◌≡◌, ◌&&◌, ltb};
ghost use Rattle.record.specs.Words.{yes};
ghost use Rattle.calls.specs.Table.{is_free};
ghost use Rattle.calls.specs.Steps.{placing_of, close_change, reset_change};

use record::Stream;
use refusal::Refusal;

// A free slot.
pub fn is_free(s: Stream) -> bool
    ensures { result ≡ is_free s }
{
    s.used == 0
}

// Open: 10, 11, else the lowest free slot, from the searches for the key, among the rest and among the virtual links, and for a
// free slot.
pub fn place(key: Option<usize>, link: Option<usize>, free: Option<usize>) -> Result<usize, Refusal>
    ensures { result ≡ placing_of key link free }
{
    if key.is_some() || link.is_some() {
        return Err(Refusal::Taken);
    }
    free.ok_or(Refusal::Full)
}

// Close: 12, else the record that becomes free. s is the record in the slot, or any free one beyond the table.
pub fn close(slots: usize, slot: usize, s: Stream) -> Result<Stream, Refusal>
    ensures { result ≡ close_change slots slot s }
{
    if !in_use(slots, slot, s) {
        return Err(Refusal::Slot);
    }
    let stream = stream::closed(s);
    Ok(stream)
}

// Reset: 12, 7, else the record with fresh state, resets risen. (`close_change` and `reset_change` of specs/Steps.antt say the two,
// each by value: the table's length, the slot and its record.)
pub fn reset(slots: usize, slot: usize, s: Stream) -> Result<Stream, Refusal>
    ensures { result ≡ reset_change slots slot s }
{
    if !in_use(slots, slot, s) {
        return Err(Refusal::Slot);
    }
    if !stream::settled(s) {
        return Err(Refusal::Damaged);
    }
    Ok(stream::reset(s))
}

// Is the slot within the table, and its record in use?
fn in_use(slots: usize, slot: usize, s: Stream) -> bool
    ensures { result ≡ (ltb slot slots && yes s.used) }
{
    slot < slots && s.used != 0
}
