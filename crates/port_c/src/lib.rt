// What the library exports to C: each call of the crate `port`, with the same clauses. A crate for other crates exports nothing itself.
#![tactic(auto)]

ghost use Rattle.std.specs.Prelude.{◌≡◌, []};
ghost use Rattle.frame.specs.TagCalls.{take_tag, write_tag};
ghost use Rattle.calls.specs.Calls.{arriving, opening, closing, resetting};
ghost use Rattle.calls.specs.Told.{tell_arrival};
ghost use Rattle.port.specs.Tags.{tell_taken, tell_written};
ghost use Rattle.port.specs.Answers.{tell_opened, tell_done, MeetsInC, MeetsIndexedInC, MeetsRebuildInC};
ghost use Rattle.port.specs.Sending.{SendsInC};
ghost use Rattle.sender.specs.Sender.{sender_at_first};

use calls::ArrivalAnswer;
use port::{SlotAnswer, TagAnswer};
use record::Stream;

// Take a tag out.
#[unsafe(no_mangle)]
pub extern "C" fn nippitsun_take_tag(frame: &[u8], out: &mut [u8]) -> TagAnswer
    ensures value { result ≡ tell_taken (take_tag frame.now out.old).said }
    ensures out_after { out.new ≡ (take_tag frame.now out.old).bytes }
{
    port::nippitsun_take_tag(frame, out)
}

// Write a tag.
#[unsafe(no_mangle)]
pub extern "C" fn nippitsun_write_tag(frame: &[u8], number: u16, out: &mut [u8]) -> TagAnswer
    ensures value { result ≡ tell_written number (write_tag frame.now number out.old).said }
    ensures out_after { out.new ≡ (write_tag frame.now number out.old).bytes }
{
    port::nippitsun_write_tag(frame, number, out)
}

// Send.
#[unsafe(no_mangle)]
pub extern "C" fn nippitsun_send(
    sender: &mut u16,
    frame: &[u8],
    out0: &mut [u8],
    out1: &mut [u8],
) -> TagAnswer
    ensures { SendsInC sender.old frame.now out0.old out1.old result sender.new out0.new out1.new }
{
    port::nippitsun_send(sender, frame, out0, out1)
}

// Reset of a sender.
#[unsafe(no_mangle)]
pub extern "C" fn nippitsun_reset_sender(sender: &mut u16)
    ensures { sender.new ≡ sender_at_first.next }
{
    port::nippitsun_reset_sender(sender)
}

// Arrival.
#[unsafe(no_mangle)]
pub extern "C" fn nippitsun_arrival(
    table: &mut [Stream],
    network: u8,
    frame: &[u8],
    out: &mut [u8],
) -> ArrivalAnswer
    ensures { MeetsInC tell_arrival table.old (arriving network frame.now out.old) result table.new out.new }
{
    port::nippitsun_arrival(table, network, frame, out)
}

// Reset.
#[unsafe(no_mangle)]
pub extern "C" fn nippitsun_reset(table: &mut [Stream], slot: usize) -> u8
    ensures { MeetsInC tell_done table.old (resetting slot) result table.new [] }
{
    port::nippitsun_reset(table, slot)
}

// Open. The destination is six bytes.
#[unsafe(no_mangle)]
pub extern "C" fn nippitsun_open(
    table: &mut [Stream],
    index: &mut [u8],
    dest: &[u8; 6],
    vlan: u16,
    rule: u8,
    window: u16,
    time: u16,
) -> SlotAnswer
    ensures { MeetsIndexedInC tell_opened index.old table.old (opening dest.now vlan rule window time) result table.new index.new }
{
    port::nippitsun_open(table, index, dest, vlan, rule, window, time)
}

// Close.
#[unsafe(no_mangle)]
pub extern "C" fn nippitsun_close(table: &mut [Stream], index: &mut [u8], slot: usize) -> u8
    ensures { MeetsIndexedInC tell_done index.old table.old (closing slot) result table.new index.new }
{
    port::nippitsun_close(table, index, slot)
}

// Rebuild of the index from the table, which stays as it is.
#[unsafe(no_mangle)]
pub extern "C" fn nippitsun_rebuild(table: &[Stream], index: &mut [u8]) -> u8
    ensures { MeetsRebuildInC index.old table.now result index.new }
{
    port::nippitsun_rebuild(table, index)
}
