// The interface for C: numbers and slices only. Each function calls the library below it and tells its answer as plain
// fields, since an enum can't cross.
#![tactic(auto)]

ghost use Rattle.std.specs.Prelude.{◌≡◌, []};
ghost use Rattle.frame.specs.TagCalls.{said_taken, take_tag, write_tag};
ghost use Rattle.calls.specs.Calls.{arriving, opening, closing, resetting};
ghost use Rattle.calls.specs.Said.{said_opened, said_done};
ghost use Rattle.calls.specs.Told.{tell_arrival};
ghost use Rattle.port.specs.Tags.{tell_taken, tell_written};
ghost use Rattle.port.specs.Answers.{tell_opened, tell_done, MeetsInC, MeetsIndexedInC, MeetsRebuildInC};
ghost use Rattle.port.specs.Sending.{SendsInC, tell_sent};
ghost use Rattle.sender.specs.Sender.{sender_at_first, said_sent};

use calls::ArrivalAnswer;
use frame::Bare;
use record::Stream;
use refusal::Refusal;
use sender::{Sender, Sent};

// The answer of a tag call. Where it is refused, refusal is the number and the rest is 0; otherwise refusal is 0. (Plain fields, and a
// number for the refusal: it goes to C, as each answer here.)
#[repr(C)]
#[derive(Clone, Copy, Debug, PartialEq, Eq)]
pub struct TagAnswer {
    pub length: usize,
    pub number: u16,
    pub refusal: u8,
}

impl From<Result<Bare, Refusal>> for TagAnswer {
    ghost from_gives = { λ taken told. told ≡ tell_taken (said_taken taken) };

    fn from(taken: Result<Bare, Refusal>) -> TagAnswer {
        match taken {
            Ok(Bare { number, length }) => TagAnswer {
                length,
                number,
                refusal: 0,
            },
            Err(refusal) => TagAnswer {
                length: 0,
                number: 0,
                refusal: refusal.into(),
            },
        }
    }
}

// Take a tag out.
pub fn nippitsun_take_tag(frame: &[u8], out: &mut [u8]) -> TagAnswer
    ensures value { result ≡ tell_taken (take_tag frame.now out.old).said }
    ensures out_after { out.new ≡ (take_tag frame.now out.old).bytes }
{
    frame::take_tag(frame, out).into()
}

// Write a tag. (No `From`: the number is the caller's.)
pub fn nippitsun_write_tag(frame: &[u8], number: u16, out: &mut [u8]) -> TagAnswer
    ensures value { result ≡ tell_written number (write_tag frame.now number out.old).said }
    ensures out_after { out.new ≡ (write_tag frame.now number out.old).bytes }
{
    match frame::write_tag(frame, number, out) {
        Ok(length) => TagAnswer {
            length,
            number,
            refusal: 0,
        },
        Err(refusal) => TagAnswer {
            length: 0,
            number: 0,
            refusal: refusal.into(),
        },
    }
}

// ---- the sending side. A sender is lent as its one field, the next number.

impl From<Result<Sent, Refusal>> for TagAnswer {
    ghost from_gives = { λ sent told. told ≡ tell_sent (said_sent sent) };

    fn from(sent: Result<Sent, Refusal>) -> TagAnswer {
        match sent {
            Ok(Sent { number, length }) => TagAnswer {
                length,
                number,
                refusal: 0,
            },
            Err(refusal) => TagAnswer {
                length: 0,
                number: 0,
                refusal: refusal.into(),
            },
        }
    }
}

// Send.
pub fn nippitsun_send(sender: &mut u16, frame: &[u8], out0: &mut [u8], out1: &mut [u8]) -> TagAnswer
    ensures { SendsInC sender.old frame.now out0.old out1.old result sender.new out0.new out1.new }
{
    let s = Sender { next: *sender };
    let r = sender::send(s, frame, out0, out1);
    *sender = r.sender.next;
    r.answer.into()
}

// Reset of a sender.
pub fn nippitsun_reset_sender(sender: &mut u16)
    ensures { sender.new ≡ sender_at_first.next }
{
    *sender = sender::at_first().next;
}

// ---- the calls on a table

// The answer of an open. Where it is refused, refusal is the number and slot is 0; otherwise refusal is 0.
#[repr(C)]
#[derive(Clone, Copy, Debug, PartialEq, Eq)]
pub struct SlotAnswer {
    pub slot: usize,
    pub refusal: u8,
}

impl From<Result<usize, Refusal>> for SlotAnswer {
    ghost from_gives = { λ opened told. told ≡ tell_opened (said_opened opened) };

    fn from(opened: Result<usize, Refusal>) -> SlotAnswer {
        match opened {
            Ok(slot) => SlotAnswer { slot, refusal: 0 },
            Err(refusal) => SlotAnswer {
                slot: 0,
                refusal: refusal.into(),
            },
        }
    }
}

// The answer of a close, a reset and a rebuild: the refusal's number, or 0. (No `From`: neither type is this crate's.)
fn tell_done(done: Result<(), Refusal>) -> u8
    ensures { result ≡ tell_done (said_done done) }
{
    match done {
        Ok(()) => 0,
        Err(refusal) => refusal.into(),
    }
}

// Arrival.
pub fn nippitsun_arrival(
    table: &mut [Stream],
    network: u8,
    frame: &[u8],
    out: &mut [u8],
) -> ArrivalAnswer
    ensures { MeetsInC tell_arrival table.old (arriving network frame.now out.old) result table.new out.new }
{
    receiver::arrival(table, network, frame, out).into()
}

// Reset.
pub fn nippitsun_reset(table: &mut [Stream], slot: usize) -> u8
    ensures { MeetsInC tell_done table.old (resetting slot) result table.new [] }
{
    tell_done(receiver::reset(table, slot))
}

// ---- the calls that take the index beside the table. A slice of any length may be lent: 18 refuses one that is not of 128
// places, so that nothing is asked of the caller.

// Open. The destination is six bytes.
pub fn nippitsun_open(
    table: &mut [Stream],
    index: &mut [u8],
    dest: &[u8; 6],
    vlan: u16,
    rule: u8,
    window: u16,
    time: u16,
) -> SlotAnswer
    ensures { MeetsIndexedInC tell_opened index.old table.old (opening dest.now vlan rule window time) result table.new index.new }
{
    receiver::open(table, index, *dest, vlan, rule, window, time).into()
}

// Close.
pub fn nippitsun_close(table: &mut [Stream], index: &mut [u8], slot: usize) -> u8
    ensures { MeetsIndexedInC tell_done index.old table.old (closing slot) result table.new index.new }
{
    tell_done(receiver::close(table, index, slot))
}

// Rebuild of the index from the table, which stays as it is.
pub fn nippitsun_rebuild(table: &[Stream], index: &mut [u8]) -> u8
    ensures { MeetsRebuildInC index.old table.now result index.new }
{
    tell_done(receiver::rebuild(table, index))
}
