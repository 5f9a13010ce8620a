// The sending side (document 02, order 6): a sender stream by value, the call that writes the same tagged frame for both
// networks or for neither, and the reset.
#![tactic(auto)]

ghost use Rattle.std.specs.Prelude.{◌≡◌};
ghost use Rattle.sender.specs.Sender.{sender_at_first, following, reset_of, send_of, said_sent, comes_to};

use refusal::Refusal;

// A sender stream. Every value is a sender: the number that the next frame gets.
#[repr(C)]
#[derive(Clone, Copy, Debug, PartialEq, Eq)]
pub struct Sender {
    pub next: u16,
}

// What a send that is not refused answers: the number that the frame got, and the length of the tagged frame. (A type of its own
// beside `frame::Bare`: one length is with the tag and the other without, as `Numbered` and `Bare` say.)
#[derive(Clone, Copy, Debug, PartialEq, Eq)]
pub struct Sent {
    pub number: u16,
    pub length: usize,
}

// What a send leaves: the sender as it is then, and the answer. The calls are functions that take a sender and give one back, and not
// methods of one that is lent: README names them so, and the laws of a run (`ran`, `sent`) go from sender to sender.
#[derive(Clone, Copy, Debug, PartialEq, Eq)]
pub struct Sending {
    pub sender: Sender,
    pub answer: Result<Sent, Refusal>,
}

// A sender at first. (A function and no `Default`: the pages and `CodeMeets` name it.)
pub fn at_first() -> Sender
    ensures { result ≡ sender_at_first }
{
    Sender { next: 0 }
}

// Reset: the sender as it is at first, whatever it was.
pub fn reset(sender: Sender) -> Sender
    ensures { result ≡ reset_of sender }
{
    at_first()
}

// The number that comes after another.
#[tactic(auto, unfolding(crate::specs::Sender::following))]
fn after(number: u16) -> u16
    ensures { result ≡ following number }
{
    number.wrapping_add(1)
}

// The frame with a tag put in, at the start of both outputs or of neither. The room of both is known before a byte of either is
// written.
fn write_both(
    sender: Sender,
    frame: &[u8],
    out0: &mut [u8],
    out1: &mut [u8],
) -> Result<Sent, Refusal>
    ensures said { said_sent result ≡ (send_of sender frame.now out0.old out1.old).said }
    ensures out0_after { out0.new ≡ (send_of sender frame.now out0.old out1.old).out0 }
    ensures out1_after { out1.new ≡ (send_of sender frame.now out0.old out1.old).out1 }
{
    let at = frame::place_of(frame)?;
    let length = frame.len() + 6;
    if out0.len() < length {
        return Err(Refusal::Room);
    }
    if out1.len() < length {
        return Err(Refusal::Room);
    }
    let number = sender.next;
    frame::write_with(frame, at, number, out0);
    frame::write_with(frame, at, number, out1);
    Ok(Sent { number, length })
}

// Send: what is written, and the sender then. A refused frame uses up no number.
pub fn send(sender: Sender, frame: &[u8], out0: &mut [u8], out1: &mut [u8]) -> Sending
    ensures { comes_to result out0.new out1.new ≡ send_of sender frame.now out0.old out1.old }
{
    let answer = write_both(sender, frame, out0, out1);
    let sender = match answer {
        Ok(_) => Sender {
            next: after(sender.next),
        },
        Err(_) => sender,
    };
    Sending { sender, answer }
}
