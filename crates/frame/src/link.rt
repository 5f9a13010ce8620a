// The bytes of a virtual link's frame: its destination and its number, and the frame without its last byte (document 02,
// order 10).
ghost use Rattle.std.specs.Prelude.{◌≡◌};
ghost use Rattle.frame.specs.Link.{link_of, said_link, written_shorter};

use super::{LinkTag, copy, dest_of, group_source};
use record::Stream;
use refusal::Refusal;

// The least bytes of such a frame. specs/Link.antt has it as link_least.
const LINK_LEAST: usize = 15;

// What an arrival of a virtual link reads of a frame: refusals 3, 4 and 14, or destination and number.
pub fn read_link(frame: &[u8]) -> Result<LinkTag, Refusal>
    ensures { said_link result ≡ link_of frame.now }
{
    if frame.len() > Stream::FRAME_MOST {
        return Err(Refusal::Long);
    }
    if frame.len() < LINK_LEAST {
        return Err(Refusal::Short);
    }
    if group_source(frame) {
        return Err(Refusal::Group);
    }
    let dest = dest_of(frame);
    let number = u16::from(frame[frame.len() - 1]);
    Ok(LinkTag { dest, number })
}

// Writes a frame without its last byte to the start of out: nothing where the bytes do not fit.
pub fn write_shorter(frame: &[u8], out: &mut [u8])
    ensures { out.new ≡ written_shorter frame.now out.old }
{
    if frame.len() > Stream::FRAME_MOST {
        return;
    }
    if frame.len() < 1 {
        return;
    }
    let n = frame.len() - 1;
    if out.len() < n {
        return;
    }
    copy(&frame[..n], out);
}
