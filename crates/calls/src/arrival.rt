// An arrival: what it asks of the table, what it is to its record, and how it ends (document 01, "Calls and the order of
// checks", and document 02, order 1).
ghost use Rattle.std.specs.Prelude.{◌≡◌, ◌-◌, if◌then◌else◌, Ok, Err, length};
ghost use Rattle.refusal.specs.declared.Refusal.TheVariants.{Room};
ghost use Rattle.frame.specs.TagCalls.{written_without};
ghost use Rattle.calls.specs.Said.{said_verdict, said_arrival};
ghost use Rattle.calls.specs.Steps.{begun, said_asked, asked, has_room, judged, verdict_told, finished, bytes_of};

use super::{Arrived, Verdict};
use frame::Tag;
use record::Stream;
use refusal::Refusal;
use stream::Weighed;

// Arrival, of a virtual link too: 1 and 2. (A network is a number and no enum: 2 refuses every other one, which may come from C and
// from an event file.)
pub fn begin(slots: usize, network: u8) -> Result<(), Refusal>
    ensures { result ≡ begun slots network }
{
    if slots > Stream::SLOTS_MOST {
        return Err(Refusal::Table);
    }
    if network > 1 {
        return Err(Refusal::Network);
    }
    Ok(())
}

// Arrival: 1 and 2, then 3, 4 and 5 as the frame's reader gives them, then 14.
pub fn ask(slots: usize, network: u8, frame: &[u8]) -> Result<Tag, Refusal>
    ensures { said_asked result ≡ asked slots network frame.now }
{
    begin(slots, network)?;
    let tag = frame::read_tag(frame)?;
    if frame::group_source(frame) {
        return Err(Refusal::Group);
    }
    Ok(tag)
}

// Does the output hold the frame without a tag?
pub fn fits(frame: &[u8], out: &[u8]) -> bool
    ensures { result ≡ has_room (length frame.now - 6) out.now }
{
    frame.len().saturating_sub(6) <= out.len()
}

// Arrival: 7, then 8, then what it is to its record. Nothing is marked yet: the room for it has to be known before. The record
// is weighed once, and 8 is asked for in each verdict's arm: so no test of the record is made twice, and nothing is joined. (With
// one test behind the match an arrival takes 15 to 18 instructions more.)
pub fn judge(s: Stream, number: u16, room: bool) -> Result<Weighed, Refusal>
    ensures { result ≡ judged s number room }
{
    match stream::weigh(s, number) {
        None => Err(Refusal::Damaged),
        Some(Weighed::HandedUp(m)) => granted(Weighed::HandedUp(m), room),
        Some(Weighed::Duplicate) => granted(Weighed::Duplicate, room),
        Some(Weighed::Rogue) => granted(Weighed::Rogue, room),
    }
}

// Arrival: 8.
fn granted(weighed: Weighed, room: bool) -> Result<Weighed, Refusal>
    ensures { result ≡ (if room then Ok weighed else Err Room) }
{
    if !room {
        return Err(Refusal::Room);
    }
    Ok(weighed)
}

// The answer; and where the frame is handed up, the frame without its tag at the start of the output.
pub fn finish(
    judged: Result<Weighed, Refusal>,
    slot: usize,
    tag: Tag,
    frame: &[u8],
    out: &mut [u8],
) -> Result<Arrived, Refusal>
    ensures result_value { said_arrival result ≡ finished judged slot tag.number tag.header.rank (length frame.now - 6) }
    ensures out_after { out.new ≡ bytes_of judged (written_without frame.now tag.header.at out.old) out.old }
{
    let weighed = judged?;
    if let Weighed::HandedUp(_) = weighed {
        frame::write_without(frame, tag.header.at, out);
    }
    Ok(Arrived {
        slot,
        number: tag.number,
        rank: tag.header.rank,
        verdict: told(weighed, frame.len().saturating_sub(6)),
    })
}

// The verdict that is answered, of a frame of which so many bytes are handed up.
pub fn told(weighed: Weighed, length: usize) -> Verdict
    ensures { said_verdict result ≡ verdict_told weighed length }
{
    match weighed {
        Weighed::HandedUp(_) => Verdict::HandedUp(length),
        Weighed::Duplicate => Verdict::Duplicate,
        Weighed::Rogue => Verdict::Rogue,
    }
}
