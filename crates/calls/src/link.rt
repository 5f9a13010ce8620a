// An arrival of a virtual link: what it asks of the table, and how it ends (document 02, order 10). What it is to its record is
// decided as every arrival is, by `judge`.
ghost use Rattle.std.specs.Prelude.{◌≡◌, true, ◌-◌, length};
ghost use Rattle.frame.specs.Frame.{unranked};
ghost use Rattle.frame.specs.Link.{said_link, written_shorter};
ghost use Rattle.calls.specs.Said.{said_arrival};
ghost use Rattle.calls.specs.Table.{hears};
ghost use Rattle.calls.specs.Steps.{link_asked, has_room, finished, bytes_of};

use super::Arrived;
use super::arrival::{begin, told};
use frame::{LinkTag, Rank};
use record::Stream;
use refusal::Refusal;
use stream::Weighed;

// A slot in use that has the key and is a virtual link. The destination is compared first: the VLAN id of every link is 0.
pub fn hears_links(s: Stream, dest: u64, vlan: u16) -> bool
    ensures { result ≡ hears true dest vlan s }
{
    if s.dest != dest {
        return false;
    }
    if s.vlan != vlan {
        return false;
    }
    if s.rule != Stream::LINK_RULE {
        return false;
    }
    s.used != 0
}

// 1 and 2, then 3, 4 and 14 as the frame's reader gives them.
pub fn ask_link(slots: usize, network: u8, frame: &[u8]) -> Result<LinkTag, Refusal>
    ensures { said_link result ≡ link_asked slots network frame.now }
{
    begin(slots, network)?;
    frame::read_link(frame)
}

// Does the output hold the frame without its last byte? (A line, as `fits`: the number is what `has_room` is asked for.)
pub fn fits_link(frame: &[u8], out: &[u8]) -> bool
    ensures { result ≡ has_room (length frame.now - 1) out.now }
{
    frame.len().saturating_sub(1) <= out.len()
}

// The answer, with no priority, since no VLAN tag is read; and where the frame is handed up, the frame without its last byte at
// the start of the output. (What it has in common with `finish` is `told`: the writer as a closure would bring a clause on what it
// leaves of the output, which is longer.)
pub fn finish_link(
    judged: Result<Weighed, Refusal>,
    slot: usize,
    number: u16,
    frame: &[u8],
    out: &mut [u8],
) -> Result<Arrived, Refusal>
    ensures result_value { said_arrival result ≡ finished judged slot number unranked (length frame.now - 1) }
    ensures out_after { out.new ≡ bytes_of judged (written_shorter frame.now out.old) out.old }
{
    let weighed = judged?;
    if let Weighed::HandedUp(_) = weighed {
        frame::write_shorter(frame, out);
    }
    Ok(Arrived {
        slot,
        number,
        rank: Rank::default(),
        verdict: told(weighed, frame.len().saturating_sub(1)),
    })
}
