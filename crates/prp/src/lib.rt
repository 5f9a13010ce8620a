// PRP lines (document 02, order 7): a frame with a trailer is turned into one with a tag, and back.
#![tactic(auto)]

ghost use Rattle.std.specs.Prelude.{◌≡◌, ◌+◌, ◌≤◌, ◌<◌, length, drop};
ghost use Rattle.frame.specs.Bytes.{overlay};
ghost use Rattle.frame.specs.Frame.{type_at, cut_at};
ghost use Rattle.prp.specs.Prp.{trailer_of, width_of, end_at, same, is_lan, wears, lan_of, two_words, trailer_bytes, from_prp, to_prp, said_turned};
ghost use Rattle.prp.specs.Steps.{Headed, HasTag};

use record::Stream;
use refusal::Refusal;

// A line's kind of trailer: the first edition's, or that of 2012.
#[derive(Clone, Copy, Debug, PartialEq, Eq)]
pub enum Kind {
    First,
    Of2012,
}

// A turn: network, number, and how many bytes were written.
#[derive(Clone, Copy, Debug, PartialEq, Eq)]
pub struct Turned {
    pub network: u8,
    pub number: u16,
    pub length: usize,
}

impl Kind {
    // The last bytes of a trailer, those behind number, LAN and size. Nothing else differs between the kinds.
    fn last(self) -> &'static [u8]
        ensures { result.now ≡ (trailer_of self).last }
    {
        match self {
            Kind::First => &[],
            Kind::Of2012 => &[0x88, 0xFB],
        }
    }

    // How many bytes a trailer has.
    #[tactic(auto, unfolding(crate::specs::Prp::width_of))]
    fn width(self) -> usize
        ensures { result ≡ width_of (trailer_of self) }
    {
        4 + self.last().len()
    }

    // Does a frame end in the last bytes of this kind?
    fn ends_so(self, frame: &[u8]) -> bool
        requires { width_of (trailer_of self) ≤ length frame.now }
        ensures { result ≡ same (drop (end_at (trailer_of self) frame.now + 4) frame.now) (trailer_of self).last }
    {
        frame.ends_with(self.last())
    }

    // The last bytes, at the start of dst. Byte by byte, which the compiler makes one move; copy_from_slice of bytes whose number it
    // does not know would be a call.
    fn write_last(self, dst: &mut [u8])
        requires { length (trailer_of self).last ≤ length dst.old }
        ensures { dst.new ≡ overlay (trailer_of self).last dst.old }
    {
        let last = self.last();
        for (i, byte) in last.iter().enumerate() {
            dst[i] = *byte;
        }
    }
}

// Is this LAN A or B?
#[tactic(auto, unfolding(crate::specs::Prp::is_lan))]
fn is_lan(lan: u16) -> bool
    ensures { result ≡ is_lan lan }
{
    matches!(lan, 0xA | 0xB)
}

// Does a frame with its type field at a place have a trailer of this kind at its end, with a fitting size and a LAN of A or B?
#[tactic(auto, using(crate::proofs::Trailers::width_is))]
fn has_trailer(frame: &[u8], at: usize, end: usize, kind: Kind) -> bool
    requires { Headed (trailer_of kind) frame.now at end }
    ensures { result ≡ wears (trailer_of kind) frame.now }
{
    let both = u16::from_be_bytes([frame[end + 2], frame[end + 3]]);
    if !is_lan(both / 4096) {
        return false;
    }
    if usize::from(both % 4096) != frame.len() - (at + 2) {
        return false;
    }
    kind.ends_so(frame)
}

// A frame whose header has no tag and whose type field is at a place: its trailer is looked at, and the tagged frame written to the
// start of out. The place, 12 or 16 behind a VLAN tag, is a constant, so that the front is one or two moves.
#[tactic(auto, using(crate::proofs::Trailers::width_is))]
fn from_at<const AT: usize>(
    frame: &[u8],
    end: usize,
    kind: Kind,
    out: &mut [u8],
) -> Result<Turned, Refusal>
    requires { Headed (trailer_of kind) frame.now AT end }
    ensures result_value { said_turned result ≡ (from_prp (trailer_of kind) frame.now out.old).said }
    ensures out_after { out.new ≡ (from_prp (trailer_of kind) frame.now out.old).bytes }
{
    if !has_trailer(frame, AT, end, kind) {
        return Err(Refusal::Trailer);
    }
    let length = end + 6;
    if out.len() < length {
        return Err(Refusal::Room);
    }
    let number = u16::from_be_bytes([frame[end], frame[end + 1]]);
    let both = u16::from_be_bytes([frame[end + 2], frame[end + 3]]);
    let network = (both / 4096 - 0xA) as u8;
    frame::write_with(&frame[..end], AT, number, out);
    Ok(Turned {
        network,
        number,
        length,
    })
}

// From PRP: the tagged frame, at the start of out. No frame is both short and too long, so that the order of the first two tests
// is open: like this the compiler knows the frame's length where it is written. Frame, kind and output come one by one, here and in
// to_prp, since README names the two calls so and C passes them so; so do the functions below them.
#[tactic(auto, using(crate::proofs::Trailers::width_is))]
pub fn from_prp(frame: &[u8], kind: Kind, out: &mut [u8]) -> Result<Turned, Refusal>
    ensures result_value { said_turned result ≡ (from_prp (trailer_of kind) frame.now out.old).said }
    ensures out_after { out.new ≡ (from_prp (trailer_of kind) frame.now out.old).bytes }
{
    let width = kind.width();
    if frame.len() < 14 + width {
        return Err(Refusal::Short);
    }
    let end = frame.len() - width;
    if end > Stream::UNTAGGED_MOST {
        return Err(Refusal::Long);
    }
    let Some(header) = frame::read_head(&frame[..end]) else {
        return Err(Refusal::Short);
    };
    if header.tagged {
        return Err(Refusal::Tagged);
    }
    if header.at == 12 {
        return from_at::<12>(frame, end, kind, out);
    }
    from_at::<16>(frame, end, kind, out)
}

// The four bytes before the last ones: the number, then LAN and size.
#[tactic(auto, unfolding(frame::specs::Bytes::overlay))]
fn write_words(number: u16, both: u16, dst: &mut [u8])
    requires { 4 ≤ length dst.old }
    ensures { dst.new ≡ overlay (two_words number both) dst.old }
{
    dst[..2].copy_from_slice(&number.to_be_bytes());
    dst[2..4].copy_from_slice(&both.to_be_bytes());
}

// A trailer, at the start of dst.
fn write_trailer(kind: Kind, number: u16, network: u8, size: u16, dst: &mut [u8])
    requires network_bound { network ≤ 1 }
    requires size_bound { size < 4096 }
    requires kind_in_bounds { 4 + length (trailer_of kind).last ≤ length dst.old }
    ensures { dst.new ≡ overlay (trailer_bytes (trailer_of kind) number (lan_of network) size) dst.old }
{
    let both = (0xA + u16::from(network)) * 4096 + size;
    write_words(number, both, dst);
    kind.write_last(&mut dst[4..]);
}

// Where the type field is once the tag at a place is taken out: 8100 may come to stand at 12. Behind a VLAN tag it stays at 16,
// whatever follows.
fn type_without(frame: &[u8], at: usize) -> usize
    requires at_value { at ≡ type_at frame.now }
    requires at_in_bounds { at + 8 ≤ length frame.now }
    ensures { result ≡ type_at (cut_at frame.now at) }
{
    if u16::from_be_bytes([frame[at + 6], frame[at + 7]]) == 0x8100 {
        return 16;
    }
    at
}

// The frame without the tag at a place and with a trailer, at the start of out. The trailer is written first: so less has to be
// kept while the frame is copied. The place is a constant, as above.
#[tactic(auto, using(crate::proofs::Trailers::width_is))]
fn to_at<const AT: usize>(
    frame: &[u8],
    number: u16,
    network: u8,
    kind: Kind,
    out: &mut [u8],
) -> Result<Turned, Refusal>
    requires { HasTag frame.now AT number network }
    ensures result_value { said_turned result ≡ (to_prp (trailer_of kind) network frame.now out.old).said }
    ensures out_after { out.new ≡ (to_prp (trailer_of kind) network frame.now out.old).bytes }
{
    let bare = frame.len() - 6;
    let head = type_without(frame, AT) + 2;
    if bare < head {
        return Err(Refusal::Short);
    }
    let length = bare + kind.width();
    if out.len() < length {
        return Err(Refusal::Room);
    }
    write_trailer(
        kind,
        number,
        network,
        (length - head) as u16,
        &mut out[bare..],
    );
    frame::write_without(frame, AT, out);
    Ok(Turned {
        network,
        number,
        length,
    })
}

// To PRP: the frame without its tag and with a trailer, at the start of out.
pub fn to_prp(frame: &[u8], network: u8, kind: Kind, out: &mut [u8]) -> Result<Turned, Refusal>
    ensures result_value { said_turned result ≡ (to_prp (trailer_of kind) network frame.now out.old).said }
    ensures out_after { out.new ≡ (to_prp (trailer_of kind) network frame.now out.old).bytes }
{
    if network > 1 {
        return Err(Refusal::Network);
    }
    let tag = frame::read_tag(frame)?;
    if tag.header.at == 12 {
        return to_at::<12>(frame, tag.number, network, kind, out);
    }
    to_at::<16>(frame, tag.number, network, kind, out)
}
