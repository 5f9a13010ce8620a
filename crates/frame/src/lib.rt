// The bytes of one frame: the header reader, a tag taken out, a tag written (document 01, "The frame", and document 02,
// orders 1 and 11); `link` has what is read and written of a virtual link's.
#![tactic(auto)]

mod link;

ghost use Rattle.std.specs.Prelude.{◌≡◌, true, ◌+◌, ◌*◌, ◌≤◌, ◌<◌, length};
ghost use Rattle.record.specs.Sizes.{frame_most};
ghost use Rattle.frame.specs.Bytes.{word, overlay};
ghost use Rattle.frame.specs.Frame.{head_of, dest_of, group_source, read_of, tag_bytes, cut_at, tag_at, place_of};
ghost use Rattle.frame.specs.TagCalls.{type_place, said_head, said_read, said_place, said_taken, said_written, take_tag, write_tag, written_without, written_with};

pub use link::{read_link, write_shorter};
use record::Stream;
use refusal::Refusal;

// What stands before a frame's data.
#[derive(Clone, Copy, Debug, PartialEq, Eq)]
pub struct Header {
    // The destination's six bytes as one number, high byte first.
    pub dest: u64,
    pub vlan: u16,
    // The place of the type field: 12, or 16 behind a VLAN tag.
    pub at: usize,
    // Whether F1C1 stands there. (A flag, and no Option beside it: the place counts in both cases, as `head_of` has it.)
    pub tagged: bool,
    pub rank: Rank,
}

// The VLAN tag's three priority bits, 0 to 7, and whether such a tag is there: 1, or 0 and priority 0 (order 11). (A number and no
// bool: it goes to C within an arrival's answer.)
#[repr(C)]
#[derive(Clone, Copy, Debug, Default, PartialEq, Eq)]
pub struct Rank {
    pub priority: u8,
    pub vlantag: u8,
}

// A tagged frame's header and number.
#[derive(Clone, Copy, Debug, PartialEq, Eq)]
pub struct Tag {
    pub header: Header,
    pub number: u16,
}

// A virtual link's destination and number.
#[derive(Clone, Copy, Debug, PartialEq, Eq)]
pub struct LinkTag {
    pub dest: u64,
    pub number: u16,
}

// A tag taken out: its number, and the length of the frame without it. (The bytes stand in the caller's buffer, whose rest keeps its
// values: so the length is told, and no slice is given back.)
#[derive(Clone, Copy, Debug, PartialEq, Eq)]
pub struct Bare {
    pub number: u16,
    pub length: usize,
}

// The two bytes at a place, high byte first.
fn word_at(s: &[u8], at: usize) -> u16
    requires { at + 2 ≤ length s.now }
    ensures { result ≡ word s.now at }
{
    u16::from_be_bytes([s[at], s[at + 1]])
}

// The destination at the start of a frame, as one number.
fn dest_of(s: &[u8]) -> u64
    requires { 6 ≤ length s.now }
    ensures { result ≡ dest_of s.now }
{
    u64::from_be_bytes([0, 0, s[0], s[1], s[2], s[3], s[4], s[5]])
}

// A destination by itself as the same number: what an open is given.
pub fn destination(dest: [u8; 6]) -> u64
    ensures { result ≡ dest_of dest }
{
    dest_of(&dest)
}

// Is the source a group's? A frame that ends before its source has none.
pub fn group_source(frame: &[u8]) -> bool
    ensures { result ≡ group_source frame.now }
{
    if frame.len() < 7 {
        return false;
    }
    frame[6] % 2 == 1
}

// Destination, VLAN id, place of the type field, whether F1C1 stands there, and the priority: the 14 and 18 byte rules only.
pub fn read_head(frame: &[u8]) -> Option<Header>
    ensures { said_head result ≡ head_of frame.now }
{
    if frame.len() < 14 {
        return None;
    }
    let dest = dest_of(frame);
    let first = word_at(frame, 12);
    if first != 0x8100 {
        return Some(Header {
            dest,
            vlan: 0,
            at: 12,
            tagged: first == 0xF1C1,
            rank: Rank::default(),
        });
    }
    if frame.len() < 18 {
        return None;
    }
    let control = word_at(frame, 14);
    let vlan = control % 4096;
    let rank = Rank {
        priority: (control / 8192) as u8,
        vlantag: 1,
    };
    let second = word_at(frame, 16);
    Some(Header {
        dest,
        vlan,
        at: 16,
        tagged: second == 0xF1C1,
        rank,
    })
}

// What an arrival and the call that takes a tag out read of a frame: refusals 3, 4 and 5, or the tag.
pub fn read_tag(frame: &[u8]) -> Result<Tag, Refusal>
    ensures { said_read result ≡ read_of frame.now }
{
    if frame.len() > Stream::FRAME_MOST {
        return Err(Refusal::Long);
    }
    let Some(header) = read_head(frame) else {
        return Err(Refusal::Short);
    };
    if !header.tagged {
        return Err(Refusal::Untagged);
    }
    let at = header.at;
    if frame.len() < at + 8 {
        return Err(Refusal::Short);
    }
    let number = word_at(frame, at + 4);
    Ok(Tag { header, number })
}

// Copies src to the start of dst, through a room of its own: so the compiler knows that src and dst do not overlap, leaves the
// room out and calls memmove once. (Without the room `nippitsun_take_tag` has 307 instructions in place of 80. The bound of src
// stands in three private functions: a type for it would be made at each test, for a copy.)
#[tactic(auto, unfolding(crate::specs::Bytes::overlay))]
fn copy(src: &[u8], dst: &mut [u8])
    requires src_len_bound { length src.now ≤ frame_most }
    requires src_in_bounds { length src.now ≤ length dst.old }
    ensures { dst.new ≡ overlay src.now dst.old }
{
    let n = src.len();
    let mut room = [0u8; Stream::FRAME_MOST];
    room[..n].copy_from_slice(src);
    dst[..n].copy_from_slice(&room[..n]);
}

// The six bytes of a tag, at the start of dst.
#[tactic(auto, unfolding(crate::specs::Bytes::overlay))]
fn write_six(number: u16, dst: &mut [u8])
    requires { 6 ≤ length dst.old }
    ensures { dst.new ≡ overlay (tag_bytes number) dst.old }
{
    let [high, low] = number.to_be_bytes();
    dst[..6].copy_from_slice(&[0xF1, 0xC1, 0, 0, high, low]);
}

// Writes a frame without the tag at a place, 12 or 16, to the start of out: nothing for any other place, or where the bytes
// do not fit.
pub fn write_without(frame: &[u8], at: usize, out: &mut [u8])
    ensures { out.new ≡ written_without frame.now at out.old }
{
    if at == 12 {
        take_out::<12>(frame, out);
    } else if at == 16 {
        take_out::<16>(frame, out);
    }
}

// The same at one place. With a constant for it the front is one or two moves.
fn take_out<const AT: usize>(frame: &[u8], out: &mut [u8])
    requires place { type_place AT ≡ true }
    requires at_bound { AT ≤ 16 }
    ensures { out.new ≡ written_without frame.now AT out.old }
{
    if frame.len() > Stream::FRAME_MOST {
        return;
    }
    if frame.len() < AT + 6 {
        return;
    }
    if out.len() < frame.len() - 6 {
        return;
    }
    cut_at(frame, AT, out);
}

// The frame without the six bytes at a place, at the start of out.
fn cut_at(frame: &[u8], at: usize, out: &mut [u8])
    requires at_in_bounds { at + 6 ≤ length frame.now }
    requires frame_len_bound { length frame.now ≤ frame_most }
    requires frame_in_bounds { length frame.now ≤ length out.old + 6 }
    ensures { out.new ≡ overlay (cut_at frame.now at) out.old }
{
    copy(&frame[..at], out);
    copy(&frame[at + 6..], &mut out[at..]);
}

// Writes a frame with a tag put in at a place, 12 or 16, to the start of out, in the same way. (Not one function with the other: what
// is left out and what is put in have bounds of their own, as `written_without` and `written_with` say. The parameters are as the
// pages name them.)
pub fn write_with(frame: &[u8], at: usize, number: u16, out: &mut [u8])
    ensures { out.new ≡ written_with frame.now at number out.old }
{
    if at == 12 {
        put_in::<12>(frame, number, out);
    } else if at == 16 {
        put_in::<16>(frame, number, out);
    }
}

fn put_in<const AT: usize>(frame: &[u8], number: u16, out: &mut [u8])
    requires place { type_place AT ≡ true }
    requires at_bound { AT ≤ 16 }
    ensures { out.new ≡ written_with frame.now AT number out.old }
{
    if frame.len() > Stream::UNTAGGED_MOST {
        return;
    }
    if frame.len() < AT {
        return;
    }
    if out.len() < frame.len() + 6 {
        return;
    }
    tag_at(frame, AT, number, out);
}

// The frame with a tag put in at a place, at the start of out.
fn tag_at(frame: &[u8], at: usize, number: u16, out: &mut [u8])
    requires at_in_bounds { at ≤ length frame.now }
    requires frame_len_bound { length frame.now ≤ frame_most }
    requires frame_in_bounds { length frame.now + 6 ≤ length out.old }
    ensures { out.new ≡ overlay (tag_at frame.now at number) out.old }
{
    copy(&frame[..at], out);
    write_six(number, &mut out[at..]);
    copy(&frame[at..], &mut out[at + 6..]);
}

// Take a tag out: the frame without its tag, at the start of out.
pub fn take_tag(frame: &[u8], out: &mut [u8]) -> Result<Bare, Refusal>
    ensures result_value { said_taken result ≡ (take_tag frame.now out.old).said }
    ensures out_after { out.new ≡ (take_tag frame.now out.old).bytes }
{
    let tag = read_tag(frame)?;
    let length = frame.len() - 6;
    if out.len() < length {
        return Err(Refusal::Room);
    }
    write_without(frame, tag.header.at, out);
    Ok(Bare {
        number: tag.number,
        length,
    })
}

// Where a tag is put into a frame: refusals 3, 4, 13 and 14, or the place of its type field. (It begins as `read_tag` does: document
// 01 names this form, and the greatest length and the test of the tag are others.)
pub fn place_of(frame: &[u8]) -> Result<usize, Refusal>
    ensures { said_place result ≡ place_of frame.now }
{
    if frame.len() > Stream::UNTAGGED_MOST {
        return Err(Refusal::Long);
    }
    let Some(header) = read_head(frame) else {
        return Err(Refusal::Short);
    };
    if header.tagged {
        return Err(Refusal::Tagged);
    }
    if group_source(frame) {
        return Err(Refusal::Group);
    }
    Ok(header.at)
}

// Write a tag: the frame with a tag put in, at the start of out.
pub fn write_tag(frame: &[u8], number: u16, out: &mut [u8]) -> Result<usize, Refusal>
    ensures result_value { said_written result ≡ (write_tag frame.now number out.old).said }
    ensures out_after { out.new ≡ (write_tag frame.now number out.old).bytes }
{
    let at = place_of(frame)?;
    let len = frame.len() + 6;
    if out.len() < len {
        return Err(Refusal::Room);
    }
    write_with(frame, at, number, out);
    Ok(len)
}
