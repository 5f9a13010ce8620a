// Up to 32 frames in one call (document 02, order 3): each is a single arrival, and what these hand up is packed into the
// output. The slot of each is found by the index (order 9).
#![tactic(auto)]

ghost use Rattle.std.specs.Prelude.{◌≡◌, true, false, Some, None, ◌+◌, ◌^◌, ◌≤◌, ◌<◌, length, drop};
ghost use Rattle.std.specs.Prelude.{if◌then◌else◌};
ghost use Rattle.refusal.specs.Checks.{said};
ghost use Rattle.frame.specs.Bytes.{word};
ghost use Rattle.calls.specs.Calls.{arriving, Meets};
ghost use Rattle.calls.specs.Said.{said_arrival};
ghost use Rattle.index.specs.Index.{indexed};
ghost use Rattle.batch.specs.Batch.{frames_most, runs_past};
ghost use Rattle.batch.specs.Indexed.{MeetsBatchBy};
ghost use Rattle.batch.specs.Steps.{begun, from_of, next_frame, told, handed, stops, added, length_put, cursor_after, Fills};

use calls::{ArrivalAnswer, Arrived, Key, Verdict};
use record::Stream;
use refusal::Refusal;

// The most frames of a batch. specs/Batch.antt has it as frames_most.
pub const FRAMES_MOST: usize = 32;

// The answer of a batch: the answer of each frame in its place, all zeros where it was not reached; and how many frames came
// before one that was refused with 8, else the count. Where the call is refused, refusal is the number and the rest is 0. (It
// goes to C as it is, so its array has a number for a length, and the refusal is one.)
#[repr(C)]
#[derive(Clone, Copy)]
pub struct Batched {
    pub answers: [ArrivalAnswer; 32],
    pub frames: usize,
    pub refusal: u8,
}

// Where a batch is. (Places and no slices: `next_frame` and `cursor_after` say them so, and the output is lent anew for each frame.)
#[derive(Clone, Copy, Debug, PartialEq, Eq)]
pub struct Cursor {
    // The place of the next frame's length.
    pub at: usize,
    // How many bytes of the output are packed.
    pub used: usize,
    // How many frames are still to come.
    pub left: usize,
    // How many came before.
    pub frames: usize,
}

// The next frame: where it starts and ends, and from where on the output is its.
#[derive(Clone, Copy, Debug, PartialEq, Eq)]
pub struct Next {
    pub start: usize,
    pub end: usize,
    pub from: usize,
}

// The length that stands at a place. (`frame` reads a number so too: a function that asks for something is not public.)
fn length_at(frames: &[u8], at: usize) -> usize
    requires { at + 2 ≤ length frames.now }
    ensures { (result ≡ word frames.now at) × (result < 65536) }
{
    usize::from(u16::from_be_bytes([frames[at], frames[at + 1]]))
}

// Do the lengths run past the buffer?
fn runs_past(frames: &[u8], count: usize) -> bool
    ensures { result ≡ runs_past count frames.now }
{
    let mut rest = frames;
    for _ in 0..count {
        let Some((size, behind)) = rest.split_first_chunk::<2>() else {
            return true;
        };
        let Some(behind) = behind.get(usize::from(u16::from_be_bytes(*size))..) else {
            return true;
        };
        rest = behind;
    }
    false
}

// A batch: 2, then 15, before any frame is looked at. (1 and 18 come before: `receiver::unfit`.)
fn begin(network: u8, count: usize, frames: &[u8]) -> Result<Cursor, Refusal>
    ensures { said result ≡ begun 0 network count frames.now }
{
    if network > 1 {
        return Err(Refusal::Network);
    }
    if count > FRAMES_MOST {
        return Err(Refusal::Batch);
    }
    if runs_past(frames, count) {
        return Err(Refusal::Batch);
    }
    Ok(Cursor {
        at: 0,
        used: 0,
        left: count,
        frames: 0,
    })
}

// The next frame, while there is one.
fn seek(c: Cursor, frames: &[u8], room: usize) -> Option<Next>
    requires { ((c.at ≤ length frames.now) × (c.used ≤ room)) × (runs_past c.left (drop c.at frames.now) ≡ false) }
    ensures { result ≡ next_frame c frames.now room }
{
    if c.left == 0 {
        return None;
    }
    let start = c.at + 2;
    let size = length_at(frames, c.at);
    let from = from_of(c.used, room);
    Some(Next {
        start,
        end: start + size,
        from,
    })
}

// Behind the two length bytes, or at the end of the output where there is no room for them. (No `min`: the sum might not fit.)
fn from_of(used: usize, room: usize) -> usize
    requires { used ≤ room }
    ensures { result ≡ from_of used room }
{
    if room - used < 2 {
        return room;
    }
    used + 2
}

// The length of a frame that was handed up.
fn handed_up(answer: Result<Arrived, Refusal>) -> Option<usize>
    ensures { result ≡ (if handed (told answer) then Some (told answer).length else None) }
{
    match answer {
        Ok(arrived) => match arrived.verdict {
            Verdict::HandedUp(length) => Some(length),
            _ => None,
        },
        Err(_) => None,
    }
}

// The two length bytes of a frame that was handed up. They are written once its answer is known: a refused frame changes no
// byte.
fn put_length(out: &mut [u8], used: usize, answer: Result<Arrived, Refusal>)
    requires { used + added (told answer) ≤ length out.old }
    ensures { out.new ≡ length_put used (told answer) out.old }
{
    if let Some(length) = handed_up(answer) {
        let [.., high, low] = length.to_be_bytes();
        out[used] = high;
        out[used + 1] = low;
    }
}

// 8 ends the batch.
fn ends(answer: Result<Arrived, Refusal>) -> bool
    ensures { result ≡ stops (told answer) }
{
    match answer {
        Ok(_) => false,
        Err(refusal) => refusal == Refusal::Room,
    }
}

// Where the batch is behind a frame.
fn advance(c: Cursor, end: usize, answer: Result<Arrived, Refusal>) -> Cursor
    requires { (c.used + added (told answer) < 2 ^ 64) × ((0 < c.left) × (c.frames < frames_most)) }
    ensures { result ≡ cursor_after c end (told answer) }
{
    let used = match handed_up(answer) {
        Some(length) => c.used + 2 + length,
        None => c.used,
    };
    if ends(answer) {
        return Cursor {
            at: end,
            used,
            left: 0,
            frames: c.frames,
        };
    }
    Cursor {
        at: end,
        used,
        left: c.left - 1,
        frames: c.frames + 1,
    }
}

// ---- over the table and the buffers

// A single arrival, of a table and an index that agree: its slot is found by following.
fn arrive_by(
    t: &mut [Stream],
    index: &[u8],
    network: u8,
    frame: &[u8],
    out: &mut [u8],
) -> Result<Arrived, Refusal>
    requires { indexed index.now t.old ≡ true }
    ensures { Meets t.old (arriving network frame.now out.old) (record { said = said_arrival result; table = t.new; output = out.new }) }
{
    let tag = calls::ask(t.len(), network, frame)?;
    let key = Key {
        dest: tag.header.dest,
        vlan: tag.header.vlan,
        link: false,
    };
    let Some(slot) = receiver::follow(t, index, key) else {
        return Err(Refusal::Unknown);
    };
    let room = calls::fits(frame, out);
    let judged = receiver::decide_in(t, slot, network, tag.number, room);
    calls::finish(judged, slot, tag, frame, out)
}

// All frames, one after the other, until one is refused with 8: how many came before. The agreement is tested once, before the
// first: no arrival changes it.
fn fill(
    t: &mut [Stream],
    index: &[u8],
    network: u8,
    count: usize,
    frames: &[u8],
    out: &mut [u8],
    answers: &mut [ArrivalAnswer; 32],
) -> Result<usize, Refusal>
    ensures { Fills index.now t.old (record { network = network; count = count; frames = frames.now; out = out.old }) answers.old t.new result out.new answers.new }
{
    receiver::unfit(t, index)?;
    let mut c = begin(network, count, frames)?;
    while let Some(next) = seek(c, frames, out.len()) {
        let answer = arrive_by(
            t,
            index,
            network,
            &frames[next.start..next.end],
            &mut out[next.from..],
        );
        put_length(out, c.used, answer);
        answers[c.frames] = answer.into();
        c = advance(c, next.end, answer);
    }
    Ok(c.frames)
}

// The call: 1, 18, 2, 15. (Its parameters are as the README names them, and as C passes them; so are those of `fill`.)
pub fn batch(
    t: &mut [Stream],
    index: &[u8],
    network: u8,
    count: usize,
    frames: &[u8],
    out: &mut [u8],
) -> Batched
    ensures { MeetsBatchBy index.now t.old (record { network = network; count = count; frames = frames.now; out = out.old }) result t.new out.new }
{
    let mark = ArrivalAnswer::default();
    let mut answers = [mark; 32];
    let filled = fill(t, index, network, count, frames, out, &mut answers);
    let (frames, refusal) = match filled {
        Ok(frames) => (frames, 0),
        Err(refusal) => (0, refusal.into()),
    };
    Batched {
        answers,
        frames,
        refusal,
    }
}
