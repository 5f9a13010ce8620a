// Reading an event file: where the next record's body is, and what a body says.
ghost use Rattle.std.specs.Prelude.{◌≡◌, ◌+◌, ◌≤◌, ◌<◌, length, None};
ghost use Rattle.frame.specs.Bytes.{word};
ghost use Rattle.event_file.specs.Records.{read_at, event_of, destination_of};

// Where the body of a whole record is: it starts at the first place and ends before the second, where the next record is. (Places and
// no slice: `read_at` counts from the buffer's start, and so does the run.)
#[derive(Clone, Copy, Debug, PartialEq, Eq)]
pub struct Body {
    pub start: usize,
    pub end: usize,
}

// What an open asks for, beside the destination: that is the six bytes behind the kind.
#[derive(Clone, Copy, Debug, PartialEq, Eq)]
pub struct Settings {
    pub vlan: u16,
    pub rule: u8,
    pub window: u16,
    pub time: u16,
}

// What a body asks for.
#[derive(Clone, Copy, Debug, PartialEq, Eq)]
pub enum Event {
    Open(Settings),
    // The slot.
    Close(usize),
    Reset(usize),
    // The network. The frame is the body from its third byte on.
    Arrival(u8),
    Tick,
}

// The kinds, as bytes. (Document 01, "Which form goes where": a match on the kind byte, with ranges for unknown kinds.)
const OPEN: u8 = 1;

const CLOSE: u8 = 2;

const RESET: u8 = 3;

const ARRIVAL: u8 = 4;

const TICK: u8 = 5;

const WIDE_OPEN: u8 = 6;

// The record at a place, or nothing where none is whole yet: fewer than 65537 bytes are left then, since a body has 65535
// at most.
#[tactic(auto, unfolding(crate::specs::Records::read_at))]
pub fn next(s: &[u8], at: usize) -> Option<Body>
    ensures value { result ≡ read_at s.now at }
    ensures s_len_bound { result ≡ None → length s.now < at + 65537 }
{
    let (size, rest) = s.get(at..)?.split_first_chunk::<2>()?;
    let size = usize::from(u16::from_be_bytes(*size));
    if rest.len() < size {
        return None;
    }
    let start = at + 2;
    Some(Body {
        start,
        end: start + size,
    })
}

// The two bytes at a place, high byte first. (`frame` has it too: a function that asks for something is not public.)
fn word_at(s: &[u8], at: usize) -> u16
    requires { at + 2 ≤ length s.now }
    ensures { result ≡ word s.now at }
{
    u16::from_be_bytes([s[at], s[at + 1]])
}

// What a body says, by its first byte, the kind, and its length: nothing for a body of length 0, an unknown kind or a
// wrong length. An open of kind 6 has two bytes for L.
#[tactic(auto, unfolding(crate::specs::Records::event_of))]
pub fn decode(body: &[u8]) -> Option<Event>
    ensures { result ≡ event_of body.now }
{
    match *body.first()? {
        OPEN if body.len() == 13 => Some(Event::Open(Settings {
            vlan: word_at(body, 7),
            rule: body[9],
            window: u16::from(body[10]),
            time: word_at(body, 11),
        })),
        WIDE_OPEN if body.len() == 14 => Some(Event::Open(Settings {
            vlan: word_at(body, 7),
            rule: body[9],
            window: word_at(body, 10),
            time: word_at(body, 12),
        })),
        CLOSE if body.len() == 2 => Some(Event::Close(usize::from(body[1]))),
        RESET if body.len() == 2 => Some(Event::Reset(usize::from(body[1]))),
        ARRIVAL if body.len() >= 2 => Some(Event::Arrival(body[1])),
        TICK if body.len() == 1 => Some(Event::Tick),
        // A wrong length; an unknown kind.
        OPEN..=WIDE_OPEN => None,
        0 | 7..=255 => None,
    }
}

// The destination of an open: the six bytes behind the kind. (A byte beyond the body counts as 0. An array's `map` says what
// each call of its closure gave, and too little of what a call leaves of the closure for this clause to be proved.)
pub fn destination(body: &[u8]) -> [u8; 6]
    ensures { result ≡ destination_of body.now }
{
    let byte = |at: usize| body.get(at).copied().unwrap_or(0);
    [byte(1), byte(2), byte(3), byte(4), byte(5), byte(6)]
}
