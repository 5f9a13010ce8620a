// The line that answers a record (document 01, "Event file and the program `events`"): numbers, letters and words.
ghost use Rattle.std.specs.Prelude.{◌≡◌, ◌≤◌, length};
ghost use Rattle.refusal.specs.Numbers.{number_of};
ghost use Rattle.refusal.specs.Checks.Said.{answers};
ghost use Rattle.calls.specs.Calls.{Answer, arrived, placed, done, swept};
ghost use Rattle.calls.specs.Said.{said_verdict};
ghost use Rattle.event_file.specs.Text.{decimal_of};
ghost use Rattle.event_file.specs.Lines.{pair_of, verdict_word, priority_of, answer_of, line_of, told, last_line, letter_of, said_by, said_reply, said_told};
ghost use Rattle.event_file.specs.Buffers.{Writes, line_most, last_most};
ghost use Rattle.event_file.specs.Writer.{Adds};

use crate::writer::Writer;
use calls::{Arrived, Sums, Verdict};
use refusal::Refusal;

// The answer of the call that a record asked for. (An enum that holds what each call answers: `letter` and `write_reply` ask it.)
#[derive(Clone, Copy, Debug, PartialEq, Eq)]
pub enum Reply {
    Open(Result<usize, Refusal>),
    Close(Result<(), Refusal>),
    Reset(Result<(), Refusal>),
    Arrival(Result<Arrived, Refusal>),
    Tick(Result<Sums, Refusal>),
}

// A line takes no more bytes than this, and the last line this many.
pub const LINE: usize = 92;

pub const LAST: usize = 4;

// A refusal's number as it is printed. (Document 01, "Which form goes where": a match on refusal numbers for printing. Each arm
// writes its own bytes: a text of known length is a store or two, and one of unknown length a call of memcpy. It is inlined, as
// `write_result` and `answered` are: a writer that is lent to a call has to be in memory.)
#[tactic(auto, unfolding(crate::specs::Text::decimal_of, crate::specs::Text::digits_of))]
#[inline(always)]
fn in_digits(refusal: Refusal, to: &mut Writer)
    ensures { Adds 2 (decimal_of (number_of refusal)) to.old to.new }
{
    match refusal {
        Refusal::Table => to.text(b"1"),
        Refusal::Network => to.text(b"2"),
        Refusal::Long => to.text(b"3"),
        Refusal::Short => to.text(b"4"),
        Refusal::Untagged => to.text(b"5"),
        Refusal::Unknown => to.text(b"6"),
        Refusal::Damaged => to.text(b"7"),
        Refusal::Room => to.text(b"8"),
        Refusal::Setting => to.text(b"9"),
        Refusal::Taken => to.text(b"10"),
        Refusal::Full => to.text(b"11"),
        Refusal::Slot => to.text(b"12"),
        Refusal::Tagged => to.text(b"13"),
        Refusal::Group => to.text(b"14"),
        Refusal::Batch => to.text(b"15"),
        Refusal::Trailer => to.text(b"16"),
        Refusal::Index => to.text(b"18"),
    }
}

fn verdict_word(v: Verdict, to: &mut Writer)
    ensures { Adds 5 (verdict_word (said_verdict v)) to.old to.new }
{
    match v {
        Verdict::HandedUp(_) => to.text(b"up"),
        Verdict::Duplicate => to.text(b"dup"),
        Verdict::Rogue => to.text(b"rogue"),
    }
}

// Two numbers, parted by a space.
fn pair(a: u64, b: u64, to: &mut Writer)
    ensures { Adds 41 (pair_of a b) to.old to.new }
{
    to.number(a);
    to.text(b" ");
    to.number(b);
}

// The priority, of a frame that is handed up (document 02, order 11).
fn priority(a: Arrived, to: &mut Writer)
    ensures { Adds 21 (priority_of (said_verdict a.verdict) a.rank.priority) to.old to.new }
{
    if let Verdict::HandedUp(_) = a.verdict {
        to.text(b" ");
        to.number(u64::from(a.rank.priority));
    }
}

// What a call answers where it does not refuse.
trait Worded {
    // What document 01 says of it.
    ghost said: { Self → Answer };

    fn print(self, to: &mut Writer)
        ensures { Adds 68 (answer_of (answers (said self))) to.old to.new };
}

// The slot.
impl Worded for usize {
    ghost said = { placed };

    fn print(self, to: &mut Writer) {
        to.number(self as u64);
    }
}

impl Worded for () {
    ghost said = { λ _. done };

    fn print(self, to: &mut Writer) {
        to.text(b"ok");
    }
}

impl Worded for Arrived {
    ghost said = { λ a. arrived a.slot a.number a.rank (said_verdict a.verdict) };

    fn print(self, to: &mut Writer) {
        verdict_word(self.verdict, to);
        to.text(b" ");
        pair(self.slot as u64, u64::from(self.number), to);
        priority(self, to);
    }
}

impl Worded for Sums {
    ghost said = { λ s. swept s.resets s.damaged };

    fn print(self, to: &mut Writer) {
        pair(self.resets, self.damaged, to);
    }
}

// What a call answers, or `no` and the number of its refusal.
#[inline(always)]
fn write_result<A: Worded>(a: Result<A, Refusal>, to: &mut Writer)
    ensures { Adds 68 (answer_of (said_by A.said a)) to.old to.new }
{
    match a {
        Ok(a) => a.print(to),
        Err(refusal) => {
            to.text(b"no ");
            in_digits(refusal, to);
        }
    }
}

fn letter(r: Reply) -> u8
    ensures { result ≡ letter_of r }
{
    match r {
        Reply::Open(_) => b'O',
        Reply::Close(_) => b'C',
        Reply::Reset(_) => b'R',
        Reply::Arrival(_) => b'A',
        Reply::Tick(_) => b'T',
    }
}

// The line of a record that asked for a call: its number, the letter of the call, the answer.
#[inline(always)]
fn answered<A: Worded>(number: u64, letter: u8, a: Result<A, Refusal>, to: &mut Writer)
    ensures { Adds line_most (line_of number (told letter (said_by A.said a))) to.old to.new }
{
    to.number(number);
    to.text(&[b' ', letter, b' ']);
    write_result(a, to);
    to.text(b"\n");
}

// (Each arm writes its whole line: where the number came first, all words of the reply were kept over it.)
fn write_reply(number: u64, r: Reply, to: &mut Writer)
    ensures { Adds line_most (line_of number (told (letter_of r) (said_reply r))) to.old to.new }
{
    match r {
        Reply::Open(a) => answered(number, letter(r), a, to),
        Reply::Close(a) => answered(number, letter(r), a, to),
        Reply::Reset(a) => answered(number, letter(r), a, to),
        Reply::Arrival(a) => answered(number, letter(r), a, to),
        Reply::Tick(a) => answered(number, letter(r), a, to),
    }
}

// The line of a record: its number, a letter and the answer of the call that it asked for, or that it is bad.
fn line(number: u64, told: Option<Reply>, to: &mut Writer)
    ensures { Adds line_most (line_of number (said_told told)) to.old to.new }
{
    match told {
        Some(reply) => write_reply(number, reply, to),
        None => {
            to.number(number);
            to.text(b" bad\n");
        }
    }
}

// Writes the line of a record at a place, and answers the place behind it. Where there may not be room for it, it writes
// nothing, and answers the place itself. Of a bad record nothing is told.
pub fn say(number: u64, told: Option<Reply>, buf: &mut [u8], at: usize) -> usize
    ensures { Writes line_most (line_of number (said_told told)) at buf.old buf.new result }
{
    if buf.len().saturating_sub(at) < LINE {
        return at;
    }
    let mut to = Writer { buf, at };
    line(number, told, &mut to);
    to.at
}

// The last line, when so many bytes are left behind the last whole record: `end` if none is, `cut` otherwise.
#[tactic(auto, unfolding(crate::specs::Lines::last_line))]
fn last(left: usize) -> &'static [u8]
    ensures value { result.now ≡ last_line left }
    ensures short { length result.now ≤ last_most }
{
    if left == 0 { b"end\n" } else { b"cut\n" }
}

// Writes the last line at a place, as `say` does a record's. (Each tests the room for itself: a function that made the writer
// for both would have to say what becomes of the buffer that it was lent, which is longer than the test.)
pub fn say_last(left: usize, buf: &mut [u8], at: usize) -> usize
    ensures { Writes last_most (last_line left) at buf.old buf.new result }
{
    if buf.len().saturating_sub(at) < LAST {
        return at;
    }
    let mut to = Writer { buf, at };
    to.text(last(left));
    to.at
}
