// The records of an event file that stand in a buffer, and the lines that answer them (document 01, "Event file and the
// program `events`"). Reading the buffer and writing the lines is for the crate `event_turns`.
#![tactic(auto)]

ghost use Rattle.std.specs.Prelude.{◌≡◌, []};
ghost use Rattle.calls.specs.Calls.{opening, closing, Meets};
ghost use Rattle.calls.specs.Said.{said_opened, said_done};
ghost use Rattle.event_run.specs.Run.{next_of, Handled, Noted, Drains};

use event_file::line::{LINE, Reply};
use event_file::reader::{Body, Event, Settings};
use record::Stream;
use refusal::Refusal;

// Where a run is: the next record's number and its place in the input, and how many bytes of lines wait. (Places and no slices: both
// buffers are lent anew for each turn, and `Drained` counts from their starts.)
#[derive(Clone, Copy, Debug, PartialEq, Eq)]
pub struct Place {
    pub number: u64,
    pub at: usize,
    pub used: usize,
}

// The next record that can be answered, with so much room for lines: it is whole, there is room for its line, and there is
// a number for the one after it.
#[tactic(auto, unfolding(crate::specs::Run::next_of))]
fn seek(p: Place, input: &[u8], room: usize) -> Option<Body>
    ensures { result ≡ next_of p input.now room }
{
    if room.saturating_sub(p.used) < LINE || p.number == u64::MAX {
        return None;
    }
    event_file::reader::next(input, p.at)
}

// The line of a record that ends at a place, behind those that wait, and where the run is then.
fn note(p: Place, end: usize, told: Option<Reply>, lines: &mut [u8]) -> Place
    ensures { Noted p end told lines.old lines.new result }
{
    Place {
        number: p.number.wrapping_add(1),
        at: end,
        used: event_file::line::say(p.number, told, lines, p.used),
    }
}

// ---- open and close without an index, which document 01 does not know (document 02, order 9)
// Each makes an index of its own, which is rebuilt from the table before the call: so 18 is never given. What the rebuild
// answers is not looked at, since the call gives 1 by itself. (One function for both would take the call as a closure, and
// its clause would say what a call leaves of the table and of the index: that is longer than these two lines, twice.)

fn open_here(table: &mut [Stream], dest: [u8; 6], s: Settings) -> Result<usize, Refusal>
    ensures { Meets table.old (opening dest s.vlan s.rule s.window s.time) (record { said = said_opened result; table = table.new; output = [] }) }
{
    let mut index = [0; 128];
    let _ = receiver::rebuild(table, &mut index);
    receiver::open(table, &mut index, dest, s.vlan, s.rule, s.window, s.time)
}

fn close_here(table: &mut [Stream], slot: usize) -> Result<(), Refusal>
    ensures { Meets table.old (closing slot) (record { said = said_done result; table = table.new; output = [] }) }
{
    let mut index = [0; 128];
    let _ = receiver::rebuild(table, &mut index);
    receiver::close(table, &mut index, slot)
}

// ---- the answer of one record

// The call that the body asks for is made with the table, and its answer is told. A bad body asks for none. (A match, since an event
// is an enum that holds what each call takes, and a reply one that holds what each answers. Each arm gives the whole answer: under
// one `Some` for all, its words were put together and taken apart again for each record.)
fn handle(table: &mut [Stream], body: &[u8], out: &mut [u8]) -> Option<Reply>
    ensures { Handled table.old body.now out.old table.new result out.new }
{
    let event = event_file::reader::decode(body)?;
    match event {
        Event::Open(s) => Some(Reply::Open(open_here(
            table,
            event_file::reader::destination(body),
            s,
        ))),
        Event::Close(slot) => Some(Reply::Close(close_here(table, slot))),
        Event::Reset(slot) => Some(Reply::Reset(receiver::reset(table, slot))),
        Event::Arrival(network) => Some(Reply::Arrival(receiver::arrival(
            table,
            network,
            &body[2..],
            out,
        ))),
        Event::Tick => Some(Reply::Tick(receiver::tick(table))),
    }
}

// All records that can be answered: each is answered, and its line is noted.
fn drain(
    table: &mut [Stream],
    mut p: Place,
    input: &[u8],
    lines: &mut [u8],
    out: &mut [u8],
) -> Place
    ensures { Drains table.old p input.now lines.old out.old table.new result lines.new out.new }
{
    while let Some(body) = seek(p, input, lines.len()) {
        let told = handle(table, &input[body.start..body.end], out);
        p = note(p, body.end, told, lines);
    }
    p
}

// The table after the records of a buffer, and where the run is then.
#[derive(Clone, Copy)]
pub struct Round {
    pub table: [Stream; 8],
    pub place: Place,
}

// `drain` with a table of 8 by value, as the run above keeps it: it is lent once for a whole buffer. (Place, input, lines and output
// one by one, as `Drains` takes them.)
pub fn drain8(
    mut table: [Stream; 8],
    p: Place,
    input: &[u8],
    lines: &mut [u8],
    out: &mut [u8],
) -> Round
    ensures { Drains table p input.now lines.old out.old result.table result.place lines.new out.new }
{
    let place = drain(&mut table, p, input, lines, out);
    Round { table, place }
}
