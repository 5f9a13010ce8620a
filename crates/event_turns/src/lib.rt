// The run over an event file (document 01, "Event file and the program `events`"): it is read in large pieces, what is left
// of a record is kept, and the lines are written as soon as no record is left that can be answered. Nothing that is printed
// depends on how the input is cut into reads.
#![tactic(auto)]

ghost use Rattle.std.specs.Prelude.{ℤ, IfSome, ◌≡◌, false, ◌+◌, ◌-◌, ◌≤◌, ◌<◌, length, take, drop};
ghost use Rattle.event_file.specs.Files.{output};
ghost use Rattle.std.specs.Io.KnownBytes.{ReadConsumes};
ghost use Rattle.event_file.specs.Records.{read_at};
ghost use Rattle.event_run.specs.Run.{Drained};
ghost use Rattle.event_turns.specs.Turns.{Moved, Filled, place_of, left_of, stays, is_whole, after_whole, after_read, Turned, Stops, Ran, starts_one, start_of, version_line, Served, Runs};

use event_run::{Place, Round};
use record::Stream;
use std::io::Read;
use std::os::fd::AsRawFd;

// The descriptor of standard error. A number, since no handle comes this far: `run` takes a reader and a number.
const STDERR_FILENO: i32 = 2;

// Bytes of the input buffer (a record and its length bytes fit, 65537, and a read brings a large piece), and of the lines (a
// line fits, 92).
const INPUT: usize = 262144;

const LINES: usize = 65536;

// The buffers of a run: what was read and is still to be answered, and the lines of a turn.
#[derive(Drop)]
struct Buffers {
    input: [u8; INPUT],
    lines: [u8; LINES],
}

// The descriptors of a run: the one that its reader names, and the one onto which its lines go. The reader and the buffers
// are lent beside it: in one struct with them, each contract would have to say that the two numbers stay.
#[derive(Clone, Copy)]
struct Ends {
    from: i32,
    onto: i32,
}

// Moves the bytes from a place up to another to the front, and answers how many. Where they stand there already, as the front
// of a long record does that comes in small pieces, nothing moves.
fn shift(input: &mut [u8; INPUT], at: usize, to: usize) -> usize
    requires { (at ≤ to) × (to ≤ length input.old) }
    ensures { (result ≡ to - at) × (take result input.new ≡ take result (drop at input.old)) }
{
    if at > 0 {
        input.copy_within(at..to, 0);
    }
    to - at
}

// The descriptor onto which bytes were handed over to be written, how many, and whether they went out. A flag and no `Result`:
// `Turned` and `Handed` of specs/Turns.antt say the other two of bytes that did not go out as well.
#[derive(Clone, Copy, Debug, PartialEq, Eq)]
pub struct Sent {
    pub onto: i32,
    pub wrote: usize,
    pub out: bool,
}

// Hands bytes over to be written, and says so on standard error where they did not go out. That a call is made as it is
// told is what no contract can say, here and in `fill`. It writes onto a number, by the kit's `io`, and not by
// `std::io::Write`: `run` takes any number, as `Runs` says, and of std only a handle writes.
fn hand_over(onto: i32, bytes: &[u8]) -> Sent
    ensures { (result.onto ≡ onto) × (result.wrote ≡ length bytes.now) }
{
    let out = io::write_all(onto, bytes);
    if !out {
        io::write_all(STDERR_FILENO, b"events: cannot write\n");
    }
    Sent {
        onto,
        wrote: bytes.len(),
        out,
    }
}

// What one read brought: the descriptor that it came from, the place up to which the buffer is read now, and the read's
// answer.
#[derive(Clone, Copy)]
struct Piece {
    from: i32,
    to: usize,
    got: std::io::Result<usize>,
}

// One read. Where it fails, standard error says so.
fn read<R: Read>(reader: &mut R, buf: &mut [u8]) -> std::io::Result<usize>
    ensures moved { Moved (length buf.old) result }
    ensures bytes { ReadConsumes (R.remaining reader.old) (R.remaining reader.new) result buf.new }
{
    let got = reader.read(buf);
    if got.is_err() {
        io::write_all(STDERR_FILENO, b"events: cannot read\n");
    }
    got
}

// Reads a piece behind the bytes that are left, by the reader of a descriptor. There is room for one, so that no byte read
// means the end of the input. Where the reader's bytes are known, the piece is the next of them.
fn fill<R: Read>(reader: &mut R, from: i32, input: &mut [u8; INPUT], left: usize) -> Piece
    requires { left < length input.old }
    ensures filled { Filled from left input.old input.new result }
    ensures bytes { ReadConsumes (R.remaining reader.old) (R.remaining reader.new) result.got (drop left input.new) }
{
    let got = read(reader, &mut input[left..]);
    let n = got.unwrap_or(0);
    Piece {
        from,
        to: left + n,
        got,
    }
}

// Where a run is between two turns: the table, the next record's number, and the part of the input buffer, from a place up
// to another, that is still to be answered. The functions ask that the two places are in order, and the type does not hold it:
// `start_of` and `RunsPrint` of specs/Turns.antt speak of a run that starts at 1, up to whatever place. (Places and no slice: a turn
// reads behind them into the same buffer.)
#[derive(Clone, Copy)]
struct Held {
    table: [Stream; 8],
    number: u64,
    at: usize,
    to: usize,
}

// How a run stands after a turn: it goes on, its input has ended, a read or a write has failed, or the numbers for records
// are used up.
#[derive(Clone, Copy, PartialEq, Eq)]
enum Stand {
    Going,
    Ended,
    Failed,
    Used,
}

// What a turn came to: where the run is then, what of the first bytes of the lines was handed over to be written, the
// descriptor that it reads from and what the read answered (0 where it did not read, as `Turned` says), and how the run
// stands.
#[derive(Clone, Copy)]
struct Turn {
    held: Held,
    sent: Sent,
    from: i32,
    got: std::io::Result<usize>,
    stand: Stand,
}

// The records that can be answered, of the part of the input buffer that is held. Nobody reads the output of the arrivals: as an
// array of its own the compiler leaves it out, and as a field of the buffers each frame was copied. (Of two fields that it lends at
// once a caller is not told that they keep the length of their type: the last clause says it.)
fn drain_to(h: Held, input: &[u8; INPUT], lines: &mut [u8; LINES]) -> Round
    requires { (h.at ≤ h.to) × (h.to ≤ length input.now) }
    ensures drained { Drained h.table (place_of h) (take h.to input.now) lines.old output result.table result.place lines.new }
    ensures at_le_to { (result.place.at ≤ h.to) × (result.place.used ≤ length lines.new) }
    ensures room { length lines.new ≡ LINES }
{
    let place = Place {
        number: h.number,
        at: h.at,
        used: 0,
    };
    let mut out = [0; Stream::FRAME_MOST];
    event_run::drain8(h.table, place, &input[..h.to], lines, &mut out)
}

// Does a whole record stand there?
fn whole(input: &[u8], at: usize) -> bool
    ensures { (result ≡ is_whole (read_at input.now at)) × (result ≡ false → length input.now < at + 65537) }
{
    event_file::reader::next(input, at).is_some()
}

// How a run stands after a turn that left a whole record, with this number: it had no room for its line, which is there
// now, or it is the last that has a number.
fn after_whole(number: u64) -> Stand
    ensures { result ≡ after_whole number }
{
    if number < u64::MAX {
        Stand::Going
    } else {
        Stand::Used
    }
}

// How a run stands after a read that answered so.
fn after_read(got: std::io::Result<usize>) -> Stand
    ensures { result ≡ after_read got }
{
    match got {
        Ok(0) => Stand::Ended,
        Ok(_) => Stand::Going,
        Err(_) => Stand::Failed,
    }
}

// One turn: answers what can be answered and writes the lines; then, if no whole record is left, reads a piece more.
fn go_on<R: Read>(reader: &mut R, ends: Ends, h: Held, buffers: &mut Buffers) -> Turn
    requires { (h.at ≤ h.to) × (h.to ≤ length buffers.old.input) }
    ensures turned { Turned ends.from ends.onto h buffers.old.input buffers.new.input buffers.new.lines result }
    ensures at_le_to { (result.held.at ≤ result.held.to) × (result.held.to ≤ length buffers.new.input) }
{
    let Round { table, place } = drain_to(h, &buffers.input, &mut buffers.lines);
    let held = Held {
        table,
        number: place.number,
        at: place.at,
        to: h.to,
    };
    let sent = hand_over(ends.onto, &buffers.lines[..place.used]);
    if !sent.out {
        return stay(held, sent, ends.from, Stand::Failed);
    }
    if whole(&buffers.input[..held.to], held.at) {
        return stay(held, sent, ends.from, after_whole(held.number));
    }
    let left = shift(&mut buffers.input, held.at, held.to);
    let p = fill(reader, ends.from, &mut buffers.input, left);
    Turn {
        held: Held {
            at: 0,
            to: p.to,
            ..held
        },
        sent,
        from: p.from,
        got: p.got,
        stand: after_read(p.got),
    }
}

// A turn that reads nothing.
fn stay(held: Held, sent: Sent, from: i32, stand: Stand) -> Turn
    ensures { result ≡ stays held sent from stand }
{
    Turn {
        held,
        sent,
        from,
        got: Ok(0),
        stand,
    }
}

// What a run came to: the input has ended and the last line was handed over; the version byte is absent or different, and
// `version` was; a read or a write before these has failed; or the numbers for records, or the turns, are used up. One enum
// and no `Result`: `Stops` and `Served` of specs/Turns.antt name the five, and `main` ends alike after each.
#[derive(Clone, Copy, Debug, PartialEq, Eq)]
pub enum Over {
    Printed(Sent),
    Version(Sent),
    Stopped,
    LastNumber,
    LastTurn,
}

// Stops a run as it stands. At the end of the input, where no whole record is left, it writes the last line.
#[tactic(auto, unfolding(crate::specs::Turns::Stops))]
fn finish(onto: i32, h: Held, stand: Stand, lines: &mut [u8; LINES]) -> Over
    requires { h.at ≤ h.to }
    ensures { Stops onto (left_of h) lines.new stand result }
{
    match stand {
        Stand::Ended => {
            let used = event_file::line::say_last(h.to - h.at, lines, 0);
            Over::Printed(hand_over(onto, &lines[..used]))
        }
        Stand::Failed => Over::Stopped,
        Stand::Used => Over::LastNumber,
        Stand::Going => Over::LastTurn,
    }
}

// The table has 8 slots, free at first; records are numbered from 1; the first stands behind the version byte.
fn start(to: usize) -> Held
    ensures { result ≡ start_of to }
{
    Held {
        table: [calls::blank(); 8],
        number: 1,
        at: 1,
        to,
    }
}

// Does the input begin with the version byte, 1?
#[tactic(auto, unfolding(crate::specs::Turns::starts_one))]
fn versioned(input: &[u8]) -> bool
    ensures { result ≡ starts_one input.now }
{
    matches!(input, [1, ..])
}

// All that is printed of an absent or different version byte, at the front of the lines; and how many bytes.
fn say_version(lines: &mut [u8; LINES]) -> usize
    ensures { (result ≡ 8) × (take 8 lines.new ≡ version_line) }
{
    let line = b"version\n";
    lines[..line.len()].copy_from_slice(line);
    line.len()
}

// A proved loop has to end, and nothing says that an input does: there are more turns than any run uses up.
fn turns<R: Read>(reader: &mut R, ends: Ends, h: Held, buffers: &mut Buffers) -> Over
    requires { (h.at ≤ h.to) × (h.to ≤ length buffers.old.input) }
    ensures { Ran ends.from ends.onto h buffers.old.input buffers.new.input buffers.new.lines result }
{
    let mut held = h;
    for _turn in 0..u64::MAX {
        let t = go_on(reader, ends, held, buffers);
        if t.stand != Stand::Going {
            return finish(ends.onto, t.held, t.stand, &mut buffers.lines);
        }
        held = t.held;
    }
    finish(ends.onto, held, Stand::Going, &mut buffers.lines)
}

// Reads a first piece, and goes on where it starts with the version byte.
fn serve<R: Read>(reader: &mut R, ends: Ends, buffers: &mut Buffers) -> Over
    ensures { Served ends.from ends.onto buffers.new.input buffers.new.lines result }
{
    let p = fill(reader, ends.from, &mut buffers.input, 0);
    if p.got.is_err() {
        return Over::Stopped;
    }
    if !versioned(&buffers.input[..p.to]) {
        let used = say_version(&mut buffers.lines);
        return Over::Version(hand_over(ends.onto, &buffers.lines[..used]));
    }
    turns(reader, ends, start(p.to), buffers)
}

// Runs the event file that the reader of a descriptor gives, and writes the lines onto another. No contract can say that the
// bytes go through the descriptors: specs/Turns.antt says what is shown of the turns.
pub fn run<R: Read + AsRawFd>(from: &mut R, onto: i32) -> Over
    ensures runs { (number : ℤ) × Runs number onto result }
    ensures number { IfSome (R.raw_fd from.old) (λ number. Runs number onto result) }
{
    let number = from.as_raw_fd();
    let ends = Ends { from: number, onto };
    let mut buffers = Buffers {
        input: [0; INPUT],
        lines: [0; LINES],
    };
    serve(from, ends, &mut buffers)
}
