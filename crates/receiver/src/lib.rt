// The table that the caller lends, a slice of stream records, and the index beside it (document 02, order 9). Each function here
// is thin: what is decided of one record is decided by value in the crates below, and of one place in `places`.
#![tactic(auto)]

mod places;

ghost use Rattle.std.specs.Prelude.{◌≡◌, Bool, true, [], ◌<◌, ◌≤◌, leb, ltb, length, set};
ghost use Rattle.refusal.specs.declared.Refusal.TheVariants.{Table};
ghost use Rattle.record.specs.Sizes.{slots_most};
ghost use Rattle.record.specs.declared.Stream.{Stream};
ghost use Rattle.std.specs.Prelude.{if◌then◌else◌};
ghost use Rattle.std.specs.Prelude.{Some, Ok, Err};
ghost use Rattle.stream.specs.Steps.{record_after, record_short};
ghost use Rattle.stream.specs.declared.Weighed.TheVariants.{HandedUp};
ghost use Rattle.calls.specs.Calls.{arriving, linking, opening, closing, resetting, ticking, Meets};
ghost use Rattle.calls.specs.Said.{said_arrival, said_opened, said_done, said_swept};
ghost use Rattle.calls.specs.Steps.{judged, record_of};
ghost use Rattle.calls.specs.Table.{at, found, hears};
ghost use Rattle.calls.specs.Ticks.{sums, ticked_all};
ghost use Rattle.index.specs.Index.{follow, agrees_at, agrees, indexed, rebuilt};
ghost use Rattle.index.specs.Indexed.{MeetsIndexed, MeetsRebuild, unfit_of, told_unfit};
ghost use Rattle.receiver.specs.Seek.{place_as, holder_of, sure_all, differs};

use calls::Key;
pub use calls::{Arrived, Sums, Verdict};
use index::PLACES;
use record::Stream;
use refusal::Refusal;
use stream::{Marks, Weighed};

// The lowest slot whose record passes the test: the search stops at it and yields its place. (Document 01 names the form: a loop over
// slots that yields the lowest matching place by break. A table is a slice, and a slot a place in it: so it is lent, from C too.)
fn find<F: Fn(Stream) -> bool>(t: &[Stream], passes: F) -> Option<usize>
    requires { F.IsAlwaysCallable passes }
    ensures { (p : Stream → Bool) → ((s : Stream) (r : Bool) → F.post passes s r → r ≡ p s) → result ≡ found p t.now }
{
    let mut i = 0;
    loop {
        if t.len() <= i {
            break None;
        }
        if passes(t[i]) {
            break Some(i);
        }
        i += 1;
    }
}

// The record in slot i, and beyond the table a free one.
fn record_at(t: &[Stream], i: usize) -> Stream
    ensures { result ≡ at t.now i }
{
    match t.get(i) {
        Some(s) => *s,
        None => calls::blank(),
    }
}

// A tick of every record: how many streams it reset, and how many records in use are damaged.
fn sweep(t: &mut [Stream]) -> Sums
    ensures { (result ≡ sums t.old) × (t.new ≡ ticked_all t.old) }
{
    let mut sums = Sums::default();
    for s in t.iter_mut() {
        let visited = calls::visit(sums, *s);
        *s = visited.stream;
        sums = visited.sums;
    }
    sums
}

// A record after a frame that is handed up. In a window of at most a word the first word of the history alone is stored.
fn mark_at(t: &mut [Stream], i: usize, network: u8, m: Marks)
    requires { i < length t.old }
    ensures { t.new ≡ set t.old i (if leb (at t.old i).window 64 then record_short (at t.old i) network m else record_after (at t.old i) network (Some (HandedUp m))) }
{
    if stream::is_narrow(t[i]) {
        t[i] = stream::handed_up_short(t[i], network, m);
    } else {
        t[i] = stream::handed_up(t[i], network, m);
    }
}

// One record decided: what the arrival is to it, and the record after it. The record is read again on purpose: so no
// counter is carried over the first step. It is stored in each verdict's arm: so each verdict stores only what it changes,
// and a refused arrival stores nothing.
fn decide_at(
    t: &mut [Stream],
    i: usize,
    network: u8,
    number: u16,
    room: bool,
) -> Result<Weighed, Refusal>
    requires { i < length t.old }
    ensures { (result ≡ judged (at t.old i) number room) × (t.new ≡ set t.old i (record_of (at t.old i) network result)) }
{
    let weighed = calls::judge(t[i], number, room)?;
    match weighed {
        Weighed::HandedUp(m) => mark_at(t, i, network, m),
        Weighed::Duplicate => t[i] = stream::duplicate(t[i], network),
        Weighed::Rogue => t[i] = stream::rogue(t[i], network),
    }
    Ok(weighed)
}

// The same of any slot. Beyond the table `at` gives a blank record, whose settings are out of range: 7. (A batch calls it, so it is
// public and asks for nothing; a single arrival knows its slot, and does without the test.)
pub fn decide_in(
    t: &mut [Stream],
    i: usize,
    network: u8,
    number: u16,
    room: bool,
) -> Result<Weighed, Refusal>
    ensures { (result ≡ judged (at t.old i) number room) × (t.new ≡ set t.old i (record_of (at t.old i) network result)) }
{
    if t.len() <= i {
        return Err(Refusal::Damaged);
    }
    decide_at(t, i, network, number, room)
}

// ---- the index. Table and index are two slices, which the caller lends, and the definitions take both (`indexed`, `MeetsIndexed`).

// Has slot i the key? Beyond the table no slot has one.
fn keyed_at(t: &[Stream], i: usize, key: Key) -> bool
    ensures { result ≡ hears key.link key.dest key.vlan (at t.now i) }
{
    t.get(i).is_some_and(|s| calls::hears(*s, key))
}

// Following from a key: it passes over places that don't name a slot in use with the key, until an empty one or all of them. (Where
// it is called, and not inlined, a frame of a batch takes 50 instructions more.)
#[inline]
pub fn follow(t: &[Stream], index: &[u8], key: Key) -> Option<usize>
    ensures { result ≡ place_as t.now (follow index.now t.now key) }
{
    let from = index::home(key);
    for k in 0..PLACES {
        let i = places::name_at(index, from, k)?;
        if keyed_at(t, i, key) {
            return Some(i);
        }
    }
    None
}

// Is each slot free, or found by the index alone behind names of lower slots?
fn all_sure(t: &[Stream], index: &[u8; PLACES]) -> bool
    ensures { result ≡ sure_all index.now t.now }
{
    t.iter()
        .enumerate()
        .all(|(i, s)| places::sure(index, places::holder_of(*s), i))
}

// The key in slot i, if the slot is in use. Beyond the table none is.
fn holder_at(t: &[Stream], i: usize) -> Option<Key>
    ensures { result ≡ holder_of (at t.now i) }
{
    t.get(i).and_then(|s| places::holder_of(*s))
}

// Does following from slot i's key, if the slot is in use, find a slot that is not above it?
fn agrees_at(t: &[Stream], index: &[u8; PLACES], i: usize) -> bool
    ensures { result ≡ agrees_at index.now t.now i }
{
    match holder_at(t, i) {
        Some(key) => places::not_above(follow(t, index, key), i),
        None => true,
    }
}

fn all_agree(t: &[Stream], index: &[u8; PLACES]) -> bool
    ensures { result ≡ agrees index.now t.now }
{
    (0..t.len()).all(|i| agrees_at(t, index, i))
}

// Index and table agree. The first test looks at the index alone, and says yes of every rebuilt one; where it says no, following
// decides. (Two loops, so that the first has no more in it than it needs: the check is made in every batch.)
fn agreed(t: &[Stream], index: &[u8; PLACES]) -> bool
    ensures { result ≡ agrees index.now t.now }
{
    all_sure(t, index) || all_agree(t, index)
}

// 18, by the agreement.
fn differs(ok: bool) -> Result<(), Refusal>
    ensures { result ≡ differs ok }
{
    if !ok {
        return Err(Refusal::Index);
    }
    Ok(())
}

// 1.
fn table_fits(t: &[Stream]) -> Result<(), Refusal>
    ensures { result ≡ (if ltb slots_most (length t.now) then Err Table else Ok tt) }
{
    if t.len() > Stream::SLOTS_MOST {
        return Err(Refusal::Table);
    }
    Ok(())
}

// 1, then 18. Table and index are read only if their lengths are those of a table and of an index.
pub fn unfit(t: &[Stream], index: &[u8]) -> Result<(), Refusal>
    ensures { told_unfit result ≡ unfit_of index.now t.now }
{
    table_fits(t)?;
    let Some(places) = index.as_array() else {
        return Err(Refusal::Index);
    };
    differs(agreed(t, places))
}

// The index is rebuilt from the table.
fn refill(t: &[Stream], index: &mut [u8; PLACES])
    requires { length t.now ≤ slots_most }
    ensures { index.new ≡ rebuilt t.now }
{
    index.fill(0);
    for (i, s) in t.iter().enumerate() {
        places::enter(index, places::holder_of(*s), i);
    }
}

// ---- the calls
// What a call comes to is `Meets`, and with an index `MeetsIndexed`, for every input. Each asks for 1 before it reads the table: a caller
// whose length is far too great is answered, not overrun. Open, close and reset decide by value, and then store. Their parameters are as
// the README names them, and as C passes them.

// Arrival: 1 to 8, and 14 behind 5. 1 to 5 and 14 are answered before the table is searched, and the room is known before
// anything is marked.
pub fn arrival(
    t: &mut [Stream],
    network: u8,
    frame: &[u8],
    out: &mut [u8],
) -> Result<Arrived, Refusal>
    ensures { Meets t.old (arriving network frame.now out.old) (record { said = said_arrival result; table = t.new; output = out.new }) }
{
    let tag = calls::ask(t.len(), network, frame)?;
    let key = Key {
        dest: tag.header.dest,
        vlan: tag.header.vlan,
        link: false,
    };
    let Some(slot) = find(t, |s| calls::hears(s, key)) else {
        return Err(Refusal::Unknown);
    };
    let room = calls::fits(frame, out);
    let judged = decide_at(t, slot, network, tag.number, room);
    calls::finish(judged, slot, tag, frame, out)
}

// Arrival of a virtual link (document 02, order 10): 1 to 4, 14, 6 to 8, in the same way. (One function for both, and for a batch's,
// would take reader, search and writer as parameters, each with what it promises: that is longer than these six steps.)
pub fn link_arrival(
    t: &mut [Stream],
    network: u8,
    frame: &[u8],
    out: &mut [u8],
) -> Result<Arrived, Refusal>
    ensures { Meets t.old (linking network frame.now out.old) (record { said = said_arrival result; table = t.new; output = out.new }) }
{
    let tag = calls::ask_link(t.len(), network, frame)?;
    let key = Key {
        dest: tag.dest,
        vlan: 0,
        link: true,
    };
    let Some(slot) = find(t, |s| calls::hears(s, key)) else {
        return Err(Refusal::Unknown);
    };
    let room = calls::fits_link(frame, out);
    let judged = decide_at(t, slot, network, tag.number, room);
    calls::finish_link(judged, slot, tag.number, frame, out)
}

// The open as without the index, of a table and an index that agree: 9, 10, 11, and 10 comes by following twice, since a slot of
// either family refuses it. It fills the lowest free slot, closed ones included, with a fresh record, counters zero.
fn open_in(
    t: &mut [Stream],
    index: &[u8; PLACES],
    dest: [u8; 6],
    vlan: u16,
    rule: u8,
    window: u16,
    time: u16,
) -> Result<usize, Refusal>
    requires { (length t.old ≤ slots_most) × (indexed index.now t.old ≡ true) }
    ensures { Meets t.old (opening dest vlan rule window time) (record { said = said_opened result; table = t.new; output = [] }) }
{
    let dest = frame::destination(dest);
    let s = stream::opened(dest, vlan, rule, window, time);
    if !stream::settled(s) {
        return Err(Refusal::Setting);
    }
    let plain = Key {
        dest,
        vlan,
        link: false,
    };
    let link = Key {
        link: true,
        ..plain
    };
    let free = find(t, |s| calls::is_free(s));
    let slot = calls::place(follow(t, index, plain), follow(t, index, link), free)?;
    t[slot] = s;
    Ok(slot)
}

// Open: 1, 18, 9, 10, 11. After a success the index is the rebuilt one; a refused open changes no byte of it. (`unfit` lends
// nothing on, so `as_mut_array` lends the places: an index that is not of 128 is refused before.)
pub fn open(
    t: &mut [Stream],
    index: &mut [u8],
    dest: [u8; 6],
    vlan: u16,
    rule: u8,
    window: u16,
    time: u16,
) -> Result<usize, Refusal>
    ensures { MeetsIndexed index.old t.old (opening dest vlan rule window time) (record { said = said_opened result; table = t.new; index = index.new }) }
{
    unfit(t, index)?;
    let Some(places) = index.as_mut_array() else {
        return Err(Refusal::Index);
    };
    let slot = open_in(t, places, dest, vlan, rule, window, time)?;
    refill(t, places);
    Ok(slot)
}

// The close as without the index: 12. The slot becomes free; its other fields stay. A damaged record can be closed. (It asks for 1
// once more, as `reset` does. The record is read again, as in `decide_at`: out of the answer it would be copied whole, there and back.)
fn close_in(t: &mut [Stream], slot: usize) -> Result<(), Refusal>
    ensures { Meets t.old (closing slot) (record { said = said_done result; table = t.new; output = [] }) }
{
    table_fits(t)?;
    calls::close(t.len(), slot, record_at(t, slot))?;
    t[slot] = stream::closed(t[slot]);
    Ok(())
}

// Close: 1, 18, 12. After a success the index is the rebuilt one; a refused close changes no byte of it.
pub fn close(t: &mut [Stream], index: &mut [u8], slot: usize) -> Result<(), Refusal>
    ensures { MeetsIndexed index.old t.old (closing slot) (record { said = said_done result; table = t.new; index = index.new }) }
{
    unfit(t, index)?;
    let Some(places) = index.as_mut_array() else {
        return Err(Refusal::Index);
    };
    close_in(t, slot)?;
    refill(t, places);
    Ok(())
}

// The index is rebuilt from any table: 1, then 18 if it is not of 128 places.
pub fn rebuild(t: &[Stream], index: &mut [u8]) -> Result<(), Refusal>
    ensures { MeetsRebuild index.old t.now (said_done result) index.new }
{
    table_fits(t)?;
    let Some(places) = index.as_mut_array() else {
        return Err(Refusal::Index);
    };
    refill(t, places);
    Ok(())
}

// Reset: 1, 12, then 7 only if the settings are out of range. Otherwise fresh state, resets rises. (The steps are `close_in`'s around
// another one: a closure for it would bring a clause on what it leaves, which is longer.)
pub fn reset(t: &mut [Stream], slot: usize) -> Result<(), Refusal>
    ensures { Meets t.old (resetting slot) (record { said = said_done result; table = t.new; output = [] }) }
{
    table_fits(t)?;
    let s = calls::reset(t.len(), slot, record_at(t, slot))?;
    t[slot] = s;
    Ok(())
}

// Tick: 1. Every lawful record that has ticks left has one less, and is reset where that gives 0.
pub fn tick(t: &mut [Stream]) -> Result<Sums, Refusal>
    ensures { Meets t.old ticking (record { said = said_swept result; table = t.new; output = [] }) }
{
    table_fits(t)?;
    Ok(sweep(t))
}
