// The places of the index (document 02, order 9), by value: what a place says, the test of a slot by the index alone, and a
// slot entered. The walks over table and index are in lib.rt. (That `from` is a place stands in three contracts here: a type for it,
// with its invariant and the number taken out again, would be longer than the three.)
ghost use Rattle.std.specs.Prelude.{◌≡◌, ◌+◌, ◌<◌, ◌^◌};
ghost use Rattle.index.specs.Index.{places, probe};
ghost use Rattle.receiver.specs.Seek.{named_at, holder_of, sure_from, sure_at, not_above, entered_as};

use calls::Key;
use index::PLACES;
use record::Stream;

// The slot that the place names that lies k behind a key's own, round the end. Behind the 128th, and beyond an index that is too
// short, a place is empty.
pub fn name_at(index: &[u8], from: usize, k: usize) -> Option<usize>
    requires { from < places }
    ensures { result ≡ named_at index.now from k }
{
    if k >= PLACES {
        return None;
    }
    let name = usize::from(*index.get((from + k) % PLACES)?);
    if name == 0 {
        return None;
    }
    Some(name - 1)
}

// The key of a slot in use.
pub fn holder_of(s: Stream) -> Option<Key>
    ensures { result ≡ holder_of s }
{
    let key = Key {
        dest: s.dest,
        vlan: s.vlan,
        link: s.rule == Stream::LINK_RULE,
    };
    (s.used != 0).then_some(key)
}

// A free slot, or one that is found from its own place on behind names of lower slots alone. No key is compared, and following
// finds no slot above it. Every slot of a rebuilt index is such.
pub fn sure(index: &[u8; PLACES], holder: Option<Key>, i: usize) -> bool
    requires { i + 1 < 2 ^ 64 }
    ensures { result ≡ sure_at index.now holder i }
{
    match holder {
        Some(key) => sure_from(index, index::home(key), i),
        None => true,
    }
}

fn sure_from(index: &[u8; PLACES], from: usize, i: usize) -> bool
    requires { (from < places) × (i + 1 < 2 ^ 64) }
    ensures { result ≡ sure_from index.now i places from }
{
    for k in 0..PLACES {
        let name = usize::from(index[(from + k) % PLACES]);
        if name == i + 1 {
            return true;
        }
        if name == 0 || name > i {
            return false;
        }
    }
    false
}

// Following found a slot that is not above i.
pub fn not_above(found: Option<usize>, i: usize) -> bool
    ensures { result ≡ not_above found i }
{
    found.is_some_and(|j| j <= i)
}

// The first empty place from a place on, round the end. (A walk of its own beside `sure_from`'s: the two stop at other tests, and answer
// other things.)
fn vacant_from(index: &[u8; PLACES], from: usize) -> usize
    requires { from < places }
    ensures { (result ≡ probe index.now places from) × (result < places) }
{
    for k in 0..PLACES {
        let p = (from + k) % PLACES;
        if index[p] == 0 {
            return p;
        }
    }
    from
}

// Slot i is entered, if it is in use.
pub fn enter(index: &mut [u8; PLACES], holder: Option<Key>, i: usize)
    requires { i < 255 }
    ensures { index.new ≡ entered_as holder i index.old }
{
    if let Some(key) = holder {
        let p = vacant_from(index, index::home(key));
        index[p] = (i + 1) as u8;
    }
}
