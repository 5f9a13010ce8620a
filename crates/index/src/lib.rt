// The index beside the table (document 02, order 9): its size, and the place of a key. What an index is, and what the calls
// that take one come to, is in specs/; the walks over table and index are in the crate `receiver`.
#![tactic(auto)]

ghost use Rattle.std.specs.Prelude.{◌≡◌, ◌<◌};
ghost use Rattle.index.specs.Index.{home, places};

use calls::Key;

// How many places an index has. specs/Index.antt has it as places. (An index is bytes beside the table, and no map: the caller lends
// both, and there is no heap.)
pub const PLACES: usize = 128;

// The place of a key. (No sum passes 2^64: each of the two products is below 2^63. The second takes the destination from a bit on that
// begins no byte: so the compiler reads the destination's first four bytes at once, as for a single arrival.)
pub fn home(key: Key) -> usize
    ensures { (result ≡ home key) × (result < places) }
{
    let Key { dest, vlan, .. } = key;
    let low = dest % 4294967296 * 1234164911;
    let high = (dest / 1048576 % 4294967296 + u64::from(vlan) * 65536) * 557513737;
    ((low + high) % 4294967296 / 33554432) as usize
}
