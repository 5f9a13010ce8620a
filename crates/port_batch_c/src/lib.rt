// What the library exports to C of the crate `port_batch`: an archive of its own, as that crate says.
#![tactic(auto)]

ghost use Rattle.batch.specs.Indexed.{MeetsBatchBy};

use batch::Batched;
use record::Stream;

// A batch: the frames stand in one buffer, each behind its length in two bytes, and so do those that are handed up in the
// output.
#[unsafe(no_mangle)]
pub extern "C" fn nippitsun_batch(
    table: &mut [Stream],
    index: &[u8],
    network: u8,
    count: usize,
    frames: &[u8],
    out: &mut [u8],
) -> Batched
    ensures { MeetsBatchBy index.now table.old (record { network = network; count = count; frames = frames.now; out = out.old }) result table.new out.new }
{
    port_batch::nippitsun_batch(table, index, network, count, frames, out)
}
