// The batch for C. It has a library of its own: in one with the single arrival the compiler would keep what both use once,
// as a function that both call, and a single arrival would take longer (docs/SPEED.md).
#![tactic(auto)]

ghost use Rattle.batch.specs.Indexed.{MeetsBatchBy};

use batch::Batched;
use record::Stream;

// A batch: the frames stand in one buffer, each behind its length in two bytes, and so do those that are handed up in the
// output.
pub fn nippitsun_batch(
    table: &mut [Stream],
    index: &[u8],
    network: u8,
    count: usize,
    frames: &[u8],
    out: &mut [u8],
) -> Batched
    ensures { MeetsBatchBy index.now table.old (record { network = network; count = count; frames = frames.now; out = out.old }) result table.new out.new }
{
    batch::batch(table, index, network, count, frames, out)
}
