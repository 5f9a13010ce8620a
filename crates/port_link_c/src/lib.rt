// What the library exports to C of the crate `port_link`: an archive of its own, as that crate says.
#![tactic(auto)]

ghost use Rattle.calls.specs.Calls.{linking};
ghost use Rattle.calls.specs.Told.{tell_arrival};
ghost use Rattle.port.specs.Answers.{MeetsInC};

use calls::ArrivalAnswer;
use record::Stream;

// Arrival of a virtual link.
#[unsafe(no_mangle)]
pub extern "C" fn nippitsun_link_arrival(
    table: &mut [Stream],
    network: u8,
    frame: &[u8],
    out: &mut [u8],
) -> ArrivalAnswer
    ensures { MeetsInC tell_arrival table.old (linking network frame.now out.old) result table.new out.new }
{
    port_link::nippitsun_link_arrival(table, network, frame, out)
}
