// The arrival of a virtual link for C. It has a library of its own, as the tick has, so that no other call's code changes with it.
#![tactic(auto)]

ghost use Rattle.calls.specs.Calls.{linking};
ghost use Rattle.calls.specs.Told.{tell_arrival};
ghost use Rattle.port.specs.Answers.{MeetsInC};

use calls::ArrivalAnswer;
use record::Stream;

// Arrival of a virtual link.
pub fn nippitsun_link_arrival(
    table: &mut [Stream],
    network: u8,
    frame: &[u8],
    out: &mut [u8],
) -> ArrivalAnswer
    ensures { MeetsInC tell_arrival table.old (linking network frame.now out.old) result table.new out.new }
{
    receiver::link_arrival(table, network, frame, out).into()
}
