// What the library exports to C of the crate `port_tick`: an archive of its own, as that crate says.
#![tactic(auto)]

ghost use Rattle.std.specs.Prelude.{[]};
ghost use Rattle.calls.specs.Calls.{ticking};
ghost use Rattle.port.specs.Answers.{MeetsInC};
ghost use Rattle.port_tick.specs.Tick.{tell_swept};

use port_tick::TickAnswer;
use record::Stream;

// Tick.
#[unsafe(no_mangle)]
pub extern "C" fn nippitsun_tick(table: &mut [Stream]) -> TickAnswer
    ensures { MeetsInC tell_swept table.old ticking result table.new [] }
{
    port_tick::nippitsun_tick(table)
}
