// What the benchmark calls of the crate `timing`: an archive of its own.
#![tactic(auto)]

ghost use Rattle.std.specs.Prelude.{◌≡◌};
ghost use Rattle.timing.specs.Decided.{decided_of};

use record::Stream;
use timing::Decided;

// One arrival.
#[unsafe(no_mangle)]
pub extern "C" fn timing_decide(s: Stream, number: u16, network: u8) -> Decided
    ensures { result ≡ decided_of s number network }
{
    timing::timing_decide(s, number, network)
}
