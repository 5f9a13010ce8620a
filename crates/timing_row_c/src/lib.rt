// What the benchmark calls of the crate `timing_row`: an archive of its own.
#![tactic(auto)]

ghost use Rattle.std.specs.Prelude.{◌≡◌};
ghost use Rattle.timing_row.specs.Row.{in_row};

use record::Stream;

// So many arrivals on one network, each with a number that is `step` beyond the last one's.
#[unsafe(no_mangle)]
pub extern "C" fn timing_row(s: Stream, number: u16, step: u16, network: u8, times: u64) -> Stream
    ensures { result ≡ in_row times s number step network }
{
    timing_row::timing_row(s, number, step, network, times)
}
