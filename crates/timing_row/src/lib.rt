// Decisions in a row on one record, exported for the benchmark alone: so a decision is measured without the cost of a call.
#![tactic(auto)]

ghost use Rattle.std.specs.Prelude.{◌≡◌};
ghost use Rattle.timing_row.specs.Row.{in_row};

use record::Stream;

// So many arrivals on one network, each with a number that is `step` beyond the last one's.
pub fn timing_row(s: Stream, number: u16, step: u16, network: u8, times: u64) -> Stream
    ensures { result ≡ in_row times s number step network }
{
    let mut t = s;
    let mut n = number;
    for _ in 0..times {
        t = stream::next(t, network, stream::weigh(t, n));
        n = n.wrapping_add(step);
    }
    t
}
