// The tick for C. It has a library of its own: in one with the single arrival the compiler would keep what both use once, as a
// function that both call, and a single arrival would take longer (docs/SPEED.md).
#![tactic(auto)]

ghost use Rattle.std.specs.Prelude.{◌≡◌, []};
ghost use Rattle.calls.specs.Calls.{ticking};
ghost use Rattle.calls.specs.Said.{said_swept};
ghost use Rattle.port.specs.Answers.{MeetsInC};
ghost use Rattle.port_tick.specs.Tick.{tell_swept};

use calls::Sums;
use record::Stream;
use refusal::Refusal;

// The answer of a tick. Where it is refused, refusal is the number and the rest is 0; otherwise refusal is 0. (Plain fields, since it
// goes to C.)
#[repr(C)]
#[derive(Clone, Copy, Debug, PartialEq, Eq)]
pub struct TickAnswer {
    pub resets: u64,
    pub damaged: u64,
    pub refusal: u8,
}

impl From<Result<Sums, Refusal>> for TickAnswer {
    ghost from_gives = { λ swept told. told ≡ tell_swept (said_swept swept) };

    fn from(swept: Result<Sums, Refusal>) -> TickAnswer {
        match swept {
            Ok(Sums { resets, damaged }) => TickAnswer {
                resets,
                damaged,
                refusal: 0,
            },
            Err(refusal) => TickAnswer {
                resets: 0,
                damaged: 0,
                refusal: refusal.into(),
            },
        }
    }
}

// Tick.
pub fn nippitsun_tick(table: &mut [Stream]) -> TickAnswer
    ensures { MeetsInC tell_swept table.old ticking result table.new [] }
{
    receiver::tick(table).into()
}
