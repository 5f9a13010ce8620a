// An arrival's answer in plain fields.
ghost use Rattle.std.specs.Prelude.{◌≡◌};
ghost use Rattle.calls.specs.Said.{said_arrival};
ghost use Rattle.calls.specs.Told.{tell_arrival};

use super::{ArrivalAnswer, Arrived, Verdict};
use refusal::Refusal;

impl From<Result<Arrived, Refusal>> for ArrivalAnswer {
    ghost from_gives = { λ answer told. told ≡ tell_arrival (said_arrival answer) };

    fn from(answer: Result<Arrived, Refusal>) -> ArrivalAnswer {
        match answer {
            Ok(arrival) => {
                let (verdict, length) = match arrival.verdict {
                    Verdict::HandedUp(length) => (1, length),
                    Verdict::Duplicate => (2, 0),
                    Verdict::Rogue => (3, 0),
                };
                ArrivalAnswer {
                    slot: arrival.slot,
                    length,
                    number: arrival.number,
                    verdict,
                    refusal: 0,
                    rank: arrival.rank,
                }
            }
            Err(refusal) => ArrivalAnswer {
                refusal: refusal.into(),
                ..ArrivalAnswer::default()
            },
        }
    }
}
