// PRP lines for C (document 02, order 7). A library of its own, as batch and tick have: so no other call's code changes.
#![tactic(auto)]

ghost use Rattle.std.specs.Prelude.{◌≡◌};
ghost use Rattle.prp.specs.Prp.{trailer_of, from_prp, to_prp, said_turned};
ghost use Rattle.port_prp.specs.Lines.{line_of, tell_turned};

use prp::{Kind, Turned};
use refusal::Refusal;

// The answer of a turn. Where it is refused, refusal is the number and the rest is 0; otherwise refusal is 0. (Plain fields, since it
// goes to C.)
#[repr(C)]
#[derive(Clone, Copy, Debug, PartialEq, Eq)]
pub struct PrpAnswer {
    pub length: usize,
    pub number: u16,
    pub network: u8,
    pub refusal: u8,
}

impl From<Result<Turned, Refusal>> for PrpAnswer {
    ghost from_gives = { λ turned told. told ≡ tell_turned (said_turned turned) };

    fn from(turned: Result<Turned, Refusal>) -> PrpAnswer {
        match turned {
            Ok(
                Turned {
                    network,
                    number,
                    length,
                },
            ) => PrpAnswer {
                length,
                number,
                network,
                refusal: 0,
            },
            Err(refusal) => PrpAnswer {
                length: 0,
                number: 0,
                network: 0,
                refusal: refusal.into(),
            },
        }
    }
}

// The line's setting: every byte is one of the two kinds. (No `From`: neither type is this crate's. The setting comes from C.)
#[tactic(auto, unfolding(crate::specs::Lines::line_of))]
fn kind_of(setting: u8) -> Kind
    ensures { trailer_of result ≡ line_of setting }
{
    if setting == 0 {
        return Kind::First;
    }
    Kind::Of2012
}

// From PRP.
pub fn nippitsun_from_prp(frame: &[u8], kind: u8, out: &mut [u8]) -> PrpAnswer
    ensures value { result ≡ tell_turned (from_prp (line_of kind) frame.now out.old).said }
    ensures out_after { out.new ≡ (from_prp (line_of kind) frame.now out.old).bytes }
{
    prp::from_prp(frame, kind_of(kind), out).into()
}

// To PRP.
pub fn nippitsun_to_prp(frame: &[u8], network: u8, kind: u8, out: &mut [u8]) -> PrpAnswer
    ensures value { result ≡ tell_turned (to_prp (line_of kind) network frame.now out.old).said }
    ensures out_after { out.new ≡ (to_prp (line_of kind) network frame.now out.old).bytes }
{
    prp::to_prp(frame, network, kind_of(kind), out).into()
}
