// What the library exports to C of the crate `port_prp`: an archive of its own, as that crate says.
#![tactic(auto)]

ghost use Rattle.std.specs.Prelude.{◌≡◌};
ghost use Rattle.prp.specs.Prp.{from_prp, to_prp};
ghost use Rattle.port_prp.specs.Lines.{line_of, tell_turned};

use port_prp::PrpAnswer;

// From PRP.
#[unsafe(no_mangle)]
pub extern "C" fn nippitsun_from_prp(frame: &[u8], kind: u8, out: &mut [u8]) -> PrpAnswer
    ensures value { result ≡ tell_turned (from_prp (line_of kind) frame.now out.old).said }
    ensures out_after { out.new ≡ (from_prp (line_of kind) frame.now out.old).bytes }
{
    port_prp::nippitsun_from_prp(frame, kind, out)
}

// To PRP.
#[unsafe(no_mangle)]
pub extern "C" fn nippitsun_to_prp(frame: &[u8], network: u8, kind: u8, out: &mut [u8]) -> PrpAnswer
    ensures value { result ≡ tell_turned (to_prp (line_of kind) network frame.now out.old).said }
    ensures out_after { out.new ≡ (to_prp (line_of kind) network frame.now out.old).bytes }
{
    port_prp::nippitsun_to_prp(frame, network, kind, out)
}
