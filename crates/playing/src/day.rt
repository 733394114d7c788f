// What a day starts with.
ghost use Rattle.std.specs.Prelude.{◌≡◌};
ghost use Rattle.calls.specs.Play.{zero_register};

use register::area::Layout;

// The register that run A of demand 3 starts from.
#[tactic(auto, unfolding(calls::specs::Play::zero_register))]
pub fn zero_register() -> [u8; Layout::REGISTER_BYTES]
    ensures { result ≡ zero_register }
{
    [0; Layout::REGISTER_BYTES]
}
