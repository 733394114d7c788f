// The one way from a register and a place to the area that a call is lent.
#![tactic(auto)]

ghost use Rattle.place.specs.Located.{Locates};

use register::area::Layout;
use terms::refusal::Refusal;

// The byte at which the area of a place starts: 2 for a register of another length, 3 for a place past its last area.
pub fn locate(register: &[u8], place: u16) -> Result<usize, Refusal>
    ensures { Locates place register.now result }
{
    if register.len() != Layout::REGISTER_BYTES {
        return Err(Refusal::Misfit);
    }
    if Layout::AREAS <= place {
        return Err(Refusal::NoMeter);
    }
    Ok(Layout::AREA_BYTES * (place as usize))
}
