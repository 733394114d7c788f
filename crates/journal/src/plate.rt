// The plate of a meter: its dials and its capacity.
ghost use Rattle.std.specs.Prelude.{◌&&◌, ◌≡◌, eqb};
ghost use Rattle.terms.specs.Profile.{meter_kind};
ghost use Rattle.journal.specs.Plates.{PlatesHold};
ghost use Rattle.journal.specs.Sound.{is_plate};

use register::head::Head;
use terms::profile::meter_kind;

// The dials that a meter may have.
#[derive(Clone, Copy)]
pub struct Dials;

impl Dials {
    pub const LEAST: u8 = 3;

    pub const MOST: u8 = 9;
}

// Dials and a capacity that a meter may have.
pub fn is_plate(head: Head) -> bool
    ensures { result ≡ is_plate head }
{
    (Dials::LEAST <= head.dials) & ((head.dials <= Dials::MOST) & !(head.capacity == 0))
}

// A meter's first byte and its head: the kind of its profile, and a plate that it may have.
pub fn is_meter(kind: u8, head: Head) -> bool
    ensures { result ≡ eqb kind (meter_kind head.profile) && is_plate head }
{
    let profile = head.profile;
    (kind == meter_kind(profile)) & is_plate(head)
}

// Does nothing: its contract is the claim about the examples of plates.
pub fn plates_hold()
    ensures { PlatesHold }
{}
