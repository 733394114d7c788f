// What kind of meter an area holds, and which types of read such a meter takes.
ghost use Rattle.std.specs.Prelude.{◌≡◌};
ghost use Rattle.terms.specs.Profile.{meter_kind, profile_of, takes};

use crate::entry::Kind;
use crate::letter::{Letter, is_known};

#[derive(Clone, Copy)]
pub enum Profile {
    // A dial on the wall.
    Ordinary,
    // A site that has none.
    Pseudo,
}

// The kind byte of its entry in a journal.
pub fn meter_kind(profile: Profile) -> u8
    ensures { result ≡ meter_kind profile }
{
    match profile {
        Profile::Ordinary => Kind::Meter as u8,
        Profile::Pseudo => Kind::Pseudo as u8,
    }
}

// The profile that a kind byte says. Whether it is a meter's at all is asked apart.
pub fn profile_of(kind: u8) -> Profile
    ensures { result ≡ profile_of kind }
{
    if kind == Kind::Pseudo as u8 {
        return Profile::Pseudo;
    }
    Profile::Ordinary
}

// The types that such a meter takes.
pub fn takes(profile: Profile, letter: u8) -> bool
    ensures { result ≡ takes profile letter }
{
    match profile {
        Profile::Ordinary => is_known(letter),
        Profile::Pseudo => (letter == Letter::Initial as u8) | (letter == Letter::Final as u8),
    }
}
