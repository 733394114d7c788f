// Enrol: a meter's plate, of either profile, into an area that is all zero.
ghost use Rattle.std.specs.Prelude.{◌≡◌};
ghost use Rattle.terms.specs.Answer.{as_answer};
ghost use Rattle.terms.specs.Refusal.{number_in};
ghost use Rattle.terms.specs.Rule.{first_broken};
ghost use Rattle.calls.specs.Checks.{enrol_checks};
ghost use Rattle.calls.specs.Calls.{plate_of, acted, enrol_in, done, step};

use calls::call::{Call, Reply};
use journal::plate::is_plate;
use place::locate;
use register::area::Layout;
use register::head::{Head, no_carry};
use register::write::put_head;
use terms::answer::Accepted;
use terms::profile::Profile;
use terms::refusal::Refusal;
use zeros::is_zero;

// The head that an enrolment writes.
fn plate(profile: Profile, dials: u8, capacity: u32) -> Head
    ensures { result ≡ plate_of profile dials capacity }
{
    Head {
        profile,
        dials,
        capacity,
        carried: false,
        carry: no_carry(),
    }
}

// 24 for an area that is not all zero, and 25 for a plate that no meter has.
fn check_enrolment(area: &[u8], head: Head) -> Result<(), Refusal>
    ensures { number_in result ≡ first_broken (enrol_checks head area.now) }
{
    if !is_zero(area) {
        return Err(Refusal::Enrolled);
    }
    if !is_plate(head) {
        return Err(Refusal::Plate);
    }
    Ok(())
}

// The call on the area that it names.
fn enrol_in(area: &mut [u8], head: Head) -> Result<Accepted, Refusal>
    ensures { acted (Reply.Answered (as_answer result)) area.new ≡ enrol_in head area.old }
{
    check_enrolment(area, head)?;
    put_head(area, head);
    Ok(Accepted::ZEROS)
}

pub fn enrol(
    register: &mut [u8],
    place: u16,
    profile: Profile,
    dials: u8,
    capacity: u32,
) -> Result<Accepted, Refusal>
    ensures { done (Reply.Answered (as_answer result)) register.new ≡ step (Call.Enrol place profile dials capacity) register.old }
{
    let start = locate(register, place)?;
    let end = start + Layout::AREA_BYTES;
    enrol_in(&mut register[start..end], plate(profile, dials, capacity))
}
