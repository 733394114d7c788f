// Journal: the meter's part of the caller's own register.
ghost use Rattle.std.specs.Prelude.{◌≡◌, length};
ghost use Rattle.register.specs.Area.{area_bytes};
ghost use Rattle.calls.specs.Calls.{length_in, journal_length};
ghost use Rattle.meter.specs.Part.{Part};

use judge::area::judge_area;
use place::locate;
use register::area::Layout;
use register::head::offset_after;

// How long an area's journal is, and 0 where there is none.
fn length_in(area: &[u8]) -> usize
    requires { length area.now ≡ area_bytes }
    ensures { result ≡ length_in area.now }
{
    match judge_area(area, 0, 0) {
        Ok(judged) => {
            let t = judged.journal.summary;
            offset_after(t.head, t.entries) as usize
        }
        Err(_) => 0,
    }
}

// How long the part is: from the area's start to the last entry's end, and 0 where report refuses.
pub fn journal_length(register: &[u8], place: u16) -> usize
    ensures { result ≡ journal_length place register.now }
{
    match locate(register, place) {
        Ok(start) => {
            let end = start + Layout::AREA_BYTES;
            length_in(&register[start..end])
        }
        Err(_) => 0,
    }
}

// The meter's own part: its bytes lie in the register that was lent, from 512 × place on.
pub fn journal(register: &[u8], place: u16) -> &[u8]
    ensures { Part place register.now register.entry.ref_ptr result.now result.ref_ptr }
{
    let size = journal_length(register, place);
    if size == 0 {
        return &register[0..0];
    }
    let from = Layout::AREA_BYTES * (place as usize);
    let to = from + size;
    &register[from..to]
}
