// Search: the standing read of a day, and how many standing days were compared to find it.
ghost use Rattle.std.specs.Prelude.{◌≡◌, length};
ghost use Rattle.register.specs.Area.{area_bytes};
ghost use Rattle.meter.specs.Search.{as_searched, search_in, search_of};

use judge::area::judge_area;
use place::locate;
use reads::search::Search;
use reads::sound::search_day;
use register::area::Layout;
use terms::refusal::Refusal;

fn search_in(area: &[u8], day: u16) -> Result<Search, Refusal>
    requires { length area.now ≡ area_bytes }
    ensures { as_searched result ≡ search_in day area.now }
{
    let judged = judge_area(area, 0, 0)?;
    Ok(search_day(&judged.journal, day))
}

// The read that stands on a day. It is refused as a report is.
pub fn search(register: &[u8], place: u16, day: u16) -> Result<Search, Refusal>
    ensures { as_searched result ≡ search_of place day register.now }
{
    let start = locate(register, place)?;
    let end = start + Layout::AREA_BYTES;
    search_in(&register[start..end], day)
}
