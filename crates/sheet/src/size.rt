// How long a sheet may be.
ghost use Rattle.std.specs.Prelude.{◌≡◌, ◌+◌, length};
ghost use Rattle.sheet.specs.Sheet.{sheet_most};

pub const SHEET_MOST: usize = 60000;

// Room for one byte more than a sheet may have, so that a longer one shows.
pub const SHEET_ROOM: usize = SHEET_MOST + 1;

pub fn room_for_sheet() -> [u8; SHEET_ROOM]
    ensures { length result ≡ sheet_most + 1 }
{
    [0; SHEET_ROOM]
}
