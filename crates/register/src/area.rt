// The sizes of the register and of what it holds.
#[derive(Clone, Copy)]
pub struct Layout;

impl Layout {
    pub const AREAS: u16 = 64;

    pub const AREA_BYTES: usize = 512;

    pub const REGISTER_BYTES: usize = 32768;

    // An entry of a read: its kind and its body.
    pub const ENTRY_BYTES: usize = 10;
}
