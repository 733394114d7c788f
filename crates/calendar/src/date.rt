// A date by its parts.

// Zeros where there is none, and no Option: so `date_of` of the definitions and of the C interface has it.
#[derive(Clone, Copy)]
pub struct Date {
    pub year: u16,
    pub month: u8,
    // The day of the month.
    pub day: u8,
}
