// The fixed table of powers that document 01 names, 10^0 to 10^9.
ghost use Rattle.std.specs.Prelude.{◌≡◌, ◌-◌};
ghost use Rattle.arithmetic.specs.Powers.{ten_to};

const POWERS: [u64; 10] = [
    1, 10, 100, 1000, 10000, 100000, 1000000, 10000000, 100000000, 1000000000,
];

// 10^n, and 0 past the table's end.
pub fn power(n: u8) -> u64
    ensures { result ≡ ten_to n }
{
    POWERS.get(n as usize).copied().unwrap_or(0)
}

// 10^(n − 2), the unit in which the marks near a turn of the dials are counted.
pub fn mark_unit(n: u8) -> u64
    ensures { result ≡ ten_to (n - 2) }
{
    power(n.saturating_sub(2))
}
