// The one product by which daily rates are compared.
ghost use Rattle.std.specs.Prelude.{◌≡◌};
ghost use Rattle.arithmetic.specs.Inner.Bounds.{Within, advance_most};
ghost use Rattle.rules.specs.Detection.{scaled_of};

// k × a × (later − earlier).
pub(crate) fn scaled(k: u8, a: i64, later: u16, earlier: u16) -> i64
    requires { Within a advance_most }
    ensures { result ≡ scaled_of k a later earlier }
{
    (k as i64) * a * ((later as i64) - (earlier as i64))
}
