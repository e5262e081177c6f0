// Fields as a caller hands them in.
ghost use Rattle.std.specs.Prelude.{◌≡◌};
ghost use Rattle.market.specs.Fields.{in_range};

// Whether a field is within limits.
pub fn in_range(value: i64, low: i64, high: i64) -> bool
    ensures { result ≡ in_range low high value }
{
    (low..=high).contains(&value)
}
