ghost use Rattle.std.specs.Prelude.{◌≡◌};
ghost use Rattle.audit_law.specs.law.FirstDebts.{earlier_of};

/// The earlier of two times, as far as there are such.
pub fn earlier_of(first: Option<u64>, second: Option<u64>) -> Option<u64>
    ensures { result ≡ earlier_of first second }
{
    match (first, second) {
        (None, other) => other,
        (Some(time), None) => Some(time),
        (Some(time), Some(other)) => Some(time.min(other)),
    }
}
