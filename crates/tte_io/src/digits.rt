ghost use Rattle.std.specs.Prelude.{◌≡◌, ◌<◌, decimal, length};

/// How many digits the decimal of a number below 10^8 has.
fn count_below_eight(n: u64) -> usize
    requires { n < 100000000 }
    ensures { result ≡ length (decimal n) }
{
    if n < 10_000 {
        if n < 100 {
            if n < 10 { 1 } else { 2 }
        } else if n < 1_000 {
            3
        } else {
            4
        }
    } else if n < 1_000_000 {
        if n < 100_000 { 5 } else { 6 }
    } else if n < 10_000_000 {
        7
    } else {
        8
    }
}

/// How many digits the decimal of a number has.
pub(crate) fn digit_count(n: u64) -> usize
    ensures { result ≡ length (decimal n) }
{
    if n < 100_000_000 {
        count_below_eight(n)
    } else if n < 10_000_000_000_000_000 {
        8 + count_below_eight(n / 100_000_000)
    } else {
        16 + count_below_eight(n / 10_000_000_000_000_000)
    }
}
