// Quotients rounded to the nearest whole number, for any kind that counts in whole parts.
ghost use Rattle.std.specs.Prelude.{◌≡◌, ◌≢◌, ◌+◌, ◌^◌, ◌<◌, pos, unsigned_abs};
ghost use Rattle.kinds.specs.Quotients.{rounded};

// The whole number nearest to a / b; of two as near, the one further from zero. `/` drops the fraction, so half of the
// divisor is added before, away from zero. Twice the numbers, (2a + b) / 2b, would take more room.
pub(crate) fn rounded(a: i64, b: i64) -> i64
    requires divisor { b ≢ pos 0 }
    requires room { unsigned_abs a + unsigned_abs b < 2 ^ 63 }
    ensures { result ≡ rounded a b }
{
    let half = b / 2;
    if (a < 0) == (b < 0) {
        (a + half) / b
    } else {
        (a - half) / b
    }
}
