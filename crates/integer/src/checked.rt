// Arithmetic whose results are below 2^62 in size, or none. Each step of a long
// calculation is then exact, or says that it is not, and nothing ever wraps.
// The limit is a power of two below what an i64 can hold, so that the sum or
// the difference of two results fits an i64 too.
ghost use Rattle.integer.specs.Checked.{checked};
ghost use Rattle.integer.specs.Floors.{floor_of};
ghost use Rattle.std.specs.Prelude.{◌≡◌, pos, ◌+ℤ◌, ◌-ℤ◌, ◌*ℤ◌, ◌≤ℤ◌, ◌<ℤ◌, IfSome};

// Each number that is given out is below this in size.
const LIMIT: u64 = 1 << 62;

// The number itself, or none where it is 2^62 or more in size.
pub fn in_range(a: i64) -> Option<i64>
    ensures value { result ≡ checked a }
{
    (a.unsigned_abs() < LIMIT).then_some(a)
}

// Three functions: what they share is in_range, and all that is left of each is its operation.

// The exact sum, or none where it is 2^62 or more in size.
pub fn sum(a: i64, b: i64) -> Option<i64>
    ensures value { result ≡ checked (a +ℤ b) }
{
    in_range(a.checked_add(b)?)
}

// The exact difference, or none where it is 2^62 or more in size.
pub fn difference(a: i64, b: i64) -> Option<i64>
    ensures value { result ≡ checked (a -ℤ b) }
{
    in_range(a.checked_sub(b)?)
}

// The exact product, or none where it is 2^62 or more in size.
pub fn product(a: i64, b: i64) -> Option<i64>
    ensures value { result ≡ checked (a *ℤ b) }
{
    in_range(a.checked_mul(b)?)
}

// The quotient rounded down, also below 0 (`/` rounds towards 0), or none
// where the divisor is not above 0.
pub fn floor_quotient(a: i64, d: i64) -> Option<i64>
    ensures value { result ≡ floor_of a d }
    ensures between { IfSome result (λ q. ((q *ℤ d) ≤ℤ a) × (a <ℤ ((q +ℤ pos 1) *ℤ d))) }
{
    (d > 0).then(|| a.div_euclid(d))
}
