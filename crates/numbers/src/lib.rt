// The three leaves of the arithmetic: nearest whole number, root, a double as a whole number. Each is defined on every input.
#![tactic(auto)]

ghost use Rattle.std.specs.Prelude.{◌≡◌, ◌+◌, ◌*◌, ◌^◌, ◌≤◌, ◌<◌, nat_abs};
ghost use Rattle.numbers.specs.Near as N;
ghost use Rattle.numbers.specs.Root as R;
ghost use Rattle.numbers.specs.Whole as W;

use std::num::f64_to_bits_with_nan;

// The greatest size that is not far: 2^30.
const FARTHEST: u64 = 1 << 30;

// The sign's place in a double's 64 bits.
const SIGN: u64 = 1 << 63;

// The leading one's place, above the 52 digits: where the exponent begins.
const LEADING: u64 = 1 << 52;

// The exponent of what is infinite or not a number.
const NO_NUMBER: u64 = 2047;

// The exponent from a half up to one.
const HALF: u64 = 1022;

// What a double is as a whole number: the number, that it lies past 2^30 on either side, or that it is infinite or not a
// number.
#[derive(Clone, Copy, Debug, PartialEq, Eq)]
pub enum Rounded {
    NotFinite,
    Far,
    Number(i64),
}

// The size of z, without its sign.
pub fn magnitude(z: i64) -> u64
    ensures { result ≡ nat_abs z }
{
    z.unsigned_abs()
}

// near(a/b): the nearest whole number to a/b, an exact half to the even neighbour; by 0 it is 0.
pub fn near(a: i64, b: u64) -> i64
    ensures { result ≡ N.near a b }
{
    let n = nearest(magnitude(a), b);
    let negative = a < 0;
    if negative {
        // -n by its bits, since n may be 2^63
        return n.wrapping_neg().cast_signed();
    }
    n as i64
}

// The root of n: the greatest number whose square is at most n. As by hand, a pair of bits at a time from the top, with shifts, sums, differences and comparisons
// alone. With R the root so far and s the place of its next bit, `bit` is s², `found` 2 R s, `rest` n - R², and `trial` what the square grows by with that bit,
// (R + s)² - R². After the last bit `found` is the root.
pub fn root(n: u64) -> u64
    ensures { result ≡ R.root n }
{
    let mut bit = 1u64 << 62;
    let mut rest = n;
    let mut found = 0u64;
    while 0 < bit {
        let trial = found + bit;
        let half = found >> 1;
        if rest < trial {
            found = half;
        } else {
            rest -= trial;
            // half + bit; as a difference it is ready before the test, and the compiler makes no jump
            found = trial - half;
        }
        bit >>= 2;
    }
    found
}

// The whole number nearest to x, an exact half to the even neighbour, from its bits: the sign, 11 bits of exponent, 52 of digits.
pub fn whole(x: f64) -> Rounded
    ensures { W.Means result (W.whole_of x) }
{
    let b = f64_to_bits_with_nan(x);
    let exponent = b % SIGN / LEADING;
    if exponent == NO_NUMBER {
        return Rounded::NotFinite;
    }
    // 2^31 and beyond
    if HALF + 31 < exponent {
        return Rounded::Far;
    }
    if exponent < HALF {
        return Rounded::Number(0);
    }
    // the 52 digits and the leading one, in units of 2^(exponent - HALF - 53)
    let digits = b % LEADING + LEADING;
    let n = nearest(digits, 1u64 << (HALF + 53 - exponent));
    if FARTHEST < n {
        return Rounded::Far;
    }
    let negative = SIGN <= b;
    if negative {
        Rounded::Number(-(n as i64))
    } else {
        Rounded::Number(n as i64)
    }
}

// near(n/b) of two naturals: one more than the quotient above a half, and at a half where the quotient is odd. Both are one test, so that the compiler makes
// no jump of it. Nothing overflows: where the remainder is half of b or more, b is at least 2.
fn nearest(n: u64, b: u64) -> u64
    ensures { result ≡ N.nearest n b }
{
    if b == 0 {
        return 0;
    }
    let q = n / b;
    let r = n % b;
    if b - r < r + q % 2 { q + 1 } else { q }
}
