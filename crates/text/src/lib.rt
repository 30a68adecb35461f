// Numbers and bytes as text, at a place in a lent buffer. Every function takes any buffer and any place, and answers the place after its text.
// What lies past the buffer's end is not written, and a place stops at the greatest that 64 bits can name.
#![tactic(auto)]

ghost use Rattle.std.specs.Prelude.{◌≡◌, length};
ghost use Rattle.octets.specs.Octets as O;
ghost use Rattle.text.specs.Text as T;

// The digits of n, the last one first.
pub fn put_natural(out: &mut [u8], at: usize, n: u64) -> usize
    ensures value { result ≡ T.after at (length (T.natural n)) }
    ensures out_after { out.new ≡ O.splice out.old at (T.natural n) }
{
    let count = places(n);
    let mut rest = n;
    for i in (0..count).rev() {
        octets::put_byte(out, at, i, b'0' + (rest % 10) as u8);
        rest /= 10;
    }
    after(at, count)
}

// `-` where z is below 0, and its digits.
pub fn put_integer(out: &mut [u8], at: usize, z: i64) -> usize
    ensures value { result ≡ T.after at (length (T.integer z)) }
    ensures out_after { out.new ≡ O.splice out.old at (T.integer z) }
{
    let m = numbers::magnitude(z);
    if z < 0 {
        let first = put_bytes(out, at, b"-");
        return put_natural(out, first, m);
    }
    put_natural(out, at, m)
}

// A space and an integer.
pub fn put_next(out: &mut [u8], at: usize, z: i64) -> usize
    ensures value { result ≡ T.after at (length (T.spaced z)) }
    ensures out_after { out.new ≡ O.splice out.old at (T.spaced z) }
{
    let first = put_bytes(out, at, b" ");
    put_integer(out, first, z)
}

// A run of bytes as they are.
pub fn put_bytes(out: &mut [u8], at: usize, s: &[u8]) -> usize
    ensures value { result ≡ T.after at (length s.now) }
    ensures out_after { out.new ≡ O.splice out.old at s.now }
{
    octets::put_bytes(out, at, s);
    after(at, s.len())
}

// Each byte as two lower-case hex digits.
pub fn put_hex(out: &mut [u8], at: usize, s: &[u8]) -> usize
    ensures value { result ≡ T.after at (length (T.hex_of s.now)) }
    ensures out_after { out.new ≡ O.splice out.old at (T.hex_of s.now) }
{
    for (i, b) in s.iter().enumerate() {
        octets::put_byte(out, at, 2 * i, hex_digit(*b / 16));
        octets::put_byte(out, at, 2 * i + 1, hex_digit(*b));
    }
    after(at, 2 * s.len())
}

// How many digits n has.
#[tactic(auto, using(crate::proofs::TextLaws::places_log))]
fn places(n: u64) -> usize
    ensures { result ≡ T.places n }
{
    n.max(1).ilog10() as usize + 1
}

// The last hex digit of d.
#[tactic(auto, unfolding(crate::specs::Text::hex_digit))]
fn hex_digit(d: u8) -> u8
    ensures { result ≡ T.hex_digit d }
{
    let k = d % 16;
    if k < 10 { b'0' + k } else { b'a' + (k - 10) }
}

// The place n after `at`.
fn after(at: usize, n: usize) -> usize
    ensures { result ≡ T.after at n }
{
    at.saturating_add(n)
}
