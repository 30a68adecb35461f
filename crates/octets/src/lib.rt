// Numbers in byte slices, big-endian, signed ones in two's complement. Each function takes any slice, any place and any
// width: what lies past the end reads as 0 and is not written, and a width above 8 bytes counts as 8.
#![tactic(auto)]

ghost use Rattle.std.specs.Prelude.{◌≡◌, ◌+◌, ◌-◌, ◌^◌, ◌≤◌, min, get_or, length, set};
ghost use Rattle.octets.specs.Octets as O;

use std::num::f64_from_bits_with_nan;

// The n bytes from `at` on, as a number from 0. Eight of them are read as two fours, each of which the compiler loads at once.
pub fn unsigned_at(s: &[u8], at: usize, n: usize) -> u64
    ensures { result ≡ O.unsigned_at s.now at (min n 8) }
{
    if n < 8 {
        return run_at(s, at, 0, n);
    }
    run_at(s, at, 0, 4) * (1 << 32) + run_at(s, at, 4, 4)
}

// The n bytes from `at` on, in two's complement.
pub fn signed_at(s: &[u8], at: usize, n: usize) -> i64
    ensures { result ≡ O.signed_at s.now at (min n 8) }
{
    let u = unsigned_at(s, at, n);
    let last = greatest(n);
    if u <= last - u {
        return u as i64;
    }
    // u - (last + 1): `!k` is -k - 1
    !((last - u) as i64)
}

// The double whose 64 bits start at `at`. Every NaN pattern gives the one NaN that 0/0 is.
#[tactic(auto, unfolding(crate::specs::Octets::double_at))]
pub fn double_at(s: &[u8], at: usize) -> f64
    ensures { result ≡ O.double_at s.now at }
{
    f64_from_bits_with_nan(unsigned_at(s, at, 8))
}

// Writes the last n bytes of z from `at` on.
pub fn put_signed(out: &mut [u8], at: usize, n: usize, z: i64)
    ensures { out.new ≡ O.splice out.old at (O.bytes_of (min n 8) z) }
{
    let bytes = z.to_be_bytes();
    put_bytes(out, at, &bytes[8 - width(n)..]);
}

// Copies a run of bytes to `at` and on.
pub fn put_bytes(out: &mut [u8], at: usize, from: &[u8])
    ensures { out.new ≡ O.splice out.old at from.now }
{
    for (i, b) in from.iter().enumerate() {
        put_byte(out, at, i, *b);
    }
}

// Writes the byte `i` places after `at`.
pub fn put_byte(out: &mut [u8], at: usize, i: usize, b: u8)
    ensures { out.new ≡ set out.old (at + i) b }
{
    let place = at.saturating_add(i);
    if place < out.len() {
        out[place] = b;
    }
}

// The n bytes from `skip` places after `at` on.
fn run_at(s: &[u8], at: usize, skip: usize, n: usize) -> u64
    requires skip_bound { skip ≤ 8 }
    requires n_bound { n ≤ 8 }
    ensures { result ≡ O.unsigned_at s.now (at + skip) n }
{
    let mut value = 0u64;
    for i in 0..n {
        value = value * 256 + u64::from(byte_at(s, at, skip + i));
    }
    value
}

// The byte `i` places after `at`.
fn byte_at(s: &[u8], at: usize, i: usize) -> u8
    ensures { result ≡ get_or s.now (at + i) 0 }
{
    s.get(at.saturating_add(i)).copied().unwrap_or(0)
}

// The width that a number is read and written in: at most 8 bytes.
pub fn width(n: usize) -> usize
    ensures { result ≡ min n 8 }
{
    n.min(8)
}

// The greatest number of n bytes.
fn greatest(n: usize) -> u64
    ensures { result ≡ 256 ^ min n 8 - 1 }
{
    if n < 8 {
        return (1u64 << (8 * n)) - 1;
    }
    u64::MAX
}
