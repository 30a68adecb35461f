// Kind 12: metres out.
use crate::records;
use field::Metres;

pub fn answer(s: &[u8], out: &mut [u8]) -> usize {
    let answer = field::metres_out(records::raw_card(s));
    let mut end = text::put_natural(out, 0, refusal::number_of(answer) as u64);
    let m = Metres::or_zeros(answer);
    for x in [m.x, m.y, m.z] {
        end = put_bits(out, end, bits_of(x));
    }
    end
}

// A double's bits. A NaN, which metres out never gives, has those of one.
fn bits_of(x: f64) -> u64 {
    if x.is_nan() { u64::MAX } else { x.to_bits() }
}

// 16 hex digits, with a space before them.
fn put_bits(out: &mut [u8], at: usize, bits: u64) -> usize {
    let first = text::put_bytes(out, at, b" ");
    text::put_hex(out, first, &bits.to_be_bytes())
}
