// Kinds 4 to 7: the permanent shift, a frame's two rows, the tide of a pair, a series.
use frames::Terms;
use mark::Vec3;

pub fn answer_permanent(s: &[u8], out: &mut [u8]) -> usize {
    let shift = tides::permanent(layout::vector_at(s, 0, 8));
    put_bare(out, Vec3::or_zeros(shift))
}

pub fn answer_rows(s: &[u8], out: &mut [u8]) -> usize {
    let answer = frames::frame_terms(layout::vector_at(s, 1, 8), wire::byte_at(s, 0));
    let terms = Terms::or_zeros(answer);
    let end = put_bare(out, terms.a);
    wire::put_vector(out, end, terms.b)
}

pub fn answer_pair(s: &[u8], out: &mut [u8]) -> usize {
    let first = wire::body_at(s, 24);
    let second = wire::body_at(s, 49);
    let shift = tides::solid_tide(layout::vector_at(s, 0, 8), first, second);
    let end = text::put_natural(out, 0, refusal::number_of(shift) as u64);
    wire::put_vector(out, end, Vec3::or_zeros(shift))
}

pub fn answer_series(s: &[u8], out: &mut [u8]) -> usize {
    let mut doubles = [0.0f64; 600];
    let mut numbers = [-9000000000i64; 300];
    let n = wire::at_most(octets::unsigned_at(s, 24, 4), 600);
    let k = wire::at_most(octets::unsigned_at(s, 28, 4), 300);
    put_series(s, &mut doubles[..n], &mut numbers[..k], out)
}

fn put_series(s: &[u8], doubles: &mut [f64], numbers: &mut [i64], out: &mut [u8]) -> usize {
    read_doubles(wire::from(s, 32), doubles);
    let rows = series::series(layout::vector_at(s, 0, 8), doubles, numbers);
    let end = wire::put_count(out, 0, rows);
    put_numbers(out, end, numbers)
}

// Fills a run of doubles from the bytes' start on. One that is past their end stays as it is.
fn read_doubles(s: &[u8], out: &mut [f64]) {
    for (x, bytes) in out.iter_mut().zip(s.chunks(8)) {
        *x = octets::double_at(bytes, 0);
    }
}

// The numbers, with a space before each.
fn put_numbers(out: &mut [u8], at: usize, s: &[i64]) -> usize {
    let mut end = at;
    for z in s {
        end = text::put_next(out, end, *z);
    }
    end
}

// Three numbers, with a space between.
fn put_bare(out: &mut [u8], v: Vec3) -> usize {
    let mut end = text::put_integer(out, 0, v.x);
    end = text::put_next(out, end, v.y);
    text::put_next(out, end, v.z)
}
