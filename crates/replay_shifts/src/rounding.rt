// Kinds 1 to 3: near, root, whole.
use numbers::Rounded;

pub fn answer_near(s: &[u8], out: &mut [u8]) -> usize {
    let z = numbers::near(octets::signed_at(s, 0, 8), octets::unsigned_at(s, 8, 8));
    text::put_integer(out, 0, z)
}

pub fn answer_root(s: &[u8], out: &mut [u8]) -> usize {
    text::put_natural(out, 0, numbers::root(octets::unsigned_at(s, 0, 8)))
}

pub fn answer_whole(s: &[u8], out: &mut [u8]) -> usize {
    match numbers::whole(octets::double_at(s, 0)) {
        Rounded::NotFinite => text::put_bytes(out, 0, b"nan"),
        Rounded::Far => text::put_bytes(out, 0, b"far"),
        Rounded::Number(z) => text::put_integer(out, 0, z),
    }
}
