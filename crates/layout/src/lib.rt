// The layout that the card's record and the field record share: bytes 0 to 11, and three numbers of one width. What lies past the end reads as 0
// and is not written; a width above 8 bytes counts as 8.
#![tactic(auto)]

ghost use Rattle.std.specs.Prelude.{◌≡◌, ◌≢◌, MatchResult, length, min};
ghost use Rattle.refusal.specs.declared.Refusal.TheVariants as Is;
ghost use Rattle.layout.specs.Layout as Y;

use mark::Vec3;
use refusal::Refusal;

// The first nine bytes; of fewer, nine zeros.
#[tactic(auto, unfolding(crate::specs::Layout::site_of))]
pub fn site_of(s: &[u8]) -> [u8; 9]
    ensures { result ≡ Y.site_of s.now }
{
    if s.len() < 9 {
        return [0u8; 9];
    }
    [s[0], s[1], s[2], s[3], s[4], s[5], s[6], s[7], s[8]]
}

// Three numbers of w bytes each from place `at`.
#[tactic(auto, unfolding(crate::specs::Layout::vector_at))]
pub fn vector_at(s: &[u8], at: u16, w: u16) -> Vec3
    ensures { result ≡ Y.vector_at s.now at (min w 8) }
{
    let n = octets::width(w as usize);
    let x = at as usize;
    let y = x + n;
    Vec3 {
        x: octets::signed_at(s, x, n),
        y: octets::signed_at(s, y, n),
        z: octets::signed_at(s, y + n, n),
    }
}

#[tactic(auto, unfolding(crate::specs::Layout::spliced))]
pub fn put_vector(out: &mut [u8], at: u16, w: u16, v: Vec3)
    ensures { out.new ≡ Y.spliced out.old at (min w 8) v }
{
    let n = octets::width(w as usize);
    let x = at as usize;
    let y = x + n;
    octets::put_signed(out, x, n, v.x);
    octets::put_signed(out, y, n, v.y);
    octets::put_signed(out, y + n, n, v.z);
}

// Bytes 0 to 11.
#[tactic(auto, unfolding(crate::specs::Layout::headed))]
pub fn put_head(out: &mut [u8], site: [u8; 9], frame: u8, tide: u8)
    ensures { out.new ≡ Y.headed out.old site frame tide }
{
    let three = [frame, tide, 0u8];
    octets::put_bytes(out, 0, &site);
    octets::put_bytes(out, 9, &three);
}

// The record that a run of bytes is, where it has a record's length.
pub fn whole<const N: usize>(s: &[u8]) -> Result<&[u8; N], Refusal>
    ensures { MatchResult result (λ r. (length s.now ≡ N) × (r.now ≡ s.now)) (λ e. (length s.now ≢ N) × (e ≡ Is.Length)) }
{
    s.try_into().or(Err(Refusal::Length))
}
