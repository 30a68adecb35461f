// A field record of the right length: what it holds, its checks, what is written of a card, and the card that it expands to.
ghost use Rattle.std.specs.Prelude.{◌≡◌, ◌≤◌, ◌&&◌, T, leb, nat_abs, length};
ghost use Rattle.refusal.specs.Answered as A;
ghost use Rattle.refusal.specs.Refusal as R;
ghost use Rattle.mark.specs.Mark as M;
ghost use Rattle.card.specs.Checks as K;
ghost use Rattle.field.specs.Field as F;
ghost use Rattle.field.specs.MetresOut as O;

use crate::FIELD_LENGTH;
use card::Card;
use mark::{METRE, Vec3, sized};
use refusal::Refusal;

// What a field record holds: the offset from the mark in 0.1 mm, the speed in 0.1 mm a year.
#[derive(Clone, Copy, Debug, PartialEq, Eq)]
pub struct Opened {
    pub site: [u8; 9],
    pub frame: u8,
    pub tide: u8,
    pub epoch: i64,
    pub mark: Vec3,
    pub offset: Vec3,
    pub speed: Vec3,
}

// near of each component over b.
#[tactic(auto, unfolding(crate::specs::Field::rounded_by))]
pub fn rounded(v: Vec3, b: u64) -> Vec3
    ensures { result ≡ F.rounded_by b v }
{
    Vec3 {
        x: numbers::near(v.x, b),
        y: numbers::near(v.y, b),
        z: numbers::near(v.z, b),
    }
}

// The record of a card that stands so far from its mark, grains.
pub fn encode_field(c: Card, away: Vec3, out: &mut [u8])
    requires out_len { length out.old ≡ F.field_length }
    requires away_value { away ≡ K.from_mark c.mark c.position }
    ensures { out.new ≡ F.field_of c }
{
    let offset = rounded(away, 146100);
    let speed = rounded(c.velocity, 100);
    let tail = [0u8, 0u8];
    layout::put_head(out, c.site, c.frame, c.tide);
    octets::put_signed(out, 12, 4, c.epoch);
    layout::put_vector(out, 16, 4, c.mark);
    layout::put_vector(out, 28, 4, offset);
    layout::put_vector(out, 40, 2, speed);
    octets::put_bytes(out, 46, &tail);
}

pub fn open(s: &[u8; FIELD_LENGTH]) -> Opened
    ensures { result ≡ F.opened_of s.now }
{
    Opened {
        site: layout::site_of(s),
        frame: s[9],
        tide: s[10],
        epoch: octets::signed_at(s, 12, 4),
        mark: layout::vector_at(s, 16, 4),
        offset: layout::vector_at(s, 28, 4),
        speed: layout::vector_at(s, 40, 2),
    }
}

// Bytes 11, 46 and 47 are zero.
#[tactic(auto, unfolding(crate::specs::Field::zero_bytes))]
pub fn zero_bytes(s: &[u8; FIELD_LENGTH]) -> bool
    ensures { result ≡ F.zero_bytes s.now }
{
    s[11] == 0 && s[46] == 0 && s[47] == 0
}

// Byte 10 is 0 or 1, and the zero bytes are zero.
pub fn fourth_fits(zeros: bool, byte: u8) -> bool
    ensures { result ≡ (zeros && leb byte 1) }
{
    zeros && byte <= 1
}

// The refusals 2 to 8 of a field record.
pub fn check_opened(f: Opened, zeros: bool) -> Result<(), Refusal>
    ensures { A.number result ≡ R.first (F.opened_checks zeros f) }
{
    let fits = fourth_fits(zeros, f.tide);
    head::check_head(f.site, f.frame, fits, f.epoch, f.mark)?;
    if !sized(f.speed, 5000) {
        return Err(Refusal::Velocity);
    }
    if !sized(f.offset, 10000000) {
        return Err(Refusal::Position);
    }
    Ok(())
}

pub fn expanded(f: Opened) -> Card
    requires t { T (M.sized 6400000 f.mark) }
    requires t_2 { T (M.sized 10000000 f.offset) }
    requires t_3 { T (M.sized 5000 f.speed) }
    ensures { result ≡ F.expanded_of f }
{
    // an array is copied to a local before a literal takes it
    let site = f.site;
    Card {
        site,
        frame: f.frame,
        tide: f.tide,
        epoch: f.epoch,
        mark: f.mark,
        velocity: Vec3 {
            x: 100 * f.speed.x,
            y: 100 * f.speed.y,
            z: 100 * f.speed.z,
        },
        position: Vec3 {
            x: METRE * f.mark.x + 146100 * f.offset.x,
            y: METRE * f.mark.y + 146100 * f.offset.y,
            z: METRE * f.mark.z + 146100 * f.offset.z,
        },
        solid: Vec3 { x: 0, y: 0, z: 0 },
    }
}

// Grains to metres: exact as a double, divided once.
pub fn in_metres(z: i64) -> f64
    requires { nat_abs z ≤ 1461000000000 }
    ensures { result ≡ O.in_metres z }
{
    z as f64 / 1461000000.0
}
