// A card's checks beside those of `head`, one by one, and all of them in the paper's order.
ghost use Rattle.std.specs.Prelude.{◌≡◌, ◌&&◌, T};
ghost use Rattle.refusal.specs.Answered as A;
ghost use Rattle.refusal.specs.Refusal as R;
ghost use Rattle.mark.specs.Mark as M;
ghost use Rattle.card.specs.Checks as K;

use crate::Card;
use head::check_head;
use head::state::state_of;
use mark::{METRE, Vec3, sized};
use refusal::Refusal;

// The farthest that a position lies from its mark, and the most of a stored tide, a component: grains.
const FARTHEST: u64 = 1461000000000;

const TIDE_MOST: u64 = 1461000000;

// Micrometres a year, a component.
pub const VELOCITY_MOST: u64 = 500000;

// Byte 10 is 0, 1 or 2, and the stored vector is zero unless it is 2.
#[tactic(auto, unfolding(crate::specs::Checks::tide_fits, crate::specs::Checks::is_zero, head::specs::State::state_fits))]
pub fn tide_fits(byte: u8, v: Vec3) -> bool
    ensures { result ≡ K.tide_fits byte v }
{
    byte <= 2 && (state_of(byte) == 2 || sized(v, 0))
}

// Grains from the mark: p - 1,461,000,000 m.
pub fn from_mark(m: Vec3, p: Vec3) -> Vec3
    requires t { T (M.sized 6400000 m) }
    requires t_2 { T (M.sized 10000000000000000 p) }
    ensures { result ≡ K.from_mark m p }
{
    Vec3 {
        x: p.x - METRE * m.x,
        y: p.y - METRE * m.y,
        z: p.z - METRE * m.z,
    }
}

// Each component is within 1,000 m of the mark's. A position far from any mark is not subtracted from.
pub fn position_fits(m: Vec3, p: Vec3) -> bool
    requires { T (M.sized 6400000 m) }
    ensures { result ≡ K.position_fits m p }
{
    sized(p, 10000000000000000) && sized(from_mark(m, p), FARTHEST)
}

// Byte 10 and the stored vector fit, and so do the record's zero bytes.
pub fn fourth_fits(zeros: bool, byte: u8, v: Vec3) -> bool
    ensures { result ≡ (zeros && K.tide_fits byte v) }
{
    zeros && tide_fits(byte, v)
}

// The refusals 2 to 9 of a card. `zeros` says that the record's zero bytes are zero.
pub fn refusal_of(c: Card, zeros: bool) -> Result<(), Refusal>
    ensures { A.number result ≡ R.first (K.checks zeros c) }
{
    let fits = fourth_fits(zeros, c.tide, c.solid);
    check_head(c.site, c.frame, fits, c.epoch, c.mark)?;
    if !sized(c.velocity, VELOCITY_MOST) {
        return Err(Refusal::Velocity);
    }
    if !position_fits(c.mark, c.position) {
        return Err(Refusal::Position);
    }
    if !sized(c.solid, TIDE_MOST) {
        return Err(Refusal::StoredTide);
    }
    Ok(())
}
