// The calls: first the card's own checks, so that nothing after them leaves 64 bits, then the call's.
ghost use Rattle.std.specs.Prelude.{◌≡◌, true, T, Ok};
ghost use Rattle.mark.specs.Mark as M;
ghost use Rattle.frames.specs.Frame as F;
ghost use Rattle.card.specs.Checks as K;
ghost use Rattle.card.specs.Calls as L;
ghost use Rattle.card.specs.Steps as S;

use crate::Card;
use crate::checks::{VELOCITY_MOST, position_fits};
use crate::vectors::{minus, plus, scaled};
use frames::Frame;
use head::epoch_fits;
use head::state::{state_of, with_state};
use mark::{Vec3, sized};
use refusal::Refusal;
use tides::Body;

// 12 where byte 10 is not in the state that a tide call starts from.
fn in_state(c: Card, from: u8) -> Result<(), Refusal>
    ensures { result ≡ S.in_state c from }
{
    if state_of(c.tide) == from {
        Ok(())
    } else {
        Err(Refusal::TideState)
    }
}

// The card of a tide call, with another state of byte 10, position and stored vector, grains; 8 where the position is too far from the mark.
fn retided(c: Card, to: u8, position: Vec3, solid: Vec3) -> Result<Card, Refusal>
    requires { T (M.sized 6400000 c.mark) }
    ensures { S.settled c result ≡ S.retided c to position solid }
{
    if !position_fits(c.mark, position) {
        return Err(Refusal::Position);
    }
    Ok(Card {
        tide: with_state(c.tide, to),
        position,
        solid,
        ..c
    })
}

// 13, 5, 8. A move longer than the whole range cannot stay in it.
pub fn moved(c: Card, d: i64) -> Result<Card, Refusal>
    ensures { S.settled c result ≡ L.step c (L.move d) }
{
    c.check()?;
    if state_of(c.tide) == 2 {
        return Err(Refusal::MoveUnderSolidTide);
    }
    if 292200 < numbers::magnitude(d) {
        return Err(Refusal::Epoch);
    }
    let epoch = c.epoch + d;
    if !epoch_fits(epoch) {
        return Err(Refusal::Epoch);
    }
    let position = plus(c.position, scaled(d, c.velocity));
    if !position_fits(c.mark, position) {
        return Err(Refusal::Position);
    }
    Ok(Card {
        epoch,
        position,
        ..c
    })
}

// What a frame gives at a card's mark and epoch: A + B x epoch in grains, and B in grains a quarter-day.
#[derive(Clone, Copy, Debug, PartialEq, Eq)]
struct AtEpoch {
    at: Vec3,
    rate: Vec3,
}

// It is never refused.
fn framed(c: Card, frame: u8) -> Result<AtEpoch, Refusal>
    requires valid { K.Valid c }
    requires frame_value { F.known_frame frame ≡ true }
    ensures { result ≡ Ok (S.framed c frame) }
{
    let t = frames::frame_terms(c.mark, frame)?;
    let at = plus(t.a, scaled(c.epoch, t.b));
    Ok(AtEpoch { at, rate: t.b })
}

// 3, 7, 8. Any code may be asked for.
pub fn reframed(c: Card, frame: u32) -> Result<Card, Refusal>
    ensures { S.settled c result ≡ L.step c (L.frame frame) }
{
    c.check()?;
    let code = Frame::try_from(frame)?.code();
    let f = framed(c, c.frame)?;
    let g = framed(c, code)?;
    let velocity = plus(c.velocity, minus(g.rate, f.rate));
    if !sized(velocity, VELOCITY_MOST) {
        return Err(Refusal::Velocity);
    }
    let position = plus(c.position, minus(g.at, f.at));
    if !position_fits(c.mark, position) {
        return Err(Refusal::Position);
    }
    Ok(Card {
        frame: code,
        velocity,
        position,
        ..c
    })
}

// 12, 8.
pub fn mean_added(c: Card) -> Result<Card, Refusal>
    ensures { S.settled c result ≡ L.step c L.mean_on }
{
    c.check()?;
    in_state(c, 0)?; // neither tide, and mean tide next
    let shift = tides::permanent(c.mark)?;
    retided(c, 1, plus(c.position, shift), c.solid)
}

// 12, 8.
pub fn mean_taken(c: Card) -> Result<Card, Refusal>
    ensures { S.settled c result ≡ L.step c L.mean_off }
{
    c.check()?;
    in_state(c, 1)?; // mean tide, and neither next
    let shift = tides::permanent(c.mark)?;
    retided(c, 0, minus(c.position, shift), c.solid)
}

// 12, 17, 10, 11, 8.
pub fn solid_added(c: Card, first: Body, second: Body) -> Result<Card, Refusal>
    ensures { S.settled c result ≡ L.step c (L.solid_on first second) }
{
    c.check()?;
    in_state(c, 0)?; // neither tide, and solid tide next
    let v = tides::solid_tide(c.mark, first, second)?;
    retided(c, 2, plus(c.position, v), v)
}

// 12, 8. The stored vector is taken away, never a fresh one.
pub fn solid_taken(c: Card) -> Result<Card, Refusal>
    ensures { S.settled c result ≡ L.step c L.solid_off }
{
    c.check()?;
    in_state(c, 2)?; // solid tide, and neither next
    retided(c, 0, minus(c.position, c.solid), Vec3 { x: 0, y: 0, z: 0 })
}
