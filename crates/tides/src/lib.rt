// The tides, worked out from the mark, in grains (1,461 grains are a micrometre): the permanent shift, the solid tide, and what a series of it needs: the
// mark's direction once, the bodies' refusal and the tide at that direction for each row. Every function takes any numbers and any bodies.
#![tactic(auto)]

ghost use Rattle.std.specs.Prelude.{◌≡◌};
ghost use Rattle.tides.specs.Permanent as P;
ghost use Rattle.tides.specs.Tide as T;
ghost use Rattle.tides.specs.Aim as U;
ghost use Rattle.refusal.specs.Answered as A;
ghost use Rattle.mark.specs.Mark as M;

use direction::Direction;
use mark::Vec3;
use refusal::Refusal;

mod bodies;
mod direction;
mod mean;
mod solid;

// Where a body is: metres for a Moon, kilometres for a Sun.
#[derive(Clone, Copy, Debug, PartialEq)]
pub struct BodyVector {
    pub x: f64,
    pub y: f64,
    pub z: f64,
}

#[derive(Clone, Copy, Debug, PartialEq)]
pub enum Body {
    Moon(BodyVector),
    Sun(BodyVector),
}

// The permanent shift from tide-free to mean-tide at a mark, or `Mark`.
pub fn permanent(m: Vec3) -> Result<Vec3, Refusal>
    ensures { A.answered M.nowhere result ≡ P.permanent_answer m }
{
    let u = direction_of(m)?;
    Ok(mean::permanent_of(Direction { u }))
}

// The solid tide at a mark under a Moon and a Sun, in either order, or `Mark`, `BodyPair` where they are not one of each, `BodyNotFinite`, `BodyDistance`.
pub fn solid_tide(m: Vec3, first: Body, second: Body) -> Result<Vec3, Refusal>
    ensures { A.answered M.nowhere result ≡ T.tide_answer m first second }
{
    let u = direction_of(m)?;
    let aim = Direction { u };
    match (first, second) {
        (Body::Moon(v), Body::Sun(w)) => solid::pair_tide(aim, v, w),
        (Body::Sun(w), Body::Moon(v)) => solid::pair_tide(aim, v, w),
        (Body::Moon(_), Body::Moon(_)) => Err(Refusal::BodyPair),
        (Body::Sun(_), Body::Sun(_)) => Err(Refusal::BodyPair),
    }
}

// The refusal of a Moon and a Sun: `BodyNotFinite` where either is not finite, else `BodyDistance` where either is out of reach.
pub fn check_bodies(moon: BodyVector, sun: BodyVector) -> Result<(), Refusal>
    ensures { A.number result ≡ T.bodies_number moon sun }
{
    bodies::see(moon, sun)?;
    Ok(())
}

// The direction of a mark, in units of 1/E, or `Mark`.
pub fn direction_of(m: Vec3) -> Result<Vec3, Refusal>
    ensures { A.answered M.nowhere result ≡ U.aim_of m }
{
    let l = mark::length_of(m)?;
    Ok(direction::units(m, l))
}

// The solid tide under a Moon and a Sun at a mark's direction u, or `Mark` where u is too long for one, `BodyNotFinite`, `BodyDistance`.
pub fn pair_at(u: Vec3, moon: BodyVector, sun: BodyVector) -> Result<Vec3, Refusal>
    ensures { A.answered M.nowhere result ≡ U.pair_at u moon sun }
{
    if !direction::directed(u) {
        return Err(Refusal::Mark);
    }
    solid::pair_tide(Direction { u }, moon, sun)
}
