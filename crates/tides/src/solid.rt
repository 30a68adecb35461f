// The solid tide: how a body stands to the mark, degree two of each body, degree three of the Moon, and the Moon's plus the Sun's. The steps ask for
// their ranges.
ghost use Rattle.std.specs.Prelude.{◌≡◌, ◌*◌, ◌≤◌, nat_abs};
ghost use Rattle.refusal.specs.Answered as A;
ghost use Rattle.mark.specs.Mark as M;
ghost use Rattle.mark.specs.Ranges as G;
ghost use Rattle.tides.specs.Aim as U;
ghost use Rattle.tides.specs.Bodies as B;
ghost use Rattle.tides.specs.Tide as T;
ghost use Rattle.tides.specs.Steps as Y;

use crate::BodyVector;
use crate::bodies::{Sight, see};
use crate::direction::{Direction, legendre, times, units};
use mark::Vec3;
use refusal::Refusal;

// R0, metres for the Moon and kilometres for the Sun, and K0, grains: of degree two, and of the Moon's degree three.
const MOON_R0: u32 = 384400000;

const MOON_K0: u32 = 523578453;

const MOON_THIRD_K0: i64 = 8687448;

const SUN_R0: u32 = 149597870;

const SUN_K0: u32 = 240449078;

// How a body stands to the mark, in units of 1/E: q, which is R0/R, its unit vector d, and c, the cosine between the two unit vectors.
#[derive(Clone, Copy, Debug, PartialEq, Eq)]
pub struct Standing {
    pub q: i64,
    pub d: Vec3,
    pub c: i64,
}

// A mark's direction, and a body as it stands to it.
#[derive(Clone, Copy, Debug)]
pub struct Aspect {
    pub aim: Direction,
    pub body: Standing,
    ghost stood: { Y.Stood body },
}

// c, the cosine of the angle between a mark's direction and another unit vector.
pub fn cosine(aim: Direction, d: Vec3) -> i64
    requires { G.Within 1073741824 d }
    ensures { result ≡ T.cosine aim.u d }
{
    let u = aim.u;
    numbers::near(u.x * d.x + u.y * d.y + u.z * d.z, 1073741824)
}

// x3, in units of 1/E, of q or c.
pub fn cube(x: i64) -> i64
    requires { nat_abs x ≤ 1181116007 }
    ensures { result ≡ T.cube x }
{
    times(times(x, x), x)
}

// near((rho u + t(d - near(c u/E)))/E), grains.
pub fn component(rho: i64, t: i64, c: i64, u: i64, d: i64) -> i64
    requires rho_bound { nat_abs rho ≤ 500000000 }
    requires t_bound { nat_abs t ≤ 200000000 }
    requires c_bound { nat_abs c ≤ 1073742006 }
    requires u_bound { nat_abs u ≤ 1073741824 }
    requires d_bound { nat_abs d ≤ 1073741824 }
    ensures { result ≡ T.component rho t c u d }
{
    numbers::near(rho * u + t * (d - times(c, u)), 1073741824)
}

// near((a E + b p) k/(10,000 E)), grains. The product can have 72 bits, so a k loses its whole part first, in twos: an even whole number more in
// the fraction is as much more in near.
pub fn share(a: i64, b: i64, p: i64, k: i64) -> i64
    requires a_bound { nat_abs a ≤ 6078 }
    requires b_bound { nat_abs b ≤ 6 }
    requires p_bound { nat_abs p ≤ 1073742372 }
    requires k_bound { nat_abs k ≤ 696882923 }
    ensures { result ≡ Y.share_of a b p k }
{
    let whole = a * k;
    let twos = numbers::near(whole, 20000);
    let rest = whole - 20000 * twos;
    2 * twos + numbers::near(rest * 1073741824 + b * p * k, 10737418240000)
}

// A sum of two parts, grains.
pub fn sum(v: Vec3, w: Vec3) -> Vec3
    requires within { G.Within 1461000000 v }
    requires within_2 { G.Within 1461000000 w }
    ensures { result ≡ T.plus v w }
{
    Vec3 {
        x: v.x + w.x,
        y: v.y + w.y,
        z: v.z + w.z,
    }
}

impl Aspect {
    // A body that is seen, as it stands to a mark. R0 is at most 1.1 times the body's distance.
    pub fn new(r0: u32, aim: Direction, s: Sight) -> Self
        requires near { r0 * 10 ≤ 11 * M.length_of s.at }
        requires reached { Y.Reached 146000000 410000000 s }
        ensures aim { result.aim ≡ aim }
        ensures body { result.body ≡ T.standing r0 aim.u s.at (M.length_of s.at) }
    {
        let r = numbers::root(s.squares);
        let q = numbers::near(i64::from(r0) * 1073741824, r);
        let d = units(s.at, r);
        let c = cosine(aim, d);
        Aspect {
            aim,
            body: Standing { q, d, c },
        }
    }

    // rho grains upward and t towards the body, each component of it, grains.
    fn displaced(self, rho: i64, t: i64) -> Vec3
        requires rho_bound { nat_abs rho ≤ 500000000 }
        requires t_bound { nat_abs t ≤ 200000000 }
        ensures { result ≡ T.displaced rho t self.aim.u self.body }
    {
        let u = self.aim.u;
        let c = self.body.c;
        let d = self.body.d;
        Vec3 {
            x: component(rho, t, c, u.x, d.x),
            y: component(rho, t, c, u.y, d.y),
            z: component(rho, t, c, u.z, d.z),
        }
    }

    // Degree two of the body's part of the tide, in grains.
    pub fn degree_two(self, k0: u32) -> Vec3
        requires { k0 ≤ 523578453 }
        ensures { result ≡ T.degree_two k0 self.aim.u self.body }
    {
        let c = self.body.c;
        let k = times(i64::from(k0), cube(self.body.q));
        let p = self.aim.latitude();
        let h = share(6078, -6, p, k);
        let s = share(847, 2, p, k);
        let rho = times(h, legendre(times(c, c)));
        let t = 3 * times(s, c);
        self.displaced(rho, t)
    }

    // p of degree three, in units of 1/E.
    fn height_three(self) -> i64
        ensures { result ≡ T.height_three self.body.c }
    {
        let c = self.body.c;
        numbers::near(5 * cube(c) - 3 * c, 2)
    }

    // v of degree three, in units of 1/E.
    fn slope_three(self) -> i64
        ensures { result ≡ T.slope_three self.body.c }
    {
        let c = self.body.c;
        numbers::near(15 * times(c, c) - 3 * 1073741824, 2)
    }

    // Degree three of the Moon's part, in grains.
    pub fn degree_three(self) -> Vec3
        ensures { result ≡ T.degree_three B.third_k0 self.aim.u self.body }
    {
        let q = self.body.q;
        let k = times(MOON_THIRD_K0, times(cube(q), q));
        let h = numbers::near(292 * k, 1000);
        let s = numbers::near(15 * k, 1000);
        let rho = times(h, self.height_three());
        let t = times(s, self.slope_three());
        self.displaced(rho, t)
    }
}

// The tide of a Moon and a Sun at a mark's direction, or `BodyNotFinite`, `BodyDistance`. The Moon's degree three is rounded by itself, then added.
pub fn pair_tide(aim: Direction, v: BodyVector, w: BodyVector) -> Result<Vec3, Refusal>
    ensures { A.answered M.nowhere result ≡ U.pair_answer aim.u v w }
{
    let (moon, sun) = see(v, w)?;
    let moon = Aspect::new(MOON_R0, aim, moon);
    let sun = Aspect::new(SUN_R0, aim, sun);
    let moon_part = sum(moon.degree_two(MOON_K0), moon.degree_three());
    Ok(sum(moon_part, sun.degree_two(SUN_K0)))
}
