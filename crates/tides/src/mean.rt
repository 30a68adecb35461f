// The permanent shift, tide-free to mean-tide, from a unit vector.
ghost use Rattle.std.specs.Prelude.{◌≡◌};
ghost use Rattle.tides.specs.Permanent as P;

use crate::direction::{Direction, legendre, times};
use mark::Vec3;

// The permanent shift at a mark's direction, in grains.
pub fn permanent_of(aim: Direction) -> Vec3
    ensures { result ≡ P.permanent_of aim.u }
{
    let u = aim.u;
    let s = times(u.z, u.z);
    let p = legendre(s);
    let e = times(146100, p);
    let a = times(e - 176196600, p);
    let t = -36817200 - e;
    let w = times(t, s);
    let level = a - 2 * w;
    let steep = a + 2 * t - 2 * w;
    Vec3 {
        x: times(level, u.x),
        y: times(level, u.y),
        z: times(steep, u.z),
    }
}
