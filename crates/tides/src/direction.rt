// Numbers in units of 1/E, E = 2^30: products, the unit vector of a whole vector, and P. Each asks for its ranges.
ghost use Rattle.std.specs.Prelude.{◌≡◌, ◌^◌, ◌≤◌, ◌<◌, nat_abs, ◌*ℤ◌};
ghost use Rattle.std.specs.Int.{w64};
ghost use Rattle.std.proofs.Common.{SFits};
ghost use Rattle.mark.specs.Ranges as G;
ghost use Rattle.tides.specs.Aim as U;
ghost use Rattle.tides.specs.Direction as D;
ghost use Rattle.tides.specs.Permanent as P;
ghost use Rattle.tides.specs.Steps as Y;

use mark::Vec3;

// near(x y/E).
pub fn times(x: i64, y: i64) -> i64
    requires { SFits w64 (x *ℤ y) }
    ensures { result ≡ D.times x y }
{
    numbers::near(x * y, 1073741824)
}

// near(m E/l), of a component m of a vector of whole length l.
pub fn unit(m: i64, l: u64) -> i64
    requires { nat_abs m < 2 ^ 30 }
    ensures { result ≡ D.unit l m }
{
    numbers::near(m * 1073741824, l)
}

// The three components of a vector of whole length l.
pub fn units(v: Vec3, l: u64) -> Vec3
    requires { G.Within 1073741823 v }
    ensures { result ≡ D.units l v }
{
    Vec3 {
        x: unit(v.x, l),
        y: unit(v.y, l),
        z: unit(v.z, l),
    }
}

// u is not too long for a mark's direction: each component at most E, the sum of the squares at most E E + 344 E.
pub fn directed(u: Vec3) -> bool
    ensures { result ≡ U.directed u }
{
    if !mark::sized(u, 1073741824) {
        return false;
    }
    let x = numbers::magnitude(u.x);
    let y = numbers::magnitude(u.y);
    let z = numbers::magnitude(u.z);
    x * x + y * y + z * z <= 1152921873974034432
}

// near((3 s - E)/2).
pub fn legendre(s: i64) -> i64
    requires { nat_abs s ≤ 2 ^ 31 }
    ensures { result ≡ D.legendre s }
{
    numbers::near(3 * s - 1073741824, 2)
}

// A mark's unit vector u. Rounding has made it longer than E by a little at most.
#[derive(Clone, Copy, Debug)]
pub struct Direction {
    pub u: Vec3,
    ghost short: { Y.Direction u },
}

impl Direction {
    // P of a mark: uz is the sine of its latitude.
    pub fn latitude(self) -> i64
        ensures { result ≡ P.latitude self.u }
    {
        let sine = self.u.z;
        legendre(times(sine, sine))
    }
}
