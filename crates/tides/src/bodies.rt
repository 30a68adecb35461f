// The bodies: three doubles rounded to wholes, and the distance of a Moon or a Sun.
ghost use Rattle.std.specs.Prelude.{◌≡◌, ◌^◌, ◌<◌};
ghost use Rattle.tides.specs.Steps as Y;

use crate::BodyVector;
use mark::Vec3;
use numbers::Rounded;
use refusal::Refusal;

// The whole distance of the Moon in metres, and of the Sun in kilometres.
const MOON_LEAST: u64 = 350000000;

const MOON_MOST: u64 = 410000000;

const SUN_LEAST: u64 = 146000000;

const SUN_MOST: u64 = 153000000;

// What is seen of a body: its whole vector and the sum of its squares.
#[derive(Clone, Copy, Debug, PartialEq, Eq)]
pub struct Sight {
    pub at: Vec3,
    pub squares: u64,
}

// A double as a whole number, for a length that is asked to be below 2^30: past 2^30 in size it is 2^31.
pub fn whole_of(x: f64) -> Result<i64, Refusal>
    ensures { result ≡ Y.coordinate_of x }
{
    match numbers::whole(x) {
        Rounded::NotFinite => Err(Refusal::BodyNotFinite),
        Rounded::Far => Ok(2147483648),
        Rounded::Number(z) => Ok(z),
    }
}

// The whole-number step of a body vector.
pub fn wholes_of(v: BodyVector) -> Result<Vec3, Refusal>
    ensures { result ≡ Y.wholes_of v }
{
    Ok(Vec3 {
        x: whole_of(v.x)?,
        y: whole_of(v.y)?,
        z: whole_of(v.z)?,
    })
}

// A whole vector whose length must be from low to high, in its own unit.
pub fn reach(at: Vec3, low: u64, high: u64) -> Result<Sight, Refusal>
    requires { high < 2 ^ 30 }
    ensures { result ≡ Y.sight_of low high at }
{
    let squares = mark::squares_within(at, low, high).ok_or(Refusal::BodyDistance)?;
    Ok(Sight { at, squares })
}

// A Moon and a Sun: either not finite comes before either out of reach.
pub fn see(moon: BodyVector, sun: BodyVector) -> Result<(Sight, Sight), Refusal>
    ensures { result ≡ Y.sights_of moon sun }
{
    let v = wholes_of(moon)?;
    let w = wholes_of(sun)?;
    let moon = reach(v, MOON_LEAST, MOON_MOST)?;
    let sun = reach(w, SUN_LEAST, SUN_MOST)?;
    Ok((moon, sun))
}
