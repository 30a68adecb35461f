// What a line of the table gives at a mark: A of the line at 2000.0, B of the rates. The steps ask for the ranges of a line and of a mark.
ghost use Rattle.std.specs.Prelude.{◌≡◌, ◌≤◌, nat_abs};
ghost use Rattle.mark.specs.Ranges as G;
ghost use Rattle.frames.specs.Frame as F;
ghost use Rattle.frames.specs.Lines as N;

use crate::rows::Line;
use mark::Vec3;

// Three terms of a line at a mark: with k = 1,461 in grains, with k = 1 in micrometres. A line that turns nothing takes one near a component.
pub fn terms(k: i64, p: Line, m: Vec3) -> Vec3
    requires k_bound { nat_abs k ≤ 1461 }
    requires line_within { N.LineWithin p }
    requires within { G.Within 6400000 m }
    ensures { result ≡ N.terms k p m }
{
    // R is zero.
    if mark::sized(p.r, 0) {
        return Vec3 {
            x: straight(k, p.t.x, p.d, m.x),
            y: straight(k, p.t.y, p.d, m.y),
            z: straight(k, p.t.z, p.d, m.z),
        };
    }
    let s = turned(p.r, m);
    Vec3 {
        x: term(k, p.t.x, p.d, m.x, s.x),
        y: term(k, p.t.y, p.d, m.y, s.y),
        z: term(k, p.t.z, p.d, m.z, s.z),
    }
}

// Without rotation: 100 k t + near(k d m/10^5).
pub fn straight(k: i64, t: i64, d: i64, m: i64) -> i64
    requires k_bound { nat_abs k ≤ 1461 }
    requires t_bound { nat_abs t ≤ 10000 }
    requires d_bound { nat_abs d ≤ 10000 }
    requires m_bound { nat_abs m ≤ 6400000 }
    ensures { result ≡ N.straight k t d m }
{
    100 * k * t + numbers::near(k * d * m, 100000)
}

// (R2 z - R3 y, R3 x - R1 z, R1 y - R2 x), 0.01 mas x metres.
pub fn turned(r: Vec3, m: Vec3) -> Vec3
    requires within { G.Within 500 r }
    requires within_2 { G.Within 6400000 m }
    ensures { result ≡ F.turned r m }
{
    Vec3 {
        x: r.y * m.z - r.z * m.y,
        y: r.z * m.x - r.x * m.z,
        z: r.x * m.y - r.y * m.x,
    }
}

// 100 k t + near(k n/10^14), where n = 10^9 d m + 4,848,136,811 s.
pub fn term(k: i64, t: i64, d: i64, m: i64, s: i64) -> i64
    requires k_bound { nat_abs k ≤ 1461 }
    requires t_bound { nat_abs t ≤ 10000 }
    requires d_bound { nat_abs d ≤ 10000 }
    requires m_bound { nat_abs m ≤ 6400000 }
    requires s_bound { nat_abs s ≤ 6400000000 }
    ensures { result ≡ N.term k t d m s }
{
    100 * k * t + wide(k, d * m + 4 * s, s)
}

// near(k n/10^14), where n = 10^9 a + 848,136,811 s. k n can have 74 bits, so n is parted into whole micrometres, c and then e, and a rest of at most
// half a one. Of k times the wholes the even part comes out of the fraction: it is as much more in near.
pub fn wide(k: i64, a: i64, s: i64) -> i64
    requires k_bound { nat_abs k ≤ 1461 }
    requires a_bound { nat_abs a ≤ 89600000000 }
    requires s_bound { nat_abs s ≤ 6400000000 }
    ensures { result ≡ N.wide k a s }
{
    let c = numbers::near(a, 100000);
    let b = (a - 100000 * c) * 1000000000 + 848136811 * s;
    let e = numbers::near(b, 100000000000000);
    let rest = b - 100000000000000 * e;
    let whole = k * (c + e);
    let twos = numbers::near(whole, 2);
    2 * twos
        + numbers::near(
            (whole - 2 * twos) * 100000000000000 + k * rest,
            100000000000000,
        )
}
