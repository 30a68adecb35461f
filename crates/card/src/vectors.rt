// Sums, differences and multiples of three numbers that are known to fit.
ghost use Rattle.std.specs.Prelude.{◌≡◌, ◌≤◌, T, nat_abs};
ghost use Rattle.mark.specs.Mark as M;

use mark::Vec3;

// A sum and a difference of vectors whose components are at most 2^62 in size.
pub fn plus(v: Vec3, w: Vec3) -> Vec3
    requires t { T (M.sized 4000000000000000000 v) }
    requires t_2 { T (M.sized 4000000000000000000 w) }
    ensures { result ≡ M.plus v w }
{
    Vec3 {
        x: v.x + w.x,
        y: v.y + w.y,
        z: v.z + w.z,
    }
}

pub fn minus(v: Vec3, w: Vec3) -> Vec3
    requires t { T (M.sized 4000000000000000000 v) }
    requires t_2 { T (M.sized 4000000000000000000 w) }
    ensures { result ≡ M.minus v w }
{
    Vec3 {
        x: v.x - w.x,
        y: v.y - w.y,
        z: v.z - w.z,
    }
}

// k times each component.
pub fn scaled(k: i64, v: Vec3) -> Vec3
    requires k_bound { nat_abs k ≤ 1000000 }
    requires t { T (M.sized 1000000000000 v) }
    ensures { result ≡ M.scaled k v }
{
    Vec3 {
        x: k * v.x,
        y: k * v.y,
        z: k * v.z,
    }
}
