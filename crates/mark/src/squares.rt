// The sum of three squares, for a length in a range below 2^30.
ghost use Rattle.std.specs.Prelude.{◌≡◌, ◌^◌, ◌<◌};
ghost use Rattle.mark.specs.Mark as M;

use crate::Vec3;

// x² + y² + z² of v where its root lies from low to high. No root is taken, and a component past high is not squared.
pub fn sum_within(v: Vec3, low: u64, high: u64) -> Option<u64>
    requires low_bound { low < 2 ^ 30 }
    requires high_bound { high < 2 ^ 30 }
    ensures { result ≡ M.squares_within low high v }
{
    let x = numbers::magnitude(v.x);
    if high < x {
        return None;
    }
    let y = numbers::magnitude(v.y);
    if high < y {
        return None;
    }
    let z = numbers::magnitude(v.z);
    if high < z {
        return None;
    }
    let n = x * x + y * y + z * z;
    if n < low * low {
        return None;
    }
    // (high + 1)² and beyond
    if high * (high + 2) < n {
        return None;
    }
    Some(n)
}
