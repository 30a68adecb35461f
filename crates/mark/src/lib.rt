// The mark, and three numbers in a row: their sizes, the whole length in a range, the mark's check. Every function takes any numbers.
#![tactic(auto)]

ghost use Rattle.std.specs.Prelude.{◌≡◌};
ghost use Rattle.refusal.specs.Answered as A;
ghost use Rattle.mark.specs.Mark as M;

use refusal::Refusal;

mod squares;

// Grains in a metre.
pub const METRE: i64 = 1461000000;

// The whole length of a mark, metres.
const LEAST: u64 = 6300000;

const MOST: u64 = 6400000;

// Three numbers: whole metres of a mark, grains of a shift.
#[derive(Clone, Copy, Debug, PartialEq, Eq)]
pub struct Vec3 {
    pub x: i64,
    pub y: i64,
    pub z: i64,
}

impl Vec3 {
    // What the paper gives: the numbers of an answer, three zeros beside a refusal.
    pub fn or_zeros(answer: Result<Vec3, Refusal>) -> Vec3
        ensures { result ≡ (A.answered M.nowhere answer).value }
    {
        answer.unwrap_or(Vec3 { x: 0, y: 0, z: 0 })
    }
}

// Refused as `Mark` where the mark's whole length is not from 6,300,000 to 6,400,000 metres.
pub fn check_mark(m: Vec3) -> Result<(), Refusal>
    ensures { A.number result ≡ M.mark_number m }
{
    squares::sum_within(m, LEAST, MOST).ok_or(Refusal::Mark)?;
    Ok(())
}

// The whole length of a mark, metres, or `Mark`.
pub fn length_of(m: Vec3) -> Result<u64, Refusal>
    ensures { A.answered 0 result ≡ M.mark_answer m }
{
    let squares = squares::sum_within(m, LEAST, MOST).ok_or(Refusal::Mark)?;
    Ok(numbers::root(squares))
}

// x² + y² + z² of v where its root lies from low to high. A range that goes to 2^30 or beyond holds nothing, so that no sum leaves 64 bits.
pub fn squares_within(v: Vec3, low: u64, high: u64) -> Option<u64>
    ensures { result ≡ M.squares_asked low high v }
{
    if 1073741823 < high {
        return None;
    }
    if high < low {
        return None;
    }
    squares::sum_within(v, low, high)
}

// Each of three numbers is at most n in size.
pub fn sized(v: Vec3, n: u64) -> bool
    ensures { result ≡ M.sized n v }
{
    numbers::magnitude(v.x) <= n && numbers::magnitude(v.y) <= n && numbers::magnitude(v.z) <= n
}
