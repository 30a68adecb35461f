// The frames of Table 4.1: A and B of each, worked out from the mark. Any mark and any frame code may be asked for.
#![tactic(auto)]

ghost use Rattle.std.specs.Prelude.{◌≡◌};
ghost use Rattle.refusal.specs.Answered as A;
ghost use Rattle.frames.specs.Frame as F;

use mark::Vec3;
use refusal::Refusal;

mod known;
mod lines;
mod rows;

pub use known::Frame;

// A in grains, and B in grains a quarter-day.
#[derive(Clone, Copy, Debug, PartialEq, Eq)]
pub struct Terms {
    pub a: Vec3,
    pub b: Vec3,
}

impl Terms {
    // What the paper gives: A and B of an answer, zeros beside a refusal.
    pub fn or_zeros(answer: Result<Terms, Refusal>) -> Terms
        ensures { result ≡ (A.answered F.no_terms answer).value }
    {
        let zero = Vec3 { x: 0, y: 0, z: 0 };
        answer.unwrap_or(Terms { a: zero, b: zero })
    }
}

// A and B of a frame at a mark, or `Frame`, then `Mark`.
pub fn frame_terms(m: Vec3, frame: u8) -> Result<Terms, Refusal>
    ensures { A.answered F.no_terms result ≡ F.terms_answer frame m }
{
    let known = Frame::try_from(u32::from(frame))?;
    mark::check_mark(m)?;
    let row = rows::row_of(known);
    Ok(Terms {
        a: lines::terms(1461, row.at, m),
        b: lines::terms(1, row.rates, m),
    })
}
