// The rows of Table 4.1, as they are printed.
ghost use Rattle.std.specs.Prelude.{◌≡◌};
ghost use Rattle.frames.specs.Frame as F;
ghost use Rattle.frames.specs.Known as K;

use crate::known::Frame;
use mark::Vec3;

// A line of the table: T in 0.1 mm, D in 0.01 ppb, R in 0.01 mas, or the same a year.
#[derive(Clone, Copy, Debug, PartialEq, Eq)]
pub struct Line {
    pub t: Vec3,
    pub d: i64,
    pub r: Vec3,
}

// A frame's two lines: at 2000.0, and the rates.
#[derive(Clone, Copy, Debug, PartialEq, Eq)]
pub struct Row {
    pub at: Line,
    pub rates: Line,
}

// The row of a frame.
#[tactic(auto, unfolding(crate::specs::Frame::row_of))]
pub fn row_of(frame: Frame) -> Row
    ensures { result ≡ F.row_of (K.code_of frame) }
{
    match frame {
        Frame::Itrf2005 => Row {
            at: printed(-20, -9, -47, 94, 0, 0, 0),
            rates: printed(3, 0, 0, 0, 0, 0, 0),
        },
        Frame::Itrf2000 => Row {
            at: printed(-19, -17, -105, 134, 0, 0, 0),
            rates: printed(1, 1, -18, 8, 0, 0, 0),
        },
        Frame::Itrf97 => Row {
            at: printed(48, 26, -332, 292, 0, 0, 6),
            rates: printed(1, -5, -32, 9, 0, 0, 2),
        },
        Frame::Itrf96 => Row {
            at: printed(48, 26, -332, 292, 0, 0, 6),
            rates: printed(1, -5, -32, 9, 0, 0, 2),
        },
        Frame::Itrf94 => Row {
            at: printed(48, 26, -332, 292, 0, 0, 6),
            rates: printed(1, -5, -32, 9, 0, 0, 2),
        },
        Frame::Itrf93 => Row {
            at: printed(-240, 24, -386, 341, -171, -148, -30),
            rates: printed(-28, -1, -24, 9, -11, -19, 7),
        },
        Frame::Itrf92 => Row {
            at: printed(128, 46, -412, 221, 0, 0, 6),
            rates: printed(1, -5, -32, 9, 0, 0, 2),
        },
        Frame::Itrf91 => Row {
            at: printed(248, 186, -472, 361, 0, 0, 6),
            rates: printed(1, -5, -32, 9, 0, 0, 2),
        },
        Frame::Itrf90 => Row {
            at: printed(228, 146, -632, 391, 0, 0, 6),
            rates: printed(1, -5, -32, 9, 0, 0, 2),
        },
        Frame::Itrf89 => Row {
            at: printed(278, 386, -1012, 731, 0, 0, 6),
            rates: printed(1, -5, -32, 9, 0, 0, 2),
        },
        Frame::Itrf88 => Row {
            at: printed(228, 26, -1252, 1041, 10, 0, 6),
            rates: printed(1, -5, -32, 9, 0, 0, 2),
        },
        Frame::Itrf2008 => Row {
            at: printed(0, 0, 0, 0, 0, 0, 0),
            rates: printed(0, 0, 0, 0, 0, 0, 0),
        },
    }
}

// A line as it is printed.
fn printed(t1: i64, t2: i64, t3: i64, d: i64, r1: i64, r2: i64, r3: i64) -> Line
    ensures { result ≡ F.line t1 t2 t3 d r1 r2 r3 }
{
    Line {
        t: Vec3 {
            x: t1,
            y: t2,
            z: t3,
        },
        d,
        r: Vec3 {
            x: r1,
            y: r2,
            z: r3,
        },
    }
}
