// The twelve frames by their codes, 0 to 11.
ghost use Rattle.std.specs.Prelude.{◌≡◌};
ghost use Rattle.frames.specs.Known as K;

use refusal::Refusal;
use std::fmt;

#[derive(Clone, Copy, Debug, PartialEq, Eq)]
pub enum Frame {
    Itrf2008,
    Itrf2005,
    Itrf2000,
    Itrf97,
    Itrf96,
    Itrf94,
    Itrf93,
    Itrf92,
    Itrf91,
    Itrf90,
    Itrf89,
    Itrf88,
}

impl Frame {
    // The frame's code.
    pub fn code(self) -> u8
        ensures { result ≡ K.code_of self }
    {
        self as u8
    }
}

impl TryFrom<u32> for Frame {
    type Error = Refusal;

    ghost try_from_gives = { K.Decodes };

    fn try_from(code: u32) -> Result<Self, Refusal> {
        match code {
            0 => Ok(Frame::Itrf2008),
            1 => Ok(Frame::Itrf2005),
            2 => Ok(Frame::Itrf2000),
            3 => Ok(Frame::Itrf97),
            4 => Ok(Frame::Itrf96),
            5 => Ok(Frame::Itrf94),
            6 => Ok(Frame::Itrf93),
            7 => Ok(Frame::Itrf92),
            8 => Ok(Frame::Itrf91),
            9 => Ok(Frame::Itrf90),
            10 => Ok(Frame::Itrf89),
            11 => Ok(Frame::Itrf88),
            _ => Err(Refusal::Frame),
        }
    }
}

impl fmt::Display for Frame {
    fn fmt<W: fmt::Write>(&self, f: &mut fmt::Formatter<W>) -> fmt::Result {
        f.write_str(match self {
            Frame::Itrf2008 => "ITRF2008",
            Frame::Itrf2005 => "ITRF2005",
            Frame::Itrf2000 => "ITRF2000",
            Frame::Itrf97 => "ITRF97",
            Frame::Itrf96 => "ITRF96",
            Frame::Itrf94 => "ITRF94",
            Frame::Itrf93 => "ITRF93",
            Frame::Itrf92 => "ITRF92",
            Frame::Itrf91 => "ITRF91",
            Frame::Itrf90 => "ITRF90",
            Frame::Itrf89 => "ITRF89",
            Frame::Itrf88 => "ITRF88",
        })
    }
}
