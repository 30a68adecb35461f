// Refusals: why a call is refused, the number that the paper gives each, and its words. A call that can be refused and has nothing else to say answers a
// `Result` with one of them. The laws of tables of refusals, and of outputs that are kept, stand in proofs/, the definitions that statements cite in specs/.
#![tactic(auto)]

ghost use Rattle.std.specs.Prelude.{◌≡◌};
ghost use Rattle.refusal.specs.Answered as A;

use std::error::Error;
use std::fmt;

// Why a call is refused, in the order of the paper's table: 1 to 17.
#[derive(Clone, Copy, Debug, PartialEq, Eq)]
pub enum Refusal {
    Length = 1,
    Site,
    Frame,
    TideByte,
    Epoch,
    Mark,
    Velocity,
    Position,
    StoredTide,
    BodyNotFinite,
    BodyDistance,
    TideState,
    MoveUnderSolidTide,
    CatalogueLength,
    NoSuchSite,
    SeriesLength,
    BodyPair,
}

impl Refusal {
    // The paper's number.
    pub fn number(self) -> u32
        ensures { result ≡ A.number_of self }
    {
        self as u32
    }
}

// The paper's number of an answer: that of its refusal, 0 where it is accepted.
pub fn number_of<T: Copy>(answer: Result<T, Refusal>) -> u32
    ensures { result ≡ A.number answer }
{
    match answer {
        Ok(_) => 0,
        Err(refusal) => refusal.number(),
    }
}

impl fmt::Display for Refusal {
    fn fmt<W: fmt::Write>(&self, f: &mut fmt::Formatter<W>) -> fmt::Result {
        f.write_str(match self {
            Refusal::Length => "a length is wrong: a record's, or an output's",
            Refusal::Site => "the site is not five digits, M or S, three digits",
            Refusal::Frame => "the frame is unknown",
            Refusal::TideByte =>
                "byte 10 or a zero byte is wrong, or a tide vector is stored though byte 10 is not 2",
            Refusal::Epoch => "the epoch is outside -146,100 to 146,100 quarter-days from 2000.0",
            Refusal::Mark => "the mark is not from 6,300,000 to 6,400,000 metres",
            Refusal::Velocity => "the velocity is past 500,000 micrometres a year",
            Refusal::Position => "the position is farther than 1,000 m from the mark",
            Refusal::StoredTide => "the tide vector is past 1 m",
            Refusal::BodyNotFinite => "a body's component is infinite or not a number",
            Refusal::BodyDistance => "a body's distance is out of range",
            Refusal::TideState => "the tide is already so, not on, or of the other kind",
            Refusal::MoveUnderSolidTide => "the epoch cannot move with solid tide on",
            Refusal::CatalogueLength => "the catalogue's length is no multiple of a card's",
            Refusal::NoSuchSite => "there is no such site",
            Refusal::SeriesLength => "the series' lengths do not fit",
            Refusal::BodyPair => "the bodies are not one Moon and one Sun",
        })
    }
}

impl Error for Refusal {}

// A refusal, and the place of what is refused: a series' row or a catalogue's card, counted from 0.
#[derive(Clone, Copy, Debug, PartialEq, Eq)]
pub struct Refused {
    pub refusal: Refusal,
    pub place: usize,
}
