// The station card: its checks 2 to 9 and the six calls. Every function takes any card and refuses by number.
#![tactic(auto)]

ghost use Rattle.std.specs.Prelude.{◌≡◌};
ghost use Rattle.refusal.specs.Answered as A;
ghost use Rattle.refusal.specs.Refusal as R;
ghost use Rattle.mark.specs.Mark as M;
ghost use Rattle.card.specs.Checks as K;
ghost use Rattle.card.specs.Zero as Z;
ghost use Rattle.card.specs.Calls as L;
ghost use Rattle.card.specs.Steps as S;

use mark::Vec3;
use refusal::Refusal;
use tides::Body;

mod calls;
mod checks;
mod vectors;

// A card. Any value may be handed to any call.
#[derive(Clone, Copy, Debug, PartialEq, Eq)]
pub struct Card {
    // five digits, M or S, three digits
    pub site: [u8; 9],
    // 0 ITRF2008, 1 ITRF2005, 2 ITRF2000, then 3 ITRF97 to 11 ITRF88
    pub frame: u8,
    // byte 10: 0 tide-free, 1 mean-tide, 2 tide-free with solid tide on
    pub tide: u8,
    // quarter-days from 2000.0
    pub epoch: i64,
    // whole metres
    pub mark: Vec3,
    // micrometres a year, which is grains a quarter-day
    pub velocity: Vec3,
    // grains
    pub position: Vec3,
    // the solid tide in force, grains
    pub solid: Vec3,
}

// A refusal number, 0 when accepted, and a card.
#[derive(Clone, Copy, Debug, PartialEq, Eq)]
pub struct Answer {
    pub number: u32,
    pub card: Card,
}

// A call on a card, as data.
#[derive(Clone, Copy, Debug, PartialEq)]
pub enum Call {
    // quarter-days
    Move(i64),
    // a code, known or not
    Frame(u32),
    MeanOn,
    MeanOff,
    SolidOn(Body, Body),
    SolidOff,
}

// A refusal, with the card of all zeros.
#[tactic(auto, unfolding(crate::specs::Zero::zero_card))]
pub fn refused(number: u32) -> Answer
    ensures { result ≡ Z.refused_with number }
{
    let zero = Vec3 { x: 0, y: 0, z: 0 };
    Answer {
        number,
        card: Card {
            site: [0u8; 9],
            frame: 0,
            tide: 0,
            epoch: 0,
            mark: zero,
            velocity: zero,
            position: zero,
            solid: zero,
        },
    }
}

// What the paper says of a read: the card with 0, or the refusal's number with the card of all zeros.
impl From<Result<Card, Refusal>> for Answer {
    ghost from_gives = { λ read answer. answer ≡ Z.answer_of read };

    fn from(read: Result<Card, Refusal>) -> Answer {
        match read {
            Ok(card) => Answer { number: 0, card },
            Err(refusal) => refused(refusal.number()),
        }
    }
}

impl Card {
    // The card's own checks: 2 to 9, or 0.
    #[tactic(auto, unfolding(crate::specs::Checks::card_number))]
    pub fn check(self) -> Result<(), Refusal>
        ensures { A.number result ≡ K.card_number self }
    {
        checks::refusal_of(self, true)
    }

    // The same for a record of which `zeros` says that its zero bytes are zero.
    pub fn check_with(self, zeros: bool) -> Result<(), Refusal>
        ensures { A.number result ≡ R.first (K.checks zeros self) }
    {
        checks::refusal_of(self, zeros)
    }

    // Where the card stands from its mark, grains.
    pub fn from_mark(self) -> Result<Vec3, Refusal>
        ensures { A.answered M.nowhere result ≡ K.offset_answer self }
    {
        self.check()?;
        Ok(checks::from_mark(self.mark, self.position))
    }

    // Moves the card by d quarter-days.
    pub fn move_by(self, d: i64) -> Answer
        ensures { result ≡ L.step self (L.move d) }
    {
        self.settled(calls::moved(self, d))
    }

    // Shifts the card to a frame.
    pub fn to_frame(self, frame: u32) -> Answer
        ensures { result ≡ L.step self (L.frame frame) }
    {
        self.settled(calls::reframed(self, frame))
    }

    // Adds the permanent shift: tide-free to mean-tide.
    pub fn mean_on(self) -> Answer
        ensures { result ≡ L.step self L.mean_on }
    {
        self.settled(calls::mean_added(self))
    }

    // Takes the permanent shift away: mean-tide to tide-free.
    pub fn mean_off(self) -> Answer
        ensures { result ≡ L.step self L.mean_off }
    {
        self.settled(calls::mean_taken(self))
    }

    // Adds the solid tide of a Moon and a Sun, in either order, and stores it.
    pub fn solid_on(self, first: Body, second: Body) -> Answer
        ensures { result ≡ L.step self (L.solid_on first second) }
    {
        self.settled(calls::solid_added(self, first, second))
    }

    // Takes the stored solid tide away.
    pub fn solid_off(self) -> Answer
        ensures { result ≡ L.step self L.solid_off }
    {
        self.settled(calls::solid_taken(self))
    }

    // A call's answer: the card that comes next with 0, or the refusal's number with the card that was handed in.
    fn settled(self, next: Result<Card, Refusal>) -> Answer
        ensures { result ≡ S.settled self next }
    {
        match next {
            Ok(card) => Answer { number: 0, card },
            Err(refusal) => Answer {
                number: refusal.number(),
                card: self,
            },
        }
    }
}
