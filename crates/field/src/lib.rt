// The field edition, 48 bytes: export and expand; and metres out. Every function takes any card and any bytes.
#![tactic(auto)]

ghost use Rattle.std.specs.Prelude.{◌≡◌, length};
ghost use Rattle.refusal.specs.Answered as A;
ghost use Rattle.card.specs.Zero as Z;
ghost use Rattle.field.specs.Field as F;
ghost use Rattle.field.specs.MetresOut as M;

use card::Card;
use head::state::state_of;
use refusal::Refusal;

mod record;

// The length of a field record, bytes.
pub const FIELD_LENGTH: usize = 48;

// Where a card stands from its mark, metres.
#[derive(Clone, Copy, Debug, PartialEq)]
pub struct Metres {
    pub x: f64,
    pub y: f64,
    pub z: f64,
}

impl Metres {
    // What the paper gives a refused card: three zeros, each +0.
    pub fn zeros() -> Metres
        ensures { result ≡ M.no_metres }
    {
        Metres {
            x: 0.0,
            y: 0.0,
            z: 0.0,
        }
    }

    // What the paper gives: the metres of an answer, three zeros beside a refusal.
    pub fn or_zeros(answer: Result<Metres, Refusal>) -> Metres
        ensures { result ≡ (A.answered M.no_metres answer).value }
    {
        answer.unwrap_or(Metres::zeros())
    }
}

// Writes the field edition of a card: `Length` where the buffer has not exactly 48 bytes, then 2 to 9, then `TideState` with solid tide on.
// Refused, no byte is written.
pub fn export(c: Card, out: &mut [u8]) -> Result<(), Refusal>
    ensures value { A.number result ≡ F.export_number c (length out.old) }
    ensures out_after { out.new ≡ F.exported c out.old }
{
    if out.len() != FIELD_LENGTH {
        return Err(Refusal::Length);
    }
    let away = c.from_mark()?;
    if state_of(c.tide) == 2 {
        return Err(Refusal::TideState);
    }
    record::encode_field(c, away, out);
    Ok(())
}

// Expands a field record into a card: `Length` where it has not exactly 48 bytes, then 2 to 8.
pub fn expand(s: &[u8]) -> Result<Card, Refusal>
    ensures { Z.answer_of result ≡ F.expand_card s.now }
{
    let bytes = layout::whole(s)?;
    let opened = record::open(bytes);
    record::check_opened(opened, record::zero_bytes(bytes))?;
    Ok(record::expanded(opened))
}

// Where a card stands from its mark, in metres.
pub fn metres_out(c: Card) -> Result<Metres, Refusal>
    ensures { A.answered M.no_metres result ≡ M.metres_of c }
{
    let away = c.from_mark()?;
    Ok(Metres {
        x: record::in_metres(away.x),
        y: record::in_metres(away.y),
        z: record::in_metres(away.z),
    })
}
