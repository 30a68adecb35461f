// The card's bytes: read and written, and what a call on bytes starts from and ends with. Every function takes any bytes and any buffer.
#![tactic(auto)]

ghost use Rattle.std.specs.Prelude.{◌≡◌, length};
ghost use Rattle.refusal.specs.Answered as A;
ghost use Rattle.card.specs.Zero as Z;
ghost use Rattle.codec.specs.Codec as C;
ghost use Rattle.codec.specs.Opened as O;

use card::{Answer, Card};
use refusal::Refusal;

mod record;

// The length of a card's record, bytes.
pub const CARD_LENGTH: usize = 88;

// The number of a card's bytes: `Length` where the record has not exactly CARD_LENGTH bytes, then 2 to 9.
pub fn check(s: &[u8]) -> Result<(), Refusal>
    ensures { A.number result ≡ C.read_number s.now }
{
    let record = layout::whole(s)?;
    record::decode(record).check_with(record[11] == 0)
}

// Reads a card: `Length` where the record has not exactly CARD_LENGTH bytes, then 2 to 9.
pub fn read(s: &[u8]) -> Result<Card, Refusal>
    ensures { Z.answer_of result ≡ C.read_card s.now }
{
    let record = layout::whole(s)?;
    let c = record::decode(record);
    c.check_with(record[11] == 0)?;
    Ok(c)
}

// Writes a card: `Length` where the buffer has not exactly CARD_LENGTH bytes, then 2 to 9. Refused, no byte is written.
pub fn write(c: Card, out: &mut [u8]) -> Result<(), Refusal>
    ensures value { A.number result ≡ C.write_number c (length out.old) }
    ensures out_after { out.new ≡ C.written c out.old }
{
    if out.len() != CARD_LENGTH {
        return Err(Refusal::Length);
    }
    c.check()?;
    record::encode(c, out);
    Ok(())
}

// What a call on bytes starts from, for a buffer of `room` bytes: `Length` where a length is wrong, the record's refusal where its zero byte is not 0; else
// the card, not checked: the call checks it.
pub fn opened(s: &[u8], room: usize) -> Result<Card, Refusal>
    ensures { Z.answer_of result ≡ O.opened_for room s.now }
{
    if room != CARD_LENGTH {
        return Err(Refusal::Length);
    }
    let record = layout::whole(s)?;
    let held = record::decode(record);
    if record[11] != 0 {
        held.check_with(false)?;
    }
    Ok(held)
}

// What a call on bytes ends with: 1 where the buffer has not exactly CARD_LENGTH bytes, then the answer's number. At 0 the answer's card is
// written as it is; refused, no byte is.
pub fn put(a: Answer, out: &mut [u8]) -> u32
    ensures value { result ≡ O.put_number a (length out.old) }
    ensures out_after { out.new ≡ O.put_out a out.old }
{
    if out.len() != CARD_LENGTH {
        return Refusal::Length.number();
    }
    if a.number != 0 {
        return a.number;
    }
    record::encode(a.card, out);
    0
}
