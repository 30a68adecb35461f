// A call from a card's record to a lent buffer: 1 where the buffer has not exactly CARD_LENGTH bytes (of codec), then the record's own checks, 1 to 9,
// then the call's. The card is checked once. Refused, no byte is written.
#![tactic(auto)]

ghost use Rattle.std.specs.Prelude.{◌≡◌, length};
ghost use Rattle.card.specs.Calls as L;
ghost use Rattle.records.specs.Bytes as B;

use card::{Answer, Call, Card};
use tides::Body;

// Moves the card by d quarter-days.
pub fn move_by(s: &[u8], d: i64, out: &mut [u8]) -> u32
    ensures value { result ≡ B.bytes_number (length out.old) s.now (L.move d) }
    ensures out_after { out.new ≡ B.bytes_out out.old s.now (L.move d) }
{
    called(s, out, move |card| card.move_by(d))
}

// Shifts the card to a frame.
pub fn to_frame(s: &[u8], frame: u32, out: &mut [u8]) -> u32
    ensures value { result ≡ B.bytes_number (length out.old) s.now (L.frame frame) }
    ensures out_after { out.new ≡ B.bytes_out out.old s.now (L.frame frame) }
{
    called(s, out, |card| card.to_frame(frame))
}

// Adds the permanent shift: tide-free to mean-tide.
pub fn mean_on(s: &[u8], out: &mut [u8]) -> u32
    ensures value { result ≡ B.bytes_number (length out.old) s.now L.mean_on }
    ensures out_after { out.new ≡ B.bytes_out out.old s.now L.mean_on }
{
    called(s, out, |card| card.mean_on())
}

// Takes the permanent shift away: mean-tide to tide-free.
pub fn mean_off(s: &[u8], out: &mut [u8]) -> u32
    ensures value { result ≡ B.bytes_number (length out.old) s.now L.mean_off }
    ensures out_after { out.new ≡ B.bytes_out out.old s.now L.mean_off }
{
    called(s, out, |card| card.mean_off())
}

// Adds the solid tide of a Moon and a Sun, in either order, and stores it.
pub fn solid_on(s: &[u8], first: Body, second: Body, out: &mut [u8]) -> u32
    ensures value { result ≡ B.bytes_number (length out.old) s.now (L.solid_on first second) }
    ensures out_after { out.new ≡ B.bytes_out out.old s.now (L.solid_on first second) }
{
    called(s, out, |card| card.solid_on(first, second))
}

// Takes the stored solid tide away.
pub fn solid_off(s: &[u8], out: &mut [u8]) -> u32
    ensures value { result ≡ B.bytes_number (length out.old) s.now L.solid_off }
    ensures out_after { out.new ≡ B.bytes_out out.old s.now L.solid_off }
{
    called(s, out, |card| card.solid_off())
}

// The call that k is. For lists of calls.
pub fn call_bytes(s: &[u8], k: Call, out: &mut [u8]) -> u32
    ensures value { result ≡ B.bytes_number (length out.old) s.now (L.call_of k) }
    ensures out_after { out.new ≡ B.bytes_out out.old s.now (L.call_of k) }
{
    match k {
        Call::Move(d) => move_by(s, d, out),
        Call::Frame(g) => to_frame(s, g, out),
        Call::MeanOn => mean_on(s, out),
        Call::MeanOff => mean_off(s, out),
        Call::SolidOn(a, b) => solid_on(s, a, b, out),
        Call::SolidOff => solid_off(s, out),
    }
}

// What all six share: what the record starts from, the card's own call, what it ends with.
fn called<F: FnOnce(Card) -> Answer>(s: &[u8], out: &mut [u8], call: F) -> u32
    requires { F.IsAlwaysCallable call }
    ensures { B.Called (F.post call) s.now out.old result out.new }
{
    match codec::opened(s, out.len()) {
        Ok(card) => codec::put(call(card), out),
        Err(refusal) => refusal.number(),
    }
}
