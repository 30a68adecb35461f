// A line of the listing: a part's card as text, or its refusal. Every function takes any bytes and any buffer.
#![tactic(auto)]

ghost use Rattle.std.specs.Prelude.{◌≡◌, length};
ghost use Rattle.octets.specs.Octets as O;
ghost use Rattle.listing.specs.Line as T;

use card::Card;

// The most bytes that a line has.
pub const LINE_MOST: usize = 120;

// Writes the listing line of one part from the buffer's first byte on, and answers how many bytes the line has, at most 120.
// What lies past the buffer's end is not written.
pub fn line(s: &[u8], out: &mut [u8]) -> usize
    ensures value { result ≡ length (T.line_of s.now) }
    ensures out_after { out.new ≡ O.splice out.old 0 (T.line_of s.now) }
{
    match codec::read(s) {
        Ok(card) => put_card(out, card),
        Err(refusal) => put_refused(out, refusal.number()),
    }
}

// `refused`, the number, a line feed.
fn put_refused(out: &mut [u8], number: u32) -> usize
    ensures value { result ≡ length (T.refused_line number) }
    ensures out_after { out.new ≡ O.splice out.old 0 (T.refused_line number) }
{
    let word = text::put_bytes(out, 0, b"refused");
    let end = text::put_next(out, word, number as i64);
    text::put_bytes(out, end, b"\n")
}

// Site, frame, epoch, position, a line feed.
fn put_card(out: &mut [u8], c: Card) -> usize
    ensures value { result ≡ length (T.card_line c) }
    ensures out_after { out.new ≡ O.splice out.old 0 (T.card_line c) }
{
    let s = text::put_bytes(out, 0, &c.site);
    let f = text::put_next(out, s, c.frame as i64);
    let e = text::put_next(out, f, c.epoch);
    let x = text::put_next(out, e, c.position.x);
    let y = text::put_next(out, x, c.position.y);
    let z = text::put_next(out, y, c.position.z);
    text::put_bytes(out, z, b"\n")
}
