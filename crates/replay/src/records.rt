// Kinds 9 and 10: write, export. And the card that a payload of kinds 9, 10, 12 and 13 holds.
use card::Card;
use refusal::Refusal;

// A card written into a lent buffer by `write`: as a card, or as its field edition.
pub fn answer_buffer<F: Fn(Card, &mut [u8]) -> Result<(), Refusal>>(
    s: &[u8],
    out: &mut [u8],
    write: F,
) -> usize
    requires { F.IsAlwaysCallable write }
{
    let mut space = [0xEEu8; 200];
    let n = wire::at_most(octets::unsigned_at(s, 0, 4), 200);
    let buffer = &mut space[..n];
    let written = write(raw_card(wire::from(s, 4)), buffer);
    let end = wire::put_number(out, 0, refusal::number_of(written));
    wire::put_run(out, end, buffer)
}

// The card of 115 bytes.
pub fn raw_card(s: &[u8]) -> Card {
    Card {
        site: layout::site_of(s),
        frame: wire::byte_at(s, 9),
        tide: wire::byte_at(s, 10),
        epoch: octets::signed_at(s, 11, 8),
        mark: layout::vector_at(s, 19, 8),
        velocity: layout::vector_at(s, 43, 8),
        position: layout::vector_at(s, 67, 8),
        solid: layout::vector_at(s, 91, 8),
    }
}
