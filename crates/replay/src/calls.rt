// Kind 13: a card and the calls on it, each on the card that the one before handed back.
use crate::records;
use card::{Answer, Card};

pub fn answer(s: &[u8], out: &mut [u8]) -> usize {
    let mut card = records::raw_card(s);
    let mut end = 0usize;
    for call in wire::from(s, 115).chunks_exact(64) {
        let r = called(card, call);
        end = wire::put_number(out, end, r.number);
        card = r.card;
    }
    wire::put_card(out, end, card)
}

fn called(c: Card, s: &[u8]) -> Answer {
    match wire::byte_at(s, 0) {
        1 => c.move_by(octets::signed_at(s, 1, 8)),
        2 => c.to_frame(wire::byte_at(s, 1) as u32),
        3 => c.mean_on(),
        4 => c.mean_off(),
        5 => c.solid_on(wire::body_at(s, 1), wire::body_at(s, 26)),
        _ => c.solid_off(),
    }
}
