// A card's record of the right length: what it holds, and what is written of a card.
ghost use Rattle.std.specs.Prelude.{◌≡◌, length};
ghost use Rattle.codec.specs.Codec as C;

use crate::CARD_LENGTH;
use card::Card;

pub fn decode(s: &[u8; CARD_LENGTH]) -> Card
    ensures { result ≡ C.decode s.now }
{
    Card {
        site: layout::site_of(s),
        frame: s[9],
        tide: s[10],
        epoch: octets::signed_at(s, 12, 4),
        mark: layout::vector_at(s, 16, 4),
        velocity: layout::vector_at(s, 28, 4),
        position: layout::vector_at(s, 40, 8),
        solid: layout::vector_at(s, 64, 8),
    }
}

pub fn encode(c: Card, out: &mut [u8])
    requires { length out.old ≡ C.card_length }
    ensures { out.new ≡ C.encode c }
{
    layout::put_head(out, c.site, c.frame, c.tide);
    octets::put_signed(out, 12, 4, c.epoch);
    layout::put_vector(out, 16, 4, c.mark);
    layout::put_vector(out, 28, 4, c.velocity);
    layout::put_vector(out, 40, 8, c.position);
    layout::put_vector(out, 64, 8, c.solid);
}
