// A catalogue: records of a card's length one after another. Lookup by site, a whole catalogue's check, the reader's step.
// Every function takes any bytes.
#![tactic(auto)]

ghost use Rattle.std.specs.Prelude.{◌≡◌, ◌≢◌, ◌/◌, ◌%◌, MatchResult, length};
ghost use Rattle.std.specs.Simd.{first_chunks};
ghost use Rattle.refusal.specs.declared.Refusal.TheVariants as Is;
ghost use Rattle.refusal.specs.Answered as A;
ghost use Rattle.codec.specs.Codec as C;
ghost use Rattle.catalogue.specs.Lookup as L;
ghost use Rattle.catalogue.specs.Reader as R;
ghost use Rattle.catalogue.specs.Whole as W;

use card::Card;
use codec::CARD_LENGTH;
use refusal::{Refusal, Refused};

// One step of a reader: the card, nothing where nothing was left, or the refusal; and the place of the next step in bytes.
#[derive(Clone, Copy, Debug, PartialEq, Eq)]
pub struct Taken {
    pub found: Result<Option<Card>, Refusal>,
    pub next: usize,
}

// A reader over a lent catalogue: the bytes, and the place of the next step in bytes.
#[derive(Clone, Copy)]
pub struct Reader<'a> {
    src: &'a [u8],
    at: usize,
}

// The first record whose first nine bytes are the key's, as the part of the catalogue that it is.
// Refused, an empty part at the catalogue's end.
pub fn find<'a>(catalogue: &'a [u8], key: &[u8]) -> &'a [u8]
    ensures result_value { result.now ≡ L.find_part catalogue.now key.now }
    ensures ref_ptr_value { result.ref_ptr ≡ L.place_of catalogue.entry.ref_ptr (L.find_place catalogue.now key.now) }
{
    match find_place(catalogue, key) {
        Ok(start) => {
            let end = start + CARD_LENGTH;
            &catalogue[start..end]
        }
        Err(_) => &catalogue[catalogue.len()..],
    }
}

// Where that lookup's part begins, in bytes, or `Site` for the key, then `CatalogueLength`, then `NoSuchSite`.
pub fn find_place(catalogue: &[u8], key: &[u8]) -> Result<usize, Refusal>
    ensures { A.answered (length catalogue.now) result ≡ L.found catalogue.now key.now }
{
    if !head::is_site(key) {
        return Err(Refusal::Site);
    }
    for (n, record) in records(catalogue)?.iter().enumerate() {
        if record.starts_with(key) {
            return Ok(n * CARD_LENGTH);
        }
    }
    Err(Refusal::NoSuchSite)
}

// Where that lookup's part begins, in bytes; refused, the catalogue's length.
pub fn place_or_end(catalogue: &[u8], key: &[u8]) -> usize
    ensures { result ≡ L.find_place catalogue.now key.now }
{
    find_place(catalogue, key).unwrap_or(catalogue.len())
}

// Checks a whole catalogue: the number of its cards, `CatalogueLength` with 0, or the first bad card's own refusal and its place, counted in cards from 0.
pub fn check(catalogue: &[u8]) -> Result<usize, Refused>
    ensures { A.counted result ≡ W.check_answer catalogue.now }
{
    let cards = records(catalogue).map_err(|refusal| Refused { refusal, place: 0 })?;
    for (place, card) in cards.iter().enumerate() {
        if let Err(refusal) = codec::check(card) {
            return Err(Refused { refusal, place });
        }
    }
    Ok(cards.len())
}

// The records of a catalogue, if its length is a multiple of theirs.
fn records(catalogue: &[u8]) -> Result<&[[u8; CARD_LENGTH]], Refusal>
    ensures { MatchResult result
        (λ rs. (length catalogue.now % C.card_length ≡ 0) × (rs.now ≡ first_chunks C.card_length (length catalogue.now / C.card_length) catalogue.now))
        (λ e. (length catalogue.now % C.card_length ≢ 0) × (e ≡ Is.CatalogueLength)) }
{
    let (whole, rest) = catalogue.as_chunks();
    if rest.is_empty() {
        Ok(whole)
    } else {
        Err(Refusal::CatalogueLength)
    }
}

// The reader's step at a place: the next record read as a card, `Length` for a last part that is short, or nothing.
pub fn take_at(s: &[u8], at: usize) -> Taken
    ensures { R.shown result ≡ R.taken_at s.now at }
{
    if s.len() <= at {
        return Taken {
            found: Ok(None),
            next: at,
        };
    }
    if s.len() - at < CARD_LENGTH {
        return Taken {
            found: Err(Refusal::Length),
            next: s.len(),
        };
    }
    let next = at + CARD_LENGTH;
    let found = match codec::read(&s[at..next]) {
        Ok(card) => Ok(Some(card)),
        Err(refusal) => Err(refusal),
    };
    Taken { found, next }
}

// A reader at the catalogue's first byte.
pub fn open<'a>(src: &'a [u8]) -> Reader<'a>
    ensures src_value { result.src ≡ src.entry }
    ensures at_value { result.at ≡ 0 }
{
    Reader { src, at: 0 }
}

// The next step: what `take_at` gives at the reader's place, which moves on.
pub fn next<'s, 'a>(r: &'s mut Reader<'a>) -> Taken
    ensures value { R.shown result ≡ R.taken_at r.old.src.now r.old.at }
    ensures src_unchanged { r.new.src ≡ r.old.src }
    ensures at_after { r.new.at ≡ (R.taken_at r.old.src.now r.old.at).next }
{
    let taken = take_at(r.src, r.at);
    r.at = taken.next;
    taken
}
