// The C face: cards as bytes, refusals as numbers. An output's length comes first (1), then the record's own checks (1 to 9), then the
// call's. A refused call writes nothing. include/netvjesha.h declares these functions.
#![tactic(auto)]

ghost use Rattle.std.specs.Prelude.{◌≡◌, length};
ghost use Rattle.refusal.specs.Answered as A;
ghost use Rattle.mark.specs.Mark as M;
ghost use Rattle.series.specs.Series as S;
ghost use Rattle.card.specs.Calls as L;
ghost use Rattle.codec.specs.Codec as C;
ghost use Rattle.records.specs.Bytes as B;
ghost use Rattle.catalogue.specs.Lookup as K;
ghost use Rattle.netvjesha.specs.Face as F;
ghost use Rattle.netvjesha.specs.Steps as P;

use field::FIELD_LENGTH;
use mark::Vec3;
use refusal::{Refusal, Refused};
use tides::{Body, BodyVector};

// A body by its label, 1 a Sun and 0 a Moon, where both labels of the call are such. Else a Moon at `none`, and two Moons are no pair.
fn labelled(la: u32, lb: u32, label: u32, none: BodyVector, v: BodyVector) -> Body
    ensures { result ≡ P.labelled la lb label none v }
{
    if 1 < la {
        return Body::Moon(none);
    }
    if 1 < lb {
        return Body::Moon(none);
    }
    if label == 1 {
        return Body::Sun(v);
    }
    Body::Moon(v)
}

// A number and a count or place in one: number + 256 x place, exact below 2^56 places.
fn packed(answer: Result<usize, Refused>) -> u64
    ensures { result ≡ F.packed_rows (A.counted answer) }
{
    let (number, place) = match answer {
        Ok(count) => (0, count),
        Err(refused) => (refused.refusal.number(), refused.place),
    };
    u64::from(number) + 256 * (place as u64 % 72057594037927936)
}

// The field edition of a card's record, into a buffer.
fn put_edition(s: &[u8], edition: &mut [u8]) -> Result<(), Refusal>
    ensures value { A.number result ≡ F.exported_number (length edition.old) s.now }
    ensures edition_after { edition.new ≡ F.exported_out edition.old s.now }
{
    let fits = edition.len() == FIELD_LENGTH;
    if !fits {
        return Err(Refusal::Length);
    }
    let card = codec::read(s)?;
    field::export(card, edition)
}

// Where a record's card stands from its mark, metres, into three doubles.
fn put_metres(s: &[u8], out: &mut [f64]) -> Result<(), Refusal>
    ensures value { A.number result ≡ F.metres_number (length out.old) s.now }
    ensures out_after { out.new ≡ F.metres_out out.old s.now }
{
    if out.len() != 3 {
        return Err(Refusal::Length);
    }
    let m = field::metres_out(codec::read(s)?)?;
    out.copy_from_slice(&[m.x, m.y, m.z]);
    Ok(())
}

// The permanent shift at a mark, grains, into three numbers.
fn put_permanent(m: Vec3, out: &mut [i64]) -> Result<(), Refusal>
    ensures value { A.number result ≡ F.permanent_number (length out.old) m }
    ensures out_after { out.new ≡ F.permanent_out out.old m }
{
    if out.len() != 3 {
        return Err(Refusal::Length);
    }
    let d = tides::permanent(m)?;
    out.copy_from_slice(&[d.x, d.y, d.z]);
    Ok(())
}

// The number of a card's bytes: 1 to 9, or 0.
#[unsafe(no_mangle)]
pub extern "C" fn nv_check(s: &[u8]) -> u32
    ensures { result ≡ C.read_number s.now }
{
    refusal::number_of(codec::check(s))
}

// Moves a card by d quarter-days.
#[unsafe(no_mangle)]
pub extern "C" fn nv_move(s: &[u8], d: i64, out: &mut [u8]) -> u32
    ensures value { result ≡ B.bytes_number (length out.old) s.now (L.move d) }
    ensures out_after { out.new ≡ B.bytes_out out.old s.now (L.move d) }
{
    records::move_by(s, d, out)
}

// Shifts a card to a frame, 0 ITRF2008 to 11 ITRF88. The code has 32 bits, so that 256 is refused and not taken for 0; the labels of bodies likewise.
#[unsafe(no_mangle)]
pub extern "C" fn nv_frame(s: &[u8], frame: u32, out: &mut [u8]) -> u32
    ensures value { result ≡ B.bytes_number (length out.old) s.now (L.frame frame) }
    ensures out_after { out.new ≡ B.bytes_out out.old s.now (L.frame frame) }
{
    records::to_frame(s, frame, out)
}

// Adds the permanent shift: tide-free to mean-tide.
#[unsafe(no_mangle)]
pub extern "C" fn nv_mean_on(s: &[u8], out: &mut [u8]) -> u32
    ensures value { result ≡ B.bytes_number (length out.old) s.now L.mean_on }
    ensures out_after { out.new ≡ B.bytes_out out.old s.now L.mean_on }
{
    records::mean_on(s, out)
}

// Takes the permanent shift away: mean-tide to tide-free.
#[unsafe(no_mangle)]
pub extern "C" fn nv_mean_off(s: &[u8], out: &mut [u8]) -> u32
    ensures value { result ≡ B.bytes_number (length out.old) s.now L.mean_off }
    ensures out_after { out.new ≡ B.bytes_out out.old s.now L.mean_off }
{
    records::mean_off(s, out)
}

// Takes the stored solid tide away.
#[unsafe(no_mangle)]
pub extern "C" fn nv_solid_off(s: &[u8], out: &mut [u8]) -> u32
    ensures value { result ≡ B.bytes_number (length out.old) s.now L.solid_off }
    ensures out_after { out.new ≡ B.bytes_out out.old s.now L.solid_off }
{
    records::solid_off(s, out)
}

// Adds the solid tide of a Moon (label 0, metres) and a Sun (label 1, kilometres), in either order, and stores it. Two Moons stand for a label
// that is neither, since they are refused alike.
#[unsafe(no_mangle)]
pub extern "C" fn nv_solid_on(
    s: &[u8],
    la: u32,
    ax: f64,
    ay: f64,
    az: f64,
    lb: u32,
    bx: f64,
    by: f64,
    bz: f64,
    out: &mut [u8],
) -> u32
    ensures value { result ≡ B.bytes_number (length out.old) s.now (F.solid_call la (F.body_vector ax ay az) lb (F.body_vector bx by bz)) }
    ensures out_after { out.new ≡ B.bytes_out out.old s.now (F.solid_call la (F.body_vector ax ay az) lb (F.body_vector bx by bz)) }
{
    let v = BodyVector {
        x: ax,
        y: ay,
        z: az,
    };
    let w = BodyVector {
        x: bx,
        y: by,
        z: bz,
    };
    let first = labelled(la, lb, la, v, v);
    let second = labelled(la, lb, lb, v, w);
    records::solid_on(s, first, second, out)
}

// Writes the field edition of a card, 48 bytes.
#[unsafe(no_mangle)]
pub extern "C" fn nv_export(s: &[u8], edition: &mut [u8]) -> u32
    ensures value { result ≡ F.exported_number (length edition.old) s.now }
    ensures edition_after { edition.new ≡ F.exported_out edition.old s.now }
{
    refusal::number_of(put_edition(s, edition))
}

// Expands a field record, 48 bytes, into a card.
#[unsafe(no_mangle)]
pub extern "C" fn nv_expand(edition: &[u8], out: &mut [u8]) -> u32
    ensures value { result ≡ F.expanded_number (length out.old) edition.now }
    ensures out_after { out.new ≡ F.expanded_out out.old edition.now }
{
    codec::put(field::expand(edition).into(), out)
}

// Where a card stands from its mark: three doubles, metres.
#[unsafe(no_mangle)]
pub extern "C" fn nv_metres(s: &[u8], out: &mut [f64]) -> u32
    ensures value { result ≡ F.metres_number (length out.old) s.now }
    ensures out_after { out.new ≡ F.metres_out out.old s.now }
{
    refusal::number_of(put_metres(s, out))
}

// The permanent shift at a mark in whole metres: three numbers, grains. 1 output, 6 mark.
#[unsafe(no_mangle)]
pub extern "C" fn nv_permanent(x: i64, y: i64, z: i64, out: &mut [i64]) -> u32
    ensures value { result ≡ F.permanent_number (length out.old) (M.vec x y z) }
    ensures out_after { out.new ≡ F.permanent_out out.old (M.vec x y z) }
{
    refusal::number_of(put_permanent(Vec3 { x, y, z }, out))
}

// The solid tides of many rows at a mark: six doubles to a row in, three numbers to a row out. Number + 256 x (rows, or the bad row).
#[unsafe(no_mangle)]
pub extern "C" fn nv_series(x: i64, y: i64, z: i64, bodies: &[f64], out: &mut [i64]) -> u64
    ensures value { result ≡ F.packed_rows (S.series_answer (M.vec x y z) bodies.now (length out.old)) }
    ensures out_after { out.new ≡ S.series_numbers (M.vec x y z) bodies.now out.old }
{
    packed(series::series(Vec3 { x, y, z }, bodies, out))
}

// The check of a whole catalogue: number + 256 x place, the place of the first bad card counted in cards from 0. 14 comes with place 0;
// accepted, the place is the number of cards.
#[unsafe(no_mangle)]
pub extern "C" fn nv_check_catalogue(records: &[u8]) -> u64
    ensures { result ≡ F.checked_catalogue records.now }
{
    packed(catalogue::check(records))
}

// Where the first record with the key's nine bytes begins in a catalogue, in bytes. Refused, the catalogue's length.
#[unsafe(no_mangle)]
pub extern "C" fn nv_find(records: &[u8], key: &[u8]) -> usize
    ensures { result ≡ K.find_place records.now key.now }
{
    catalogue::place_or_end(records, key)
}

// The number of that lookup: 2, then 14, then 15, and 0 when found.
#[unsafe(no_mangle)]
pub extern "C" fn nv_find_number(records: &[u8], key: &[u8]) -> u32
    ensures { result ≡ K.find_number records.now key.now }
{
    refusal::number_of(catalogue::find_place(records, key))
}
