// What a vector holds, what an answering line is made of, and the turn from one to the other (docs/VECTORS.md). The programs that answer vectors share it.
// A part of a line is put at a place in a lent buffer, as those of `text` are, and the place after it is answered.
#![tactic(auto)]

ghost use Rattle.std.specs.Prelude.{◌≡◌, ◌≤◌, IfOk, IfSome, min, drop, get_or, length, take};
ghost use Rattle.streams.specs.Left.{TookSome};
ghost use Rattle.octets.specs.Octets as O;
ghost use Rattle.text.specs.Text as T;
ghost use Rattle.wire.specs.Kinds as K;
ghost use Rattle.wire.specs.Line as L;
ghost use Rattle.wire.specs.Payload as P;

use card::{Answer, Card};
use mark::Vec3;
use refusal::{Refusal, Refused};
use std::io;
use std::io::{Read, Write};
use streams::Turn;
use tides::{Body, BodyVector};

// The bytes of a payload, and of a line, at most.
pub const MOST: usize = 65536;

// What a vector asks for. A number that no kind has is `Other`.
#[derive(Clone, Copy, Debug, PartialEq, Eq)]
pub enum Kind {
    Near,
    Root,
    Whole,
    Permanent,
    Rows,
    Pair,
    Series,
    Read,
    Write,
    Export,
    Expand,
    Metres,
    Calls,
    Lookup,
    Reader,
    Line,
    Check,
    Other,
}

impl From<u8> for Kind {
    ghost from_gives = { λ number kind. kind ≡ K.kind_of number };

    fn from(number: u8) -> Kind {
        match number {
            1 => Kind::Near,
            2 => Kind::Root,
            3 => Kind::Whole,
            4 => Kind::Permanent,
            5 => Kind::Rows,
            6 => Kind::Pair,
            7 => Kind::Series,
            8 => Kind::Read,
            9 => Kind::Write,
            10 => Kind::Export,
            11 => Kind::Expand,
            12 => Kind::Metres,
            13 => Kind::Calls,
            14 => Kind::Lookup,
            15 => Kind::Reader,
            16 => Kind::Line,
            17 => Kind::Check,
            _ => Kind::Other,
        }
    }
}

// A vector that was read: its kind, and how many bytes of its payload were read.
#[derive(Clone, Copy)]
pub struct Vector {
    pub kind: Kind,
    pub length: usize,
}

// Reads the next vector of a stream, its payload to the start of `space`; none where no whole header is left. A payload that is longer than `space` is read up to there.
// The error of a read that fails is handed on, and there is no other; some bytes may have been taken from the stream then, and `space` is as long as it was.
pub fn read<R: Read>(input: &mut R, space: &mut [u8]) -> io::Result<Option<Vector>>
    ensures ok { IfOk result (λ r. IfSome r (λ v. v.length ≤ length space.new)) }
    ensures payload { IfOk result (λ r. IfSome r (λ v. P.TookVector (R.remaining input.old) (R.remaining input.new) v.kind (take v.length space.new))) }
    ensures took { TookSome (R.remaining input.old) (R.remaining input.new) }
    ensures room { length space.new ≡ length space.old }
{
    let mut header = [0u8; 8];
    if streams::read_full(input, &mut header)? < header.len() {
        return Ok(None);
    }
    let most = at_most(octets::unsigned_at(&header, 4, 4), space.len());
    let length = streams::read_full(input, &mut space[..most])?;
    Ok(Some(Vector {
        kind: Kind::from(header[0]),
        length,
    }))
}

// What a program answers to a vector.
pub trait Answers {
    // Puts the line of a payload of this kind, but for its end, to the start of a buffer, and answers its length. The buffer is as long as it was.
    fn put_answer(&self, kind: Kind, payload: &[u8], line: &mut [u8]) -> usize
        ensures { length line.new ≡ length line.old };
}

// Answers each vector of a stream by a line, until no whole header is left. The error of a read or a write that fails is handed on.
pub fn answer_all<A: Answers, R: Read, W: Write>(
    answers: &A,
    input: &mut R,
    output: &mut W,
) -> io::Result<()>
    ensures { TookSome (R.remaining input.old) (R.remaining input.new) }
{
    streams::take_turns(&Answering(answers), input, output)
}

// A turn for each vector.
#[derive(Clone, Copy)]
struct Answering<'a, A>(&'a A);

impl<A: Answers> Turn for Answering<'_, A> {
    fn take<R: Read, W: Write>(&self, input: &mut R, output: &mut W) -> io::Result<bool> {
        let mut space = [0u8; MOST];
        let Some(vector) = read(input, &mut space)? else {
            return Ok(false);
        };
        write_line(self.0, output, vector.kind, &space[..vector.length])?;
        Ok(true)
    }
}

// Makes a vector's line in a buffer, and writes it at once. The buffer stands in a function of its own: beside the payload's the compiler cleared it twice.
fn write_line<A: Answers, W: Write>(
    answers: &A,
    output: &mut W,
    kind: Kind,
    payload: &[u8],
) -> io::Result<()> {
    let mut line = [0u8; MOST];
    let end = answers.put_answer(kind, payload, &mut line);
    let whole = text::put_bytes(&mut line, end, b"\n");
    output.write_all(first(&line, whole))
}

// The lesser of a number read and a limit.
pub fn at_most(n: u64, limit: usize) -> usize
    ensures { result ≡ min n limit }
{
    n.min(limit as u64) as usize
}

// The first n bytes, or all.
pub fn first<'a>(s: &'a [u8], n: usize) -> &'a [u8]
    ensures { result.now ≡ take n s.now }
{
    s.get(..n).unwrap_or(s)
}

// The bytes from `at` on: none past the end.
pub fn from<'a>(s: &'a [u8], at: usize) -> &'a [u8]
    ensures { result.now ≡ drop at s.now }
{
    s.get(at..).unwrap_or(&[])
}

// The byte at a place, 0 past the end.
pub fn byte_at(s: &[u8], at: usize) -> u8
    ensures { result ≡ get_or s.now at 0 }
{
    s.get(at).copied().unwrap_or(0)
}

// The body of 25 bytes at a place: metres for a Moon, kilometres for a Sun.
#[tactic(auto, unfolding(crate::specs::Payload::body_at))]
pub fn body_at(s: &[u8], at: u16) -> Body
    ensures { result ≡ P.body_at s.now at }
{
    let k = at as usize;
    let v = BodyVector {
        x: octets::double_at(s, k + 1),
        y: octets::double_at(s, k + 9),
        z: octets::double_at(s, k + 17),
    };
    match byte_at(s, k) {
        0 => Body::Moon(v),
        _ => Body::Sun(v),
    }
}

// An answer's number, and a space.
#[tactic(auto, using(crate::proofs::PartLaws::place_after, crate::proofs::PartLaws::holds_both), unfolding(crate::specs::Line::number_part))]
pub fn put_number(out: &mut [u8], at: usize, n: u32) -> usize
    ensures value { result ≡ T.after at (length (L.number_part n)) }
    ensures out_after { out.new ≡ O.splice out.old at (L.number_part n) }
{
    let end = text::put_natural(out, at, n as u64);
    text::put_bytes(out, end, b" ")
}

// Three numbers, with a space before each.
pub fn put_vector(out: &mut [u8], at: usize, v: Vec3) -> usize
    ensures value { result ≡ T.after at (length (L.vector_part v)) }
    ensures out_after { out.new ≡ O.splice out.old at (L.vector_part v) }
{
    let x = text::put_next(out, at, v.x);
    let y = text::put_next(out, x, v.y);
    text::put_next(out, y, v.z)
}

// A card's 16 parts: the site, and five times three numbers.
pub fn put_card(out: &mut [u8], at: usize, c: Card) -> usize
    ensures value { result ≡ T.after at (length (L.card_part c)) }
    ensures out_after { out.new ≡ O.splice out.old at (L.card_part c) }
{
    let s = put_run(out, at, &c.site);
    let e = put_first(out, s, c.frame, c.tide, c.epoch);
    let m = put_vector(out, e, c.mark);
    let v = put_vector(out, m, c.velocity);
    let p = put_vector(out, v, c.position);
    put_vector(out, p, c.solid)
}

// A card's frame, byte 10 and epoch.
fn put_first(out: &mut [u8], at: usize, frame: u8, tide: u8, epoch: i64) -> usize
    ensures value { result ≡ T.after at (length (L.first_part frame tide epoch)) }
    ensures out_after { out.new ≡ O.splice out.old at (L.first_part frame tide epoch) }
{
    let f = text::put_next(out, at, frame as i64);
    let t = text::put_next(out, f, tide as i64);
    text::put_next(out, t, epoch)
}

// What a read says: its number and a space, and the card.
#[tactic(auto, using(crate::proofs::PartLaws::place_after, crate::proofs::PartLaws::holds_both), unfolding(crate::specs::Line::read_part))]
pub fn put_read(out: &mut [u8], at: usize, read: Result<Card, Refusal>) -> usize
    ensures value { result ≡ T.after at (length (L.read_part read)) }
    ensures out_after { out.new ≡ O.splice out.old at (L.read_part read) }
{
    let answer = Answer::from(read);
    let end = put_number(out, at, answer.number);
    put_card(out, end, answer.card)
}

// What a step of a catalogue's reader found: what a read says, or what is put where nothing was left.
#[tactic(auto, unfolding(crate::specs::Line::step_part))]
pub fn put_step(out: &mut [u8], at: usize, found: Result<Option<Card>, Refusal>) -> usize
    ensures value { result ≡ T.after at (length (L.step_part found)) }
    ensures out_after { out.new ≡ O.splice out.old at (L.step_part found) }
{
    match found.transpose() {
        Some(read) => put_read(out, at, read),
        None => put_done(out, at),
    }
}

// `done` and a space, and the card of all zeros.
#[tactic(auto, using(crate::proofs::PartLaws::place_after, crate::proofs::PartLaws::holds_both), unfolding(crate::specs::Line::done_part))]
fn put_done(out: &mut [u8], at: usize) -> usize
    ensures value { result ≡ T.after at (length L.done_part) }
    ensures out_after { out.new ≡ O.splice out.old at L.done_part }
{
    let end = text::put_bytes(out, at, b"done ");
    put_card(out, end, card::refused(0).card)
}

// A count after 0 and a space, or a refusal's number, a space and its place.
#[tactic(auto, using(crate::proofs::PartLaws::place_after, crate::proofs::PartLaws::holds_both), unfolding(crate::specs::Line::count_part))]
pub fn put_count(out: &mut [u8], at: usize, counted: Result<usize, Refused>) -> usize
    ensures value { result ≡ T.after at (length (L.count_part counted)) }
    ensures out_after { out.new ≡ O.splice out.old at (L.count_part counted) }
{
    let (number, count) = match counted {
        Ok(count) => (0, count),
        Err(refused) => (refused.refusal.number(), refused.place),
    };
    let end = put_number(out, at, number);
    text::put_natural(out, end, count as u64)
}

// The bytes as hex, and `-` where there are none.
#[tactic(auto, unfolding(crate::specs::Line::run_part))]
pub fn put_run(out: &mut [u8], at: usize, s: &[u8]) -> usize
    ensures value { result ≡ T.after at (length (L.run_part s.now)) }
    ensures out_after { out.new ≡ O.splice out.old at (L.run_part s.now) }
{
    if s.is_empty() {
        return text::put_bytes(out, at, b"-");
    }
    text::put_hex(out, at, s)
}
