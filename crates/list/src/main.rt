// Lists the cards of standard input, a line each; a short last part is refused.
#![tactic(auto)]

ghost use Rattle.std.specs.Prelude.{◌≡◌, ◌≤◌, length};
ghost use Rattle.octets.specs.Octets as O;
ghost use Rattle.listing.specs.Lines as N;
ghost use Rattle.list.specs.Batch as B;

use codec::CARD_LENGTH;
use listing::LINE_MOST;
use std::io;
use std::io::{Read, Write};
use streams::Turn;

// So many parts a turn, the bytes that they have at most, and the bytes of their lines.
const PARTS: usize = 512;

const INPUT: usize = PARTS * CARD_LENGTH;

const OUTPUT: usize = PARTS * LINE_MOST;

fn main(rt: HostRuntime) -> io::Result<()> {
    streams::take_turns(&Program, &mut rt.stdin(), &mut rt.stdout())
}

#[derive(Clone, Copy)]
struct Program;

impl Turn for Program {
    // Reads up to PARTS parts and writes their listing.
    fn take<R: Read, W: Write>(&self, input: &mut R, output: &mut W) -> io::Result<bool> {
        let mut bytes = [0u8; INPUT];
        let mut text = [0u8; OUTPUT];
        let got = streams::read_full(input, &mut bytes)?;
        if got == 0 {
            return Ok(false);
        }
        let filled = fill(&bytes[..got], &mut text);
        output.write_all(&text[..filled])?;
        Ok(true)
    }
}

// The listing of up to PARTS parts, from the text's first byte on. Answers how many bytes it has.
fn fill(parts: &[u8], text: &mut [u8]) -> usize
    requires parts_len_bound { length parts.now ≤ B.input_most }
    requires in_bounds { B.output_most ≤ length text.old }
    ensures value { result ≡ length (N.listing parts.now) }
    ensures text_after { text.new ≡ O.splice text.old 0 (N.listing parts.now) }
    ensures upper_bound { result ≤ B.output_most }
{
    let mut filled = 0usize;
    for part in parts.chunks(CARD_LENGTH) {
        filled += listing::line(part, &mut text[filled..]);
    }
    filled
}
