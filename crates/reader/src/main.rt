// Answers the reader's vectors (kind 15 of docs/VECTORS.md) by `open` and `next`, one reader a vector.
#![tactic(auto)]

use catalogue::Taken;
use std::io;
use std::io::{Read, Write};
use streams::Turn;

fn main(rt: HostRuntime) -> io::Result<()> {
    streams::take_turns(&Program, &mut rt.stdin(), &mut rt.stdout())
}

// A turn for each vector.
#[derive(Clone, Copy)]
struct Program;

impl Turn for Program {
    fn take<R: Read, W: Write>(&self, input: &mut R, output: &mut W) -> io::Result<bool> {
        let mut space = [0u8; wire::MOST];
        let Some(vector) = wire::read(input, &mut space)? else {
            return Ok(false);
        };
        answer(output, &space[..vector.length])?;
        Ok(true)
    }
}

// The line is written a step at a time.
fn answer<W: Write>(output: &mut W, s: &[u8]) -> io::Result<()> {
    let n = octets::unsigned_at(s, 0, 4);
    let mut r = catalogue::open(wire::from(s, 4));
    for i in 0..n {
        if 0 < i {
            output.write_all(b" ")?;
        }
        write_taken(output, catalogue::next(&mut r))?;
    }
    output.write_all(b"\n")
}

fn write_taken<W: Write>(output: &mut W, t: Taken) -> io::Result<()> {
    let mut out = [0u8; 4096];
    let end = wire::put_step(&mut out, 0, t.found);
    output.write_all(wire::first(&out, end))
}
