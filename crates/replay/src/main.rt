// Runs the library on the second program's vectors of records and calls, kinds 8 to 13 (docs/VECTORS.md), a line each.
#![tactic(auto)]

use std::io;
use wire::{Answers, Kind};

mod calls;
mod metres;
mod records;

fn main(rt: HostRuntime) -> io::Result<()> {
    wire::answer_all(&Program, &mut rt.stdin(), &mut rt.stdout())
}

#[derive(Clone, Copy)]
struct Program;

impl Answers for Program {
    // A kind that is not here gets an empty line.
    fn put_answer(&self, kind: Kind, s: &[u8], line: &mut [u8]) -> usize {
        match kind {
            Kind::Read => wire::put_read(line, 0, codec::read(s)),
            Kind::Write => records::answer_buffer(s, line, codec::write),
            Kind::Export => records::answer_buffer(s, line, field::export),
            Kind::Expand => wire::put_read(line, 0, field::expand(s)),
            Kind::Metres => metres::answer(s, line),
            Kind::Calls => calls::answer(s, line),
            _ => 0,
        }
    }
}
