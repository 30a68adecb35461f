// Runs the library on the second program's vectors of numbers, frames and tides, kinds 1 to 7 (docs/VECTORS.md), a line each.
#![tactic(auto)]

use std::io;
use wire::{Answers, Kind};

mod rounding;
mod shifts;

fn main(rt: HostRuntime) -> io::Result<()> {
    wire::answer_all(&Program, &mut rt.stdin(), &mut rt.stdout())
}

#[derive(Clone, Copy)]
struct Program;

impl Answers for Program {
    // A kind that is not here gets an empty line.
    fn put_answer(&self, kind: Kind, s: &[u8], line: &mut [u8]) -> usize {
        match kind {
            Kind::Near => rounding::answer_near(s, line),
            Kind::Root => rounding::answer_root(s, line),
            Kind::Whole => rounding::answer_whole(s, line),
            Kind::Permanent => shifts::answer_permanent(s, line),
            Kind::Rows => shifts::answer_rows(s, line),
            Kind::Pair => shifts::answer_pair(s, line),
            Kind::Series => shifts::answer_series(s, line),
            _ => 0,
        }
    }
}
