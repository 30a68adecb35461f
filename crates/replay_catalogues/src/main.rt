// Runs the library on the second program's vectors of catalogues, kinds 14 to 17 (docs/VECTORS.md), a line each.
#![tactic(auto)]

use std::io;
use wire::{Answers, Kind};

mod catalogues;

fn main(rt: HostRuntime) -> io::Result<()> {
    wire::answer_all(&Program, &mut rt.stdin(), &mut rt.stdout())
}

#[derive(Clone, Copy)]
struct Program;

impl Answers for Program {
    // A kind that is not here gets an empty line.
    fn put_answer(&self, kind: Kind, s: &[u8], line: &mut [u8]) -> usize {
        match kind {
            Kind::Lookup => catalogues::answer_lookup(s, line),
            Kind::Reader => catalogues::answer_reader(s, line),
            Kind::Line => catalogues::answer_line(s, line),
            Kind::Check => catalogues::answer_check(s, line),
            _ => 0,
        }
    }
}
