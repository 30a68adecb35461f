// Reads from a stream until a buffer is full, and goes through a stream in turns.
#![tactic(auto)]

ghost use Rattle.std.specs.Prelude.{◌<◌, ◌≤◌, IfOk, OnErr, length, take};
ghost use Rattle.std.specs.Io.KnownBytes.{Consumes, IsAtEnd};
ghost use Rattle.streams.specs.Left.{TookSome, TookTo};

use std::io;
use std::io::{Read, Write};

// Reads to the start of `space` until it is full or the input ends, and answers how many bytes it read. The error of a read that fails is
// handed on, and there is no other; what was read before it stands at the start of `space`, and is gone from the stream.
pub fn read_full<R: Read>(input: &mut R, space: &mut [u8]) -> io::Result<usize>
    ensures within { IfOk result (λ n. n ≤ length space.new) }
    ensures bytes { IfOk result (λ n. Consumes (R.remaining input.old) (R.remaining input.new) (take n space.new)) }
    ensures err { OnErr result (TookTo (R.remaining input.old) (R.remaining input.new) space.new) }
    ensures end { IfOk result (λ n. n < length space.new → IsAtEnd (R.remaining input.new)) }
{
    let mut done = 0usize;
    while done < space.len() {
        let n = input.read(&mut space[done..])?;
        if n == 0 {
            break;
        }
        done += n;
    }
    Ok(done)
}

// What a program does again and again until its input has ended.
pub trait Turn {
    // Takes a turn, and answers whether there was one to take. The error of a read or a write that fails is handed on.
    fn take<R: Read, W: Write>(&self, input: &mut R, output: &mut W) -> io::Result<bool>
        ensures { TookSome (R.remaining input.old) (R.remaining input.new) };
}

// Takes turns until there is none to take, or one fails: its error is handed on.
// The loop has to end, and nothing says that the input does: it counts up to a number that no run reaches.
pub fn take_turns<T: Turn, R: Read, W: Write>(
    turn: &T,
    input: &mut R,
    output: &mut W,
) -> io::Result<()>
    ensures { TookSome (R.remaining input.old) (R.remaining input.new) }
{
    for _ in 0..u64::MAX {
        if !turn.take(input, output)? {
            break;
        }
    }
    Ok(())
}
