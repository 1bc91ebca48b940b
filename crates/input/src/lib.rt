// What programs read.
#![tactic(auto)]

ghost use Rattle.std.specs.Prelude.{◌≡◌, ◌<◌, ◌≤◌, ℕ, length, take, IfOk, OnErr, MatchOption};
ghost use Rattle.std.specs.Iterator.{at_most};
ghost use Rattle.std.specs.Io.KnownBytes.{Consumes, IsAtEnd};
ghost use Rattle.input.specs.Parts.{IsPart, HasNoPart};

use std::io;
use std::io::Read;

// Reads until buf is full or the input ends: how many octets stand at the front of buf then. The only error is the reader's own, which leaves
// what was read before it in buf.
// Stays: a while loop (d), for how far each turn goes is what the reader answers.
pub fn read_full<R: Read>(reader: &mut R, buf: &mut [u8]) -> io::Result<usize>
    ensures within { IfOk result (λ n. n ≤ length buf.new) }
    ensures room { length buf.new ≡ length buf.old }
    ensures octets { IfOk result (λ n. Consumes (R.remaining reader.old) (R.remaining reader.new) (take n buf.new)) }
    ensures end { IfOk result (λ n. n < length buf.new → IsAtEnd (R.remaining reader.new)) }
    ensures err { OnErr result ((n : ℕ) × (n ≤ length buf.new) × Consumes (R.remaining reader.old) (R.remaining reader.new) (take n buf.new)) }
{
    let mut done = 0;
    while done < buf.len() {
        let n = reader.read(&mut buf[done..])?;
        if n == 0 {
            break;
        }
        done += n;
    }
    Ok(done)
}

// The parts of some octets, one after the other, each after its length in two octets, as far as they are whole.
#[derive(Clone, Copy)]
pub struct Parts<'a>(pub &'a [u8]);

impl<'a> Iterator for Parts<'a> {
    type Item = &'a [u8];

    ghost next_gives = { λ s r t. MatchOption r (HasNoPart s.0.now) (λ part. IsPart s.0.now part.now t.0.now) };

    ghost remaining = { λ s. at_most (length s.0.now) };

    fn next(&mut self) -> Option<&'a [u8]> {
        let [high, low, rest @ ..] = self.0 else {
            return None;
        };
        let length = *high as usize * 256 + *low as usize;
        let (part, after) = rest.split_at_checked(length)?;
        self.0 = after;
        Some(part)
    }
}
