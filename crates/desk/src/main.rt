// The desk: a booth table, then an arrival log, from standard input; the session as text on standard output.
#![tactic(auto)]

ghost use Rattle.std.specs.Prelude.{◌≤◌, ◌<◌, length, take, IfOk};
ghost use Rattle.std.specs.Io.KnownBytes.{Consumes, IsAtEnd};

use std::io;
use std::io::{Print, Read};
use text::{MOST_INPUT, TEXT_ROOM};

// Reads until the buffer is full or the input ends, and answers how many bytes lie at its start, a count as `Read` answers it.
fn read_full<R: Read>(reader: &mut R, buffer: &mut [u8]) -> io::Result<usize>
    ensures bound { IfOk result (λ n. n ≤ length buffer.new) }
    ensures bytes { IfOk result (λ n. Consumes (R.remaining reader.old) (R.remaining reader.new) (take n buffer.new)) }
    ensures full { IfOk result (λ n. n < length buffer.new → IsAtEnd (R.remaining reader.new)) }
{
    let mut done = 0;
    // No method of the library does it: `read_exact` fails at a short end, `read_to_end` needs a heap, `bytes` reads one byte a call.
    while done < buffer.len() {
        let n = reader.read(&mut buffer[done..])?;
        if n == 0 {
            return Ok(done);
        }
        done += n;
    }
    Ok(done)
}

// One byte more than the desk takes is read, so that a longer input is known for what it is.
fn main(rt: HostRuntime) -> io::Result<()> {
    let mut input = [0u8; MOST_INPUT + 1];
    let read = read_full(&mut rt.stdin(), &mut input)?;
    let mut printed = [0u8; TEXT_ROOM];
    let length = text::desk_text(&input[..read], &mut printed);
    rt.write_all(&printed[..length])
}
