// A text from a reader: all of it or the next bytes, or that it could not be read. `read_exact` does not tell how much came before a
// failure, and a job that was cut off must not pass for a whole one. And how a program ends that cannot read or write.
#![tactic(auto)]

ghost use Rattle.std.specs.Prelude.{◌≡◌, ◌<◌, IfOk, OnErr, length, take};
ghost use Rattle.std.specs.Io.{ReadsAtMost};
ghost use Rattle.std.specs.Io.KnownBytes.{Consumes, IsAtEnd, Keeps};

use std::io;
use std::io::{ErrorKind, Read};

mod failure;

pub use failure::{ENDED_BY_PIPE, Stopped, ended, fail, refuse, unwritten};

// A read that was interrupted is tried again, this often. The programs handle no signal, so none is expected; the bound is there because a
// proved loop has to end.
const INTERRUPTIONS: usize = 1000;

// Reads until the buffer is full or the input ends. Where a read fails, as its error then says, the bytes before it count for nothing.
pub fn read<R: Read>(source: &mut R, buf: &mut [u8]) -> io::Result<usize>
    ensures bound { ReadsAtMost result buf.new }
    ensures ok { IfOk result (λ n. Consumes (R.remaining source.old) (R.remaining source.new) (take n buf.new)) }
    ensures end { IfOk result (λ n. n < length buf.new → IsAtEnd (R.remaining source.new)) }
{
    let mut done = 0;
    while done < buf.len() {
        let more = read_some(source, &mut buf[done..])?;
        if more == 0 {
            break;
        }
        done += more;
    }
    Ok(done)
}

// The next bytes, as many as there are and the buffer holds; 0 at the end of the input.
pub fn read_some<R: Read>(source: &mut R, buf: &mut [u8]) -> io::Result<usize>
    ensures bound { ReadsAtMost result buf.new }
    ensures ok { IfOk result (λ n. Consumes (R.remaining source.old) (R.remaining source.new) (take n buf.new)) }
    ensures end { IfOk result (λ n. n ≡ 0 → 0 < length buf.new → IsAtEnd (R.remaining source.new)) }
    ensures err { OnErr result (Keeps (R.remaining source.old) (R.remaining source.new)) }
{
    for _ in 1..INTERRUPTIONS {
        match source.read(buf) {
            Ok(more) => return Ok(more),
            Err(error) => {
                if error.kind() != ErrorKind::Interrupted {
                    return Err(error);
                }
            }
        }
    }
    source.read(buf)
}
