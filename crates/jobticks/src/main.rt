// Reads a job on standard input and writes the tick bytes of its blocks, one after the other; at a refused line it ends.
#![tactic(auto)]

ghost use Rattle.settings.specs.Settings.{standard_settings};
ghost use Rattle.stream.specs.computed.Stream.{Tells};

use bench::Bench;
use input::{Stopped, ended};
use reader::LONGEST_TEXT;
use settings::standard;
use std::io;
use std::io::{Stdout, Write};
use std::process::ExitCode;
use stream::Stream;

// What the stream has to hand out are the tick bytes, whatever the text.
fn start() -> Stream
    ensures { Tells standard_settings result }
{
    Stream::start(Bench::make(standard()).bench)
}

// Writes them in large pieces. What fill promises makes the pieces the tick bytes, each in its turn. All are written, or it is an error.
fn write_ticks(to: &mut Stdout, text: &[u8]) -> io::Result<()> {
    let mut out = [0u8; 65_536];
    let mut stream = start();
    while !stream.over {
        let filled = stream.fill(text, &mut out);
        let piece = filled.len;
        to.write_all(&out[..piece])?;
        stream = filled.stream;
    }
    Ok(())
}

// A job that cannot be read to its end has no tick bytes: half of it is another job.
fn main(rt: HostRuntime) -> ExitCode {
    // One byte more than a text may have, so that a longer one is seen to be longer.
    let mut text = [0u8; LONGEST_TEXT + 1];
    let came = match input::read(&mut rt.stdin(), &mut text) {
        Ok(len) => write_ticks(&mut rt.stdout(), &text[..len]).map_err(Stopped::Writing),
        Err(error) => Err(Stopped::Reading(error)),
    };
    ended(
        &mut rt.stderr(),
        came,
        b"jobticks: cannot read the job",
        b"jobticks: cannot write the tick bytes",
    )
}
