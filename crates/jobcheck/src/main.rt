// The check program: reads a job on standard input and writes its listing (document 01, "The check program").
#![tactic(auto)]

ghost use Rattle.settings.specs.Settings.{standard_settings};
ghost use Rattle.job.specs.computed.Check.{Lists};

use bench::Bench;
use input::{Stopped, ended};
use job::Check;
use reader::LONGEST_TEXT;
use settings::standard;
use std::io;
use std::io::{Stdout, Write};
use std::process::ExitCode;

// What the check has to hand out is the listing, whatever the text.
fn start() -> Check
    ensures { Lists standard_settings result }
{
    Check::start(Bench::make(standard()).bench)
}

// Writes the listing in pieces. What fill promises makes them the listing, each in its turn. All of it is written, or it is an error. For a
// larger buffer the system would have to find memory first, which takes longer than the calls that it saves.
fn write_listing(to: &mut Stdout, text: &[u8]) -> io::Result<()> {
    let mut out = [0u8; 8192];
    let mut check = start();
    while !check.is_over() {
        let filled = check.fill(text, &mut out);
        let piece = filled.len;
        to.write_all(&out[..piece])?;
        check = filled.check;
    }
    Ok(())
}

// A job that cannot be read to its end has no listing: half of it is another job.
fn main(rt: HostRuntime) -> ExitCode {
    // One byte more than a text may have, so that a longer one is seen to be longer.
    let mut text = [0u8; LONGEST_TEXT + 1];
    let came = match input::read(&mut rt.stdin(), &mut text) {
        Ok(len) => write_listing(&mut rt.stdout(), &text[..len]).map_err(Stopped::Writing),
        Err(error) => Err(Stopped::Reading(error)),
    };
    ended(
        &mut rt.stderr(),
        came,
        b"jobcheck: cannot read the job",
        b"jobcheck: cannot write the listing",
    )
}
