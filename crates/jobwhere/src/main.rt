// Reads a number of ticks, the first line of standard input, and a job after it, and tells where the job stands after them. Settings, as
// for the check program: 50 pulses per millimetre, 5,000 ticks per second, the widest travel. The answer is a line of 16 numbers, which
// `specs/computed/Row.antt` names. `1 1 1 720 2225 5 11 0 1 0 0 1000 2000 5000000 2237 12`: block 1, of line 1, is in work after 720 of
// its ticks, with 2,225 cycles left, at X 5 Y 11, remainder 0; it is a line from (0, 0) to (1000, 2000), f 5,000,000, and 12 of its 2,237
// cycles are done.
#![tactic(auto)]

ghost use Rattle.std.specs.Prelude.{◌≡◌};
ghost use Rattle.settings.specs.Settings.{standard_settings};
ghost use Rattle.seek.specs.computed.Seek.{seek_of};
ghost use Rattle.row.specs.computed.Numbers.{buffer_with, place_with};
ghost use Rattle.row.specs.computed.Numbers.{EndsIn};
ghost use Rattle.jobwhere.specs.computed.Asked.{digit_pushed, ticks_asked};
ghost use Rattle.jobwhere.specs.computed.Row.{found_word, row_of};

use encoding::encode::work_words;
use encoding::number::{refusal, word};
use input::{fail, refuse, unwritten};
use reader::LONGEST_TEXT;
use row::numbers;
use seek::{Found, Sought, seek};
use settings::standard;
use std::io;
use std::io::{ErrorKind, Write};
use std::process::ExitCode;

// The largest i64.
const MOST_ASKED: u64 = 9_223_372_036_854_775_807;

// It has no more digits.
const MOST_DIGITS: usize = 19;

// A number with a digit more; none where the byte is no digit or the number is too large.
fn push(n: u64, b: u8) -> Option<u64>
    ensures { result ≡ digit_pushed n b }
{
    if !b.is_ascii_digit() {
        return None;
    }
    let digit = (b - b'0') as u64;
    if (MOST_ASKED - digit) / 10 < n {
        return None;
    }
    Some(n * 10 + digit)
}

// The ticks asked for and where the job begins; none where the first line is no such number.
fn ask(text: &[u8]) -> Option<(u64, usize)>
    ensures { result ≡ ticks_asked text.now }
{
    let mut n = 0;
    for (at, b) in text.iter().enumerate() {
        if *b == b'\n' {
            return if at == 0 { None } else { Some((n, at + 1)) };
        }
        if at == MOST_DIGITS {
            return None;
        }
        n = push(n, *b)?;
    }
    None
}

// With the check program's settings.
fn find(job: &[u8], ticks: u64) -> Sought
    ensures { result ≡ seek_of standard_settings job.now ticks }
{
    seek(standard(), job, ticks)
}

fn found_word(found: Found) -> i64
    ensures { result ≡ found_word found }
{
    match found {
        Found::InWork => 1,
        Found::Over => 0,
        Found::Refused(number) => refusal(number),
    }
}

fn row(s: Sought) -> [i64; 16]
    ensures { result ≡ row_of s }
{
    let bench = s.bench;
    let w = work_words(bench.work);
    [
        found_word(s.found),
        word(s.block),
        word(s.line),
        word(s.ticks),
        word(s.left),
        bench.at.x,
        bench.at.y,
        word(bench.remainder),
        w.kind,
        w.a,
        w.b,
        w.c,
        w.d,
        w.e,
        w.f,
        w.g,
    ]
}

// The row in bytes.
fn lay(out: &mut [u8], s: Sought) -> Option<usize>
    ensures buffer { out.new ≡ buffer_with (row_of s) out.old 0 }
    ensures place { result ≡ place_with (row_of s) out.old 0 }
    ensures within { EndsIn out.old result }
{
    let numbers = row(s);
    numbers::line(out, 0, &numbers)
}

// All of it is written, or it is an error.
fn write_row(to: &mut io::Stdout, s: Sought) -> io::Result<()> {
    // 22 bytes for each of 16 numbers, and once more.
    let mut out = [0u8; 374];
    let Some(len) = lay(&mut out, s) else {
        return Err(io::Error::from(ErrorKind::WriteZero));
    };
    to.write_all(&out[..len])
}

fn answer(rt: &HostRuntime, text: &[u8]) -> ExitCode {
    let Some((ticks, at)) = ask(text) else {
        return refuse(
            &mut rt.stderr(),
            b"jobwhere: the first line is no number of ticks: Success",
        );
    };
    match write_row(&mut rt.stdout(), find(&text[at..], ticks)) {
        Ok(()) => ExitCode::SUCCESS,
        Err(error) => unwritten(
            &mut rt.stderr(),
            b"jobwhere: cannot write where the job stands",
            error,
        ),
    }
}

// A job that cannot be read to its end is another job.
fn main(rt: HostRuntime) -> ExitCode {
    // The digits, their LF, and one byte more than a text may have, so that a longer one is seen to be longer.
    let mut text = [0u8; MOST_DIGITS + 1 + LONGEST_TEXT + 1];
    match input::read(&mut rt.stdin(), &mut text) {
        Ok(len) => answer(&rt, &text[..len]),
        Err(error) => fail(&mut rt.stderr(), b"jobwhere: cannot read the job", error),
    }
}
