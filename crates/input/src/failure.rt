// How a program ends that cannot read or write: with a line on standard error, which is made in memory of a fixed size, and status 0, since
// whoever runs it sees by what it wrote that it is not whole. Where nobody reads any more what it writes, it ends in silence, and with the
// status of a program that the signal of a broken pipe ended.
ghost use Rattle.std.specs.Prelude.{◌≡◌, ◌≢◌, ◌-◌, ◌++◌, take};
ghost use Rattle.std.specs.Io.{StartsWith};
ghost use Rattle.arrayvec.specs.ArrayVec.{array_vec_len};
ghost use Rattle.std.specs.IoError.{error_kind};
ghost use Rattle.std.specs.Process.{exit_status};
ghost use Rattle.input.specs.computed.Ended.{EndsWith};

use arrayvec::ArrayVec;
use std::io::{Error, ErrorKind, Stderr, Write};
use std::process::ExitCode;

// Bytes of the line: what does not fit is left out.
const ROOM: usize = 320;

// The line, or the part of it that says why. What is written where no room is left is left out, and no write fails.
type Message = ArrayVec<u8, ROOM>;

// Puts as many of the bytes at the message's end as there is room for.
fn add(to: &mut Message, bytes: &[u8])
    ensures { to.new.items ≡ to.old.items ++ take (320 - array_vec_len to.old) bytes.now }
{
    let room = to.remaining_capacity().min(bytes.len());
    let _ = to.try_extend_from_slice(&bytes[..room]);
}

// The text before the last opening bracket, or all of it: `No space left on device (os error 28)` is told without the number.
fn told(text: &[u8]) -> &[u8]
    ensures { StartsWith text.now result.now }
{
    match text.iter().rposition(|b| *b == b'(') {
        Some(at) if 0 < at => &text[..at - 1],
        _ => text,
    }
}

// Says what a program cannot do and why, and answers the status to end with, 0.
pub fn fail(to: &mut Stderr, what: &[u8], error: Error) -> ExitCode
    ensures { exit_status result ≡ 0 }
{
    let mut why = Message::new();
    // Where the message is full, the rest of the text is left out.
    let _ = write!(why, "{error}");
    let mut line = Message::new();
    add(&mut line, what);
    add(&mut line, b": ");
    add(&mut line, told(why.as_slice()));
    end(to, line)
}

// The status that a shell tells of a program that the signal of a broken pipe ended: 128 and the signal's number, 13.
pub const ENDED_BY_PIPE: u8 = 141;

// The same of a program that cannot write all of what it has to write.
pub fn unwritten(to: &mut Stderr, what: &[u8], error: Error) -> ExitCode
    ensures gone { error_kind error ≡ ErrorKind.BrokenPipe → exit_status result ≡ 141 }
    ensures failed { error_kind error ≢ ErrorKind.BrokenPipe → exit_status result ≡ 0 }
{
    if error.kind() == ErrorKind::BrokenPipe {
        return ExitCode::from(ENDED_BY_PIPE);
    }
    fail(to, what, error)
}

// Where a program with a text to read and an answer to write stopped.
#[derive(Drop)]
pub enum Stopped {
    Reading(Error),
    Writing(Error),
}

// The status that such a program ends with; where it stopped, the text says of what.
pub fn ended(to: &mut Stderr, came: Result<(), Stopped>, reading: &[u8], writing: &[u8]) -> ExitCode
    ensures { EndsWith came (exit_status result) }
{
    match came {
        Ok(()) => ExitCode::SUCCESS,
        Err(Stopped::Reading(error)) => fail(to, reading, error),
        Err(Stopped::Writing(error)) => unwritten(to, writing, error),
    }
}

// The same of what it will not do.
pub fn refuse(to: &mut Stderr, what: &[u8]) -> ExitCode
    ensures { exit_status result ≡ 0 }
{
    let mut line = Message::new();
    add(&mut line, what);
    end(to, line)
}

fn end(to: &mut Stderr, mut line: Message) -> ExitCode
    ensures { exit_status result ≡ 0 }
{
    add(&mut line, b"\n");
    // Where it cannot be written, nothing is left to tell it to.
    let _ = to.write_all(line.as_slice());
    ExitCode::SUCCESS
}
