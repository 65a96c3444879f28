// The check of a job as the operator panel does it: standard input, never held whole, to the panel's listing (document 02 §5).
#![tactic(auto)]

ghost use Rattle.std.specs.Prelude.{◌≡◌, ◌≤◌, length};
ghost use Rattle.settings.specs.Settings.{standard_settings};
ghost use Rattle.panel.specs.computed.Rest.{Lists};
ghost use Rattle.panelcheck.specs.computed.Rows.{used_up, ReadsBehind, RoomLeft};
ghost use Rattle.std.specs.Process.{exit_status};

use bench::Bench;
use input::{ENDED_BY_PIPE, read_some};
use panel::{PanelCheck, PieceRead, SCRATCH};
use row::lines::has_room;
use settings::standard;
use std::io;
use std::io::{Error, ErrorKind, Stderr, Stdin, Stdout, Write};
use std::process::ExitCode;

// Bytes that are read at once, and bytes of rows that are written at once. With the scratch buffer and the stack all is less than 4 KiB:
// tests/panel adds it up.
const PIECE: usize = 1024;

const ROWS: usize = 1792;

// Why a listing is not whole.
#[derive(Drop)]
enum Failed {
    Unread,
    Unwritten(Error),
}

// Only a write passes its error on.
impl From<Error> for Failed {
    fn from(error: Error) -> Failed {
        Failed::Unwritten(error)
    }
}

// What the check has to hand out is the panel's listing, whatever the text.
fn start() -> PanelCheck
    ensures { Lists standard_settings result }
{
    PanelCheck::start(Bench::make(standard()).bench)
}

// Whether the next piece is to be read first.
fn used_up(from: usize, len: usize, last: bool) -> bool
    ensures { result ≡ used_up from len last }
{
    !last && from == len
}

// One call of the check. Its row goes behind those that wait.
fn read(
    check: PanelCheck,
    scratch: &mut [u8],
    piece: &[u8],
    last: bool,
    rows: &mut [u8],
    waiting: usize,
) -> PieceRead
    requires { waiting ≤ length rows.old }
    ensures { ReadsBehind check scratch.old piece.now last rows.old waiting result }
{
    check.read(scratch, piece, last, &mut rows[waiting..])
}

// Writes all of the bytes, or stops at the first write that takes nothing or fails.
fn put<W: Write>(to: &mut W, bytes: &[u8]) -> io::Result<()> {
    let mut rest = bytes;
    while !rest.is_empty() {
        let taken = to.write(rest)?;
        if taken == 0 {
            return Err(Error::from(ErrorKind::WriteZero));
        }
        rest = &rest[taken..];
    }
    Ok(())
}

// Writes the rows that wait, if all shall go or no further one surely fits; answers how many bytes of rows wait then.
fn write(to: &mut Stdout, rows: &[u8], waiting: usize, all: bool) -> io::Result<usize>
    requires { waiting ≤ length rows.now }
    ensures { RoomLeft result (length rows.now) }
{
    if !all && has_room(rows.len(), waiting) {
        return Ok(waiting);
    }
    put(to, &rows[..waiting])?;
    Ok(0)
}

// Hands the text to the check piece after piece, and writes the rows, all of them before it gets the next piece, for which it may have to
// wait. What the check promises makes them the listing, each in its turn.
fn list(from_in: &mut Stdin, to: &mut Stdout) -> Result<(), Failed> {
    let mut scratch = [0u8; SCRATCH];
    let mut piece = [0u8; PIECE];
    let mut rows = [0u8; ROWS];
    let mut check = start();
    // What is left of the piece is from .. len: a slice of it would be a loan over the next read into it.
    let mut from = 0;
    let mut len = 0;
    let mut last = false;
    let mut waiting = 0;
    while !check.is_over() {
        if used_up(from, len, last) {
            let Ok(got) = read_some(from_in, &mut piece) else {
                return Err(Failed::Unread);
            };
            from = 0;
            len = got;
            last = got == 0;
            continue;
        }
        let done = read(
            check,
            &mut scratch,
            &piece[from..len],
            last,
            &mut rows,
            waiting,
        );
        check = done.check;
        from += done.took;
        waiting = write(to, &rows, waiting + done.wrote, from == len)?;
    }
    write(to, &rows, waiting, true)?;
    Ok(())
}

// Why a listing is not whole; the status says nothing of it.
fn tell(to: &mut Stderr, why: &[u8]) -> ExitCode
    ensures { exit_status result ≡ 0 }
{
    // Where it cannot be written, nothing is left to tell it to.
    let _ = put(to, why);
    ExitCode::SUCCESS
}

// A job that cannot be read to its end has no last row: half of it is another job. (`input::fail` would tell the error too, and takes more
// memory than there is.)
fn main(rt: HostRuntime) -> ExitCode {
    match list(&mut rt.stdin(), &mut rt.stdout()) {
        Ok(()) => ExitCode::SUCCESS,
        Err(Failed::Unread) => tell(&mut rt.stderr(), b"panelcheck: cannot read the job\n"),
        Err(Failed::Unwritten(error)) => {
            if error.kind() == ErrorKind::BrokenPipe {
                return ExitCode::from(ENDED_BY_PIPE);
            }
            tell(&mut rt.stderr(), b"panelcheck: cannot write the listing\n")
        }
    }
}
