// The four lines of the listing, each whole, from a place of a lent buffer on. They answer the place after the line; where the buffer has
// no room for every line, it stays as it is.
ghost use Rattle.std.specs.Prelude.{◌≡◌, ◌+◌, leb};
ghost use Rattle.row.specs.Lines.{kind_letter, header_line, total_line, refused_line};
ghost use Rattle.row.specs.computed.Buffer.{line_room, buffer_after, place_after, row_of};
ghost use Rattle.row.specs.computed.Long.{long_of};

use crate::long::LongCount;
use crate::push;

// 160 bytes hold every line of the listing: none takes more than 128.
pub const ROOM: usize = 160;

#[derive(Drop)]
pub enum Kind {
    Line,
    Arc,
}

// What the row of a block tells: its number, its line in the job text, its kind and cycles, its absolute end and the register width.
#[derive(Drop)]
pub struct BlockRow {
    pub block: u64,
    pub line: u64,
    pub kind: Kind,
    pub cycles: u64,
    pub x: i64,
    pub y: i64,
    pub bits: u64,
}

fn letter(kind: Kind) -> u8
    ensures { result ≡ kind_letter kind }
{
    match kind {
        Kind::Line => b'L',
        Kind::Arc => b'A',
    }
}

// Whether a buffer of this length has room for every line from a place on.
pub fn has_room(len: usize, at: usize) -> bool
    ensures { result ≡ leb (at + line_room) len }
{
    ROOM <= len.saturating_sub(at)
}

pub fn header(out: &mut [u8], at: usize) -> Option<usize>
    ensures buffer { out.new ≡ buffer_after header_line out.old at }
    ensures place { result ≡ place_after header_line out.old at }
{
    if !has_room(out.len(), at) {
        return None;
    }
    Some(push::text(out, at, b"block line kind cycles x y bits\n"))
}

pub fn block(out: &mut [u8], at: usize, row: BlockRow) -> Option<usize>
    ensures buffer { out.new ≡ buffer_after (row_of row) out.old at }
    ensures place { result ≡ place_after (row_of row) out.old at }
{
    if !has_room(out.len(), at) {
        return None;
    }
    let at = push::number(out, at, row.block, b' ');
    let at = push::number(out, at, row.line, b' ');
    let at = push::byte(out, at, letter(row.kind));
    let at = push::byte(out, at, b' ');
    let at = push::number(out, at, row.cycles, b' ');
    let at = push::signed(out, at, row.x, b' ');
    let at = push::signed(out, at, row.y, b' ');
    Some(push::number(out, at, row.bits, b'\n'))
}

// The last line of a job that was read to its end.
pub fn total(out: &mut [u8], at: usize, blocks: u64, cycles: u64, ticks: LongCount) -> Option<usize>
    ensures buffer { out.new ≡ buffer_after (total_line blocks cycles (long_of ticks)) out.old at }
    ensures place { result ≡ place_after (total_line blocks cycles (long_of ticks)) out.old at }
{
    if !has_room(out.len(), at) {
        return None;
    }
    let at = push::text(out, at, b"total ");
    let at = push::number(out, at, blocks, b' ');
    let at = push::number(out, at, cycles, b' ');
    Some(push::long(out, at, ticks, b'\n'))
}

// The last line of a job that was refused: where, and the number of the question.
pub fn refused(out: &mut [u8], at: usize, line: u64, number: u64) -> Option<usize>
    ensures buffer { out.new ≡ buffer_after (refused_line line number) out.old at }
    ensures place { result ≡ place_after (refused_line line number) out.old at }
{
    if !has_room(out.len(), at) {
        return None;
    }
    let at = push::text(out, at, b"line ");
    let at = push::number(out, at, line, b' ');
    let at = push::text(out, at, b"refused ");
    Some(push::number(out, at, number, b'\n'))
}
