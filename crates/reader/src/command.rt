// The G and F known after a line, and the block that a line asks for.
ghost use Rattle.std.specs.Prelude.{◌≡◌, ◌<◌, ◌^◌, ◌≤◌};
ghost use Rattle.reader.specs.Reader.{motion_of, motion_after, feed_after, reader_after, in_pulses, coordinate, path_of, feed_number_at};
ghost use Rattle.reader.specs.Reader.{block_at};
ghost use Rattle.reader.specs.computed.Small.{Small, SmallWords};
ghost use Rattle.settings.specs.Settings.{feed_unit};

use crate::{Feed, Motion, Reader};
use block::{Block, Path};
use circle::plane::{Offset, Turn};
use letters::word::{Word, Words};
use plane::point::Point;
use whole::sign::{SignMagnitude, join};

pub fn motion_of(g: u64) -> Option<Motion>
    ensures { result ≡ motion_of g }
{
    if g == 1 {
        return Some(Motion::Line);
    }
    let turn = Turn::try_from(g).ok()?;
    Some(Motion::Arc(turn))
}

fn motion_after(m: Option<Motion>, g: Word) -> Option<Motion>
    ensures { result ≡ motion_after m g }
{
    if g.stands { motion_of(g.magnitude) } else { m }
}

fn feed_after(f: Option<Feed>, w: Word) -> Option<Feed>
    requires { w.magnitude < 10 ^ 10 }
    ensures { result ≡ feed_after f w }
{
    if !w.stands {
        return f;
    }
    Some(Feed {
        millimetres: (w.magnitude / 1_000) as u32,
        thousandths: (w.magnitude % 1_000) as u32,
    })
}

pub fn reader_after(k: Reader, ws: Words) -> Reader
    requires { ws.f.magnitude < 10 ^ 10 }
    ensures { result ≡ reader_after k ws }
{
    Reader {
        motion: motion_after(k.motion, ws.g),
        feed: feed_after(k.feed, ws.f),
    }
}

fn in_pulses(scale: u64, w: Word) -> i64
    requires { Small scale w }
    ensures { result ≡ in_pulses scale w }
{
    join(SignMagnitude {
        negative: w.negative,
        magnitude: w.magnitude * scale / 1_000,
    })
}

fn coordinate_of(scale: u64, w: Word, here: i64) -> i64
    requires { Small scale w }
    ensures { result ≡ coordinate scale w here }
{
    if w.stands { in_pulses(scale, w) } else { here }
}

fn path_of(scale: u64, m: Option<Motion>, ws: Words) -> Path
    requires { SmallWords scale ws }
    ensures { result ≡ path_of scale m ws }
{
    match m {
        Some(Motion::Arc(turn)) => Path::Arc(
            turn,
            Offset {
                x: in_pulses(scale, ws.i),
                y: in_pulses(scale, ws.j),
            },
        ),
        _ => Path::Line,
    }
}

// In thousandths of a pulse per minute.
fn feed_number(scale: u64, f: Option<Feed>) -> u64
    requires { scale ≤ 1000 }
    ensures { result ≡ feed_number_at feed_unit scale f }
{
    match f {
        None => 0,
        Some(known) => (known.millimetres as u64 * 1_000 + known.thousandths as u64) * scale,
    }
}

pub fn block_of(scale: u64, k: Reader, ws: Words, at: Point) -> Block
    requires { (scale ≤ 1000) × SmallWords scale ws }
    ensures { result ≡ block_at feed_unit scale k ws at }
{
    Block {
        path: path_of(scale, k.motion, ws),
        end: Point {
            x: coordinate_of(scale, ws.x, at.x),
            y: coordinate_of(scale, ws.y, at.y),
        },
        feed: feed_number(scale, k.feed),
    }
}
