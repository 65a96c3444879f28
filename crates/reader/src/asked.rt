// What one line of a job asks at the place where the next block starts: a block to load, none, or that it be refused. Load's own questions
// about the block are the caller's.
ghost use Rattle.std.specs.Prelude.{◌≡◌, ◌≤◌, length};
ghost use Rattle.words.specs.computed.Meaning.{meaning_of};
ghost use Rattle.words.specs.computed.Scan.{first_line};
ghost use Rattle.reader.specs.computed.Asked.{asked, block_asked, asked_of};
ghost use Rattle.reader.specs.Reader.{goes_nowhere};
ghost use Rattle.reader.specs.declared.asked.ToLoad.TheVariants.{Refused};
ghost use Rattle.reader.specs.computed.Asked.{broken_no};
ghost use Rattle.reader.specs.computed.Small.{Writable};

use crate::command::{block_of, reader_after};
use crate::questions::{line_no, moves};
use crate::{LONGEST_LINE, Reader};
use block::{Block, Path};
use plane::point::Point;
use words::line::Line;

// No block, a block to load, or the number of the question that refuses the line.
#[derive(Drop)]
pub enum ToLoad {
    Nothing,
    Block(Block),
    Refused(u64),
}

#[derive(Drop)]
pub struct Asked {
    pub asks: ToLoad,
    // What is known after the line, unless load refuses its block.
    pub reader: Reader,
}

// The same of a text's first line, and how many bytes that has without its LF.
#[derive(Drop)]
pub struct AskedFirst {
    pub asked: Asked,
    pub bytes: usize,
}

fn goes_nowhere(b: Block, place: Point) -> bool
    ensures { result ≡ goes_nowhere b.end place b.path }
{
    matches!(b.path, Path::Line) && b.end == place
}

fn block_asked(place: Point, b: Block) -> ToLoad
    ensures { result ≡ block_asked place b }
{
    if goes_nowhere(b, place) {
        return ToLoad::Nothing;
    }
    ToLoad::Block(b)
}

fn refused(k: Reader, number: u64) -> Asked
    ensures { result ≡ asked (Refused number) k }
{
    Asked {
        asks: ToLoad::Refused(number),
        reader: k,
    }
}

// What the words of a line of so many bytes ask; k is the reader before it.
fn ask_words(k: Reader, scale: u64, place: Point, bytes: u64, l: Line) -> Asked
    requires { (scale ≤ 1000) × Writable l.words }
    ensures { result ≡ asked_of scale k place bytes l }
{
    let ws = l.words;
    let next = reader_after(k, ws);
    let no = line_no(scale, next, bytes, l);
    if no != 0 {
        return refused(k, no);
    }
    if !moves(ws) {
        return Asked {
            asks: ToLoad::Nothing,
            reader: next,
        };
    }
    Asked {
        asks: block_asked(place, block_of(scale, next, ws, place)),
        reader: next,
    }
}

// What the first line of a text asks.
pub fn ask_first(k: Reader, scale: u64, place: Point, text: &[u8]) -> AskedFirst
    requires { scale ≤ 1000 }
    ensures asked_value { result.asked ≡ (let line = first_line text.now in asked_of scale k place (length line) (meaning_of line)) }
    ensures bytes_value { result.bytes ≡ length (first_line text.now) }
{
    let first = words::line::read_first(text);
    let l = first.line;
    AskedFirst {
        asked: ask_words(k, scale, place, first.bytes as u64, l),
        bytes: first.bytes,
    }
}

// The number that bytes with an LF among them get: they are no line of words.
fn broken_no(bytes: u64) -> u64
    ensures { result ≡ broken_no bytes }
{
    if bytes <= LONGEST_LINE { 32 } else { 31 }
}

// What a line alone asks. It is its own first line, where it has no LF.
pub fn ask_line(k: Reader, scale: u64, place: Point, line: &[u8]) -> Asked
    requires { scale ≤ 1000 }
    ensures { result ≡ asked_of scale k place (length line.now) (meaning_of line.now) }
{
    let first = ask_first(k, scale, place, line);
    if first.bytes < line.len() {
        return refused(k, broken_no(line.len() as u64));
    }
    first.asked
}
