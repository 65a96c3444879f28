// One line of a job, read at a bench: the reader and the record go in and come back beside the answer.
ghost use Rattle.std.specs.Prelude.{◌≡◌, true, length};
ghost use Rattle.words.specs.computed.Scan.{first_line};
ghost use Rattle.bench.specs.computed.Calls.{load_of};
ghost use Rattle.reader.specs.computed.TextLine.{reads, loaded, taken_of, read_line_of};
ghost use Rattle.reader.specs.declared.text_line.Read.TheVariants.{Refused};

use crate::Reader;
use crate::asked::{Asked, ToLoad, ask_first, ask_line};
use bench::tested::SoundBench;
use bench::{Answer, Bench, sound};
use block::Block;

// No block, a block with the register width that its load answered, or the number of the question.
#[derive(Drop)]
pub enum Read {
    Nothing,
    Loaded(u64),
    Refused(u64),
}

#[derive(Drop)]
pub struct ReadLine {
    pub answer: Read,
    pub reader: Reader,
    pub bench: Bench,
}

// The same of a text's first line, and how many bytes that has without its LF.
#[derive(Drop)]
pub struct ReadFirst {
    pub read: ReadLine,
    pub bytes: usize,
}

fn refused(k: Reader, m: Bench, number: u64) -> ReadLine
    ensures { result ≡ reads (Refused number) k m }
{
    ReadLine {
        answer: Read::Refused(number),
        reader: k,
        bench: m,
    }
}

// The block of a line: k is the reader before it, next the one after it.
fn load(k: Reader, next: Reader, tested: SoundBench, b: Block) -> ReadLine
    ensures { let m = tested.bench in result ≡ loaded k next m (load_of m b).bench (load_of m b).answer }
{
    let a = tested.load(b);
    let answer = a.answer;
    let after = a.bench;
    match answer {
        Ok(Answer::Done) => ReadLine {
            answer: Read::Nothing,
            reader: next,
            bench: after,
        },
        Ok(Answer::Width(bits)) => ReadLine {
            answer: Read::Loaded(bits),
            reader: next,
            bench: after,
        },
        Err(no) => refused(k, tested.bench, no.number()),
    }
}

// What a line asked at a sound record; k is the reader before it.
fn take(k: Reader, tested: SoundBench, a: Asked) -> ReadLine
    ensures { result ≡ taken_of k tested.bench a }
{
    let asks = a.asks;
    let next = a.reader;
    match asks {
        ToLoad::Nothing => ReadLine {
            answer: Read::Nothing,
            reader: next,
            bench: tested.bench,
        },
        ToLoad::Block(b) => load(k, next, tested, b),
        ToLoad::Refused(no) => refused(k, tested.bench, no),
    }
}

// The first line of a text; a record that is not sound gets 9.
pub fn read_first(k: Reader, m: Bench, text: &[u8]) -> ReadFirst
    ensures read_value { result.read ≡ read_line_of k m (first_line text.now) }
    ensures bytes_value { result.bytes ≡ length (first_line text.now) }
{
    let settings = m.settings;
    let at = m.at;
    let work = m.work;
    if !sound(settings, at, m.remainder, work) {
        return ReadFirst {
            read: refused(k, m, 9),
            bytes: words::text::end_of_line(text, 0),
        };
    }
    let first = ask_first(k, settings.scale, at, text);
    let a = first.asked;
    ReadFirst {
        read: take(k, SoundBench { bench: m }, a),
        bytes: first.bytes,
    }
}

// A line alone, likewise.
pub fn read_line(k: Reader, m: Bench, line: &[u8]) -> ReadLine
    ensures { result ≡ read_line_of k m line.now }
{
    let settings = m.settings;
    let at = m.at;
    let work = m.work;
    if !sound(settings, at, m.remainder, work) {
        return refused(k, m, 9);
    }
    take(
        k,
        SoundBench { bench: m },
        ask_line(k, settings.scale, at, line),
    )
}
