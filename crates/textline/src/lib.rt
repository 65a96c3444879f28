// One line of a job, read at a machine: what it leaves out is that of the place where the next block starts, and its block may wait. The
// reader and the record go in and come back beside the answer.
#![tactic(auto)]

ghost use Rattle.std.specs.Prelude.{◌≡◌};
ghost use Rattle.machine.specs.computed.Calls.{load_of};
ghost use Rattle.reader.specs.declared.text_line.Read.TheVariants.{Refused};
ghost use Rattle.textline.specs.computed.TextLine.{reads, loaded, taken_of, read_line_of};

use bench::Answer;
use block::Block;
use machine::Machine;
use machine::waiting::start_of;
use reader::Reader;
use reader::asked::{Asked, ToLoad, ask_line};
use reader::text_line::Read;

#[derive(Drop)]
pub struct ReadLine {
    pub answer: Read,
    pub reader: Reader,
    pub machine: Machine,
}

fn refused(k: Reader, m: Machine, number: u64) -> ReadLine
    ensures { result ≡ reads (Refused number) k m }
{
    ReadLine {
        answer: Read::Refused(number),
        reader: k,
        machine: m,
    }
}

// The block of a line: k is the reader before it, next the one after it.
fn load(k: Reader, next: Reader, m: Machine, b: Block) -> ReadLine
    ensures { result ≡ loaded k next m (load_of m b).machine (load_of m b).answer }
{
    let a = m.load(b);
    let answer = a.answer;
    let after = a.machine;
    match answer {
        Ok(Answer::Done) => ReadLine {
            answer: Read::Nothing,
            reader: next,
            machine: after,
        },
        Ok(Answer::Width(bits)) => ReadLine {
            answer: Read::Loaded(bits),
            reader: next,
            machine: after,
        },
        Err(no) => refused(k, m, no.number()),
    }
}

// What a line asked; k is the reader before it.
fn take(k: Reader, m: Machine, a: Asked) -> ReadLine
    ensures { result ≡ taken_of k m a }
{
    let asks = a.asks;
    let next = a.reader;
    match asks {
        ToLoad::Nothing => ReadLine {
            answer: Read::Nothing,
            reader: next,
            machine: m,
        },
        ToLoad::Block(b) => load(k, next, m, b),
        ToLoad::Refused(no) => refused(k, m, no),
    }
}

// A line without its LF; a record that is not sound gets 9.
pub fn read_line(k: Reader, m: Machine, line: &[u8]) -> ReadLine
    ensures { result ≡ read_line_of k m line.now }
{
    if !m.is_sound() {
        return refused(k, m, 9);
    }
    let bench = m.bench;
    let queue = m.queue;
    let settings = bench.settings;
    let start = start_of(bench, queue);
    take(k, m, ask_line(k, settings.scale, start, line))
}
