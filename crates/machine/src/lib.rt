// The machine of a cutting table: the bench, which works one block at a time, and behind it the blocks that wait. It goes in by value and
// comes back by value from each call, beside the answer. A call tests the record first, so that any record whatever gets an answer.
#![tactic(auto)]

ghost use Rattle.std.specs.Prelude.{◌≡◌, true, length, Ok, Err};
ghost use Rattle.run.specs.computed.Run.{written};
ghost use Rattle.bench.specs.declared.Answer.TheVariants.{Done};
ghost use Rattle.machine.specs.computed.Machine.{sound_of};
ghost use Rattle.machine.specs.Machine.{fresh_of};
ghost use Rattle.machine.specs.computed.Run.{run_of};
ghost use Rattle.machine.specs.Calls.{answers, mark_of};
ghost use Rattle.machine.specs.computed.Calls.{if_sound, make_of, load_with, load_of, tick_of, hold_of, release_of, stop_of};
ghost use Rattle.machine.specs.computed.Asked.{Taking};

use bench::tested::SoundBench;
use bench::{Answer, Bench, Report};
use block::Block;
use block::questions::ask_load;
use plane::point::Point;
use question::Question;
use queue::{Queue, Waiting};
use settings::{Settings, ask_settings, capacity, standard};
use work::rest::{cycles_left, root_of};
use work::{Work, begin, is_nothing};

pub mod waiting;

#[derive(Clone, Copy)]
pub struct Machine {
    // 01's machine: settings, position, mark, remainder and what is in work.
    pub bench: Bench,
    // The root of the block in work, as those that wait keep theirs: of a line its cycles once more. 0 of nothing.
    pub root: u64,
    // The cycles still to do, of the block in work and of all that wait.
    pub left: u64,
    pub queue: Queue,
}

#[derive(Drop)]
pub struct Answered {
    pub answer: Result<Answer, Question>,
    pub machine: Machine,
}

#[derive(Drop)]
pub struct Ticked {
    pub tick: Result<u8, Question>,
    pub machine: Machine,
}

#[derive(Drop)]
pub struct Ran {
    pub report: Result<Report, Question>,
    pub ticks: u64,
    pub machine: Machine,
}

fn fresh(settings: Settings) -> Machine
    ensures { result ≡ fresh_of settings }
{
    Machine {
        bench: bench::fresh(settings),
        root: 0,
        left: 0,
        queue: Queue::empty(),
    }
}

impl Machine {
    // Whether this is a sound record.
    pub fn is_sound(self) -> bool
        ensures { result ≡ sound_of self }
    {
        let k = self.bench;
        bench::sound(k.settings, k.at, k.remainder, k.work)
            && waiting::is_right(SoundBench { bench: k }, self.root, self.left, self.queue)
    }

    // The answer of a call that is refused: the record stays as it was.
    fn refused(self, no: Question) -> Answered
        ensures { result ≡ answers (Err no) self }
    {
        Answered {
            answer: Err(no),
            machine: self,
        }
    }

    pub fn make(settings: Settings) -> Answered
        ensures { result ≡ make_of settings }
    {
        match ask_settings(settings) {
            Ok(()) => Answered {
                answer: Ok(Answer::Done),
                machine: fresh(settings),
            },
            Err(no) => Answered {
                answer: Err(no),
                machine: fresh(standard()),
            },
        }
    }

    // A block that no question refused: into work where nothing is, else behind those that wait.
    fn take(self, start: Point, b: Block) -> Answered
        requires { Taking self start b }
        ensures { result ≡ load_with self b (Ok tt) }
    {
        let k = self.bench;
        let work = k.work;
        let begun = begin(start, b);
        let first = begun.work;
        let root = root_of(first);
        let left = self.left + cycles_left(start, first, root);
        let mut next = self;
        next.left = left;
        if is_nothing(work) {
            let at = k.at;
            next.bench = k.moved(at, k.remainder, first);
            next.root = root;
            return Answered {
                answer: Ok(Answer::Width(begun.width)),
                machine: next,
            };
        }
        let q = self.queue;
        next.queue = q.push(Waiting {
            block: b,
            root: root,
        });
        Answered {
            answer: Ok(Answer::Width(begun.width)),
            machine: next,
        }
    }

    // Gives the machine a block, which begins where the last one before it ends.
    pub fn load(self, b: Block) -> Answered
        ensures { result ≡ load_of self b }
    {
        if !self.is_sound() {
            return self.refused(Question::Sound);
        }
        let k = self.bench;
        let q = self.queue;
        let settings = k.settings;
        let travel = settings.travel;
        let start = waiting::start_of(k, q);
        if let Err(no) = ask_load(capacity(settings), travel, q.len < 16, start, b) {
            return self.refused(no);
        }
        self.take(start, b)
    }

    // One clock tick.
    pub fn tick(self) -> Ticked
        ensures { result ≡ tick_of self }
    {
        if !self.is_sound() {
            return Ticked {
                tick: Err(Question::Sound),
                machine: self,
            };
        }
        let t = SoundBench { bench: self.bench }.tick();
        let left = waiting::left_after(self.left, t.tick);
        Ticked {
            tick: t.tick,
            machine: waiting::next(t.bench, self.root, left, self.queue),
        }
    }

    // Ticks into a lent buffer, to the end of its tick budget, of the buffer or of the block.
    pub fn run(self, budget: u64, out: &mut [u8]) -> Ran
        ensures value { result ≡ (run_of self budget (length out.old)).ran }
        ensures out_after { out.new ≡ written (run_of self budget (length out.old)).bytes out.old }
    {
        if !self.is_sound() {
            return Ran {
                report: Err(Question::Sound),
                ticks: 0,
                machine: self,
            };
        }
        let r = SoundBench { bench: self.bench }.run(budget, out);
        let left = self.left - r.cycles;
        Ran {
            report: r.report,
            ticks: r.ticks,
            machine: waiting::next(r.bench, self.root, left, self.queue),
        }
    }

    // The record with another mark.
    fn marked(self, mark: bool) -> Answered
        ensures { result ≡ if_sound self (answers (Ok Done) (mark_of self mark)) }
    {
        if !self.is_sound() {
            return self.refused(Question::Sound);
        }
        let mut k = self.bench;
        k.held = mark;
        let mut next = self;
        next.bench = k;
        Answered {
            answer: Ok(Answer::Done),
            machine: next,
        }
    }

    pub fn hold(self) -> Answered
        ensures { result ≡ hold_of self }
    {
        self.marked(true)
    }

    pub fn release(self) -> Answered
        ensures { result ≡ release_of self }
    {
        self.marked(false)
    }

    // Drops the block in work and all that wait. The point and the mark stay.
    pub fn stop(self) -> Answered
        ensures { result ≡ stop_of self }
    {
        if !self.is_sound() {
            return self.refused(Question::Sound);
        }
        let k = self.bench;
        let at = k.at;
        let idle = Machine {
            bench: k.moved(at, 0, Work::Nothing),
            root: 0,
            left: 0,
            queue: Queue::empty(),
        };
        Answered {
            answer: Ok(Answer::Done),
            machine: idle,
        }
    }
}
