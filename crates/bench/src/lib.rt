// The bench of a cutting table: 01's machine, which works one block at a time. Crate machine puts a queue behind it; the check of a job
// works at a bench alone. It goes in by value and comes back by value, beside the answer.
#![tactic(auto)]

ghost use Rattle.std.specs.Prelude.{◌≡◌, false, length};
ghost use Rattle.work.specs.Work.{is_nothing};
ghost use Rattle.settings.specs.Settings.{capacity_of};
ghost use Rattle.bench.specs.computed.Bench.{sound_parts};
ghost use Rattle.bench.specs.Bench.{fresh_of, moved_of};
ghost use Rattle.run.specs.computed.Run.{written};
ghost use Rattle.bench.specs.computed.Run.{report_of, no_tick, run_of};
ghost use Rattle.bench.specs.computed.Calls.{make_of, load_of, tick_of};

use block::Block;
use block::questions::ask_load;
use circle::step::DIAGONAL;
use plane::point::Point;
use plane::travel::inside;
use question::Question;
use run::in_work::InWork;
use run::run_work;
use settings::{Settings, ask_settings, capacity, standard};
use tested::SoundBench;
use work::{Work, begin, is_nothing, work_sound, work_tick};

pub mod tested;

#[derive(Clone, Copy)]
pub struct Bench {
    pub settings: Settings,
    // The position: document 01's point.
    pub at: Point,
    // Document 01's mark.
    pub held: bool,
    // What the feed divider has left over; it goes on to the next block.
    pub remainder: u64,
    pub work: Work,
}

// What make and load answer, and in crate machine hold, release and stop, where no question refuses: done, or the register width of the
// block.
#[derive(Drop)]
pub enum Answer {
    Done,
    Width(u64),
}

#[derive(Drop)]
pub struct Answered {
    pub answer: Result<Answer, Question>,
    pub bench: Bench,
}

#[derive(Drop)]
pub struct Ticked {
    // The tick byte.
    pub tick: Result<u8, Question>,
    pub bench: Bench,
}

// What a run answers.
#[derive(Drop)]
pub enum Report {
    Idle,
    Held,
    Ended,
    Spent,
    Full,
}

#[derive(Drop)]
pub struct Ran {
    pub report: Result<Report, Question>,
    pub ticks: u64,
    // How many of the ticks did a cycle: crate machine takes them off its figure. No caller is told.
    pub cycles: u64,
    pub bench: Bench,
}

// Whether a record of these parts is sound. The parts and not the record, so that a call copies little.
pub fn sound(settings: Settings, at: Point, remainder: u64, work: Work) -> bool
    ensures { result ≡ sound_parts settings at remainder work }
{
    if ask_settings(settings).is_err() {
        return false;
    }
    let travel = settings.travel;
    if !inside(travel, at) {
        return false;
    }
    let q0 = capacity(settings);
    if DIAGONAL * q0 <= remainder {
        return false;
    }
    work_sound(q0, travel, at, work)
}

fn report_of(ended: bool, spent: bool) -> Report
    ensures { result ≡ report_of ended spent }
{
    if ended {
        return Report::Ended;
    }
    if spent {
        return Report::Spent;
    }
    Report::Full
}

pub fn fresh(settings: Settings) -> Bench
    ensures { result ≡ fresh_of settings }
{
    let origin = Point { x: 0, y: 0 };
    Bench {
        settings: settings,
        at: origin,
        held: false,
        remainder: 0,
        work: Work::Nothing,
    }
}

impl Bench {
    // The only place beside `fresh` that writes a record; public for what moves a bench without ticks (finish, ahead, look) or puts a queue
    // behind it (machine).
    pub fn moved(self, at: Point, remainder: u64, work: Work) -> Bench
        ensures { result ≡ moved_of self at remainder work }
    {
        let settings = self.settings;
        Bench {
            settings: settings,
            at: at,
            held: self.held,
            remainder: remainder,
            work: work,
        }
    }

    pub fn make(settings: Settings) -> Answered
        ensures { result ≡ make_of settings }
    {
        match ask_settings(settings) {
            Ok(()) => Answered {
                answer: Ok(Answer::Done),
                bench: fresh(settings),
            },
            Err(no) => Answered {
                answer: Err(no),
                bench: fresh(standard()),
            },
        }
    }

    // Ticks into a lent buffer, to the end of its tick budget, of the buffer or of the block.
    pub fn run(self, budget: u64, out: &mut [u8]) -> Ran
        ensures value { result ≡ (run_of self budget (length out.old)).ran }
        ensures out_after { out.new ≡ written (run_of self budget (length out.old)).bytes out.old }
    {
        if !sound(self.settings, self.at, self.remainder, self.work) {
            return self.without_tick(Err(Question::Sound));
        }
        SoundBench { bench: self }.run(budget, out)
    }

    fn without_tick(self, report: Result<Report, Question>) -> Ran
        ensures { result ≡ (no_tick self report).ran }
    {
        Ran {
            report,
            ticks: 0,
            cycles: 0,
            bench: self,
        }
    }
}

impl SoundBench {
    // Gives the bench a block, which begins where it stands.
    pub fn load(self, b: Block) -> Answered
        ensures { result ≡ load_of self.bench b }
    {
        let m = self.bench;
        if let Err(no) = ask_load(
            capacity(m.settings),
            m.settings.travel,
            is_nothing(m.work),
            m.at,
            b,
        ) {
            return Answered {
                answer: Err(no),
                bench: m,
            };
        }
        let begun = begin(m.at, b);
        Answered {
            answer: Ok(Answer::Width(begun.width)),
            bench: m.moved(m.at, m.remainder, begun.work),
        }
    }

    // One clock tick.
    pub fn tick(self) -> Ticked
        ensures { result ≡ tick_of self.bench }
    {
        let m = self.bench;
        if m.held {
            return Ticked {
                tick: Ok(0),
                bench: m,
            };
        }
        if is_nothing(m.work) {
            return Ticked {
                tick: Ok(0),
                bench: m,
            };
        }
        let a = work_tick(capacity(m.settings), m.at, m.remainder, m.work);
        Ticked {
            tick: Ok(a.byte),
            bench: m.moved(a.at, a.remainder, a.work),
        }
    }

    // What is in work, as a run takes it.
    pub fn in_work(self) -> InWork
        requires { is_nothing self.bench.work ≡ false }
        ensures capacity { result.capacity ≡ capacity_of self.bench.settings }
        ensures at { result.at ≡ self.bench.at }
        ensures remainder { result.remainder ≡ self.bench.remainder }
        ensures work { result.work ≡ self.bench.work }
    {
        let m = self.bench;
        InWork {
            capacity: capacity(m.settings),
            at: m.at,
            remainder: m.remainder,
            work: m.work,
        }
    }

    // Ticks into a lent buffer, to the end of its tick budget, of the buffer or of the block.
    pub fn run(self, budget: u64, out: &mut [u8]) -> Ran
        ensures value { result ≡ (run_of self.bench budget (length out.old)).ran }
        ensures out_after { out.new ≡ written (run_of self.bench budget (length out.old)).bytes out.old }
    {
        let m = self.bench;
        if is_nothing(m.work) {
            return m.without_tick(Ok(Report::Idle));
        }
        if m.held {
            return m.without_tick(Ok(Report::Held));
        }
        let r = run_work(self.in_work(), budget, out);
        Ran {
            report: Ok(report_of(r.ended, budget <= r.ticks)),
            ticks: r.ticks,
            cycles: r.cycles,
            bench: m.moved(r.at, r.remainder, r.work),
        }
    }
}
