// Where the machine will be: the record after so many ticks, and the pulses on the way there. No tick is done: the block in work gives its
// point by closed forms, and so does each one that waits, so the cost grows with the blocks on the way and not with the ticks.
#![tactic(auto)]

ghost use Rattle.std.specs.Prelude.{◌≡◌, true};
ghost use Rattle.plane.specs.Point.{Near};
ghost use Rattle.finish.specs.computed.Finish.{works_of};
ghost use Rattle.machine.specs.computed.Machine.{sound_of};
ghost use Rattle.look.specs.computed.Look.{refusing, ticking_of, ahead_of, pass_of, way_of};

use bench::Answer;
use bench::tested::SoundBench;
use finish::works;
use machine::Machine;
use machine::waiting::next;
use plane::point::Point;
use question::Question;
use run::skip::skip_work;

// How far a caller may look.
pub const MOST_TICKS: u64 = 1_000_000;

// The pulses sent on each axis, plus ones less minus ones.
#[derive(Drop)]
pub struct Sums {
    pub x: i64,
    pub y: i64,
}

// What a look-ahead answers.
#[derive(Drop)]
pub struct Ahead {
    pub answer: Result<Answer, Question>,
    // The record that the ticks would give, and their pulses; of a refusal the machine's own record, and 0.
    pub then: Machine,
    pub sums: Sums,
    // The machine, as it was.
    pub machine: Machine,
}

// The record some ticks further, within one block, and how many they are.
#[derive(Drop)]
struct Passed {
    pub machine: Machine,
    pub ticks: u64,
}

fn refused(own: Machine, no: Question) -> Ahead
    ensures { result ≡ refusing own no }
{
    Ahead {
        answer: Err(no),
        then: own,
        sums: Sums { x: 0, y: 0 },
        machine: own,
    }
}

// The pulses that lead from one point to another.
pub fn way(from: Point, to: Point) -> Sums
    requires { Near 1000000 from × Near 1000000 to }
    ensures { result ≡ way_of from to }
{
    Sums {
        x: to.x - from.x,
        y: to.y - from.y,
    }
}

// Working ticks to the end of the block in work, where the next one comes into work, or as far as the ticks go.
fn pass(m: Machine, ticks: u64) -> Passed
    requires { (sound_of m ≡ true) × (works_of m.bench ≡ true) }
    ensures { result ≡ pass_of m ticks }
{
    let k = m.bench;
    let r = skip_work(SoundBench { bench: k }.in_work(), ticks);
    let after = k.moved(r.at, r.remainder, r.work);
    let left = m.left - r.cycles;
    Passed {
        machine: next(after, m.root, left, m.queue),
        ticks: r.ticks,
    }
}

// The record after so many ticks, of a record that has been tested: block by block, 17 at most. Ticks that are no working ones leave it as
// it was.
fn after_ticks(m: Machine, ticks: u64) -> Machine
    requires { sound_of m ≡ true }
    ensures { result ≡ (ticking_of ticks m).machine }
{
    let mut now = m;
    let mut left = ticks;
    while 0 < left {
        if !works(SoundBench { bench: now.bench }) {
            return now;
        }
        let p = pass(now, left);
        now = p.machine;
        left -= p.ticks;
    }
    now
}

// What so many ticks would give on a copy, of a record that has been tested.
pub fn look_sound(m: Machine, ticks: u64) -> Ahead
    requires { sound_of m ≡ true }
    ensures { result ≡ ahead_of m ticks }
{
    if MOST_TICKS < ticks {
        return refused(m, Question::LookLength);
    }
    let then = after_ticks(m, ticks);
    Ahead {
        answer: Ok(Answer::Done),
        then,
        sums: way(m.bench.at, then.bench.at),
        machine: m,
    }
}

// What so many ticks would give on a copy.
pub fn look_ahead(m: Machine, ticks: u64) -> Ahead
    ensures { result ≡ ahead_of m ticks }
{
    if !m.is_sound() {
        return refused(m, Question::Sound);
    }
    look_sound(m, ticks)
}
