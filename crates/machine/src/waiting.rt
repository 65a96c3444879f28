// What waits behind the block in work: its test, where the next block starts, the figure after a tick, and how a block comes into work.
// The functions take the few numbers that they need and no machine, so that a call on words need not build one.
ghost use Rattle.std.specs.Prelude.{◌≡◌, true, ◌-◌, ◌≤◌};
ghost use Rattle.work.specs.computed.Rest.{Countable};
ghost use Rattle.settings.specs.Settings.{capacity_of};
ghost use Rattle.machine.specs.computed.Machine.{waiting_right};
ghost use Rattle.machine.specs.Machine.{start_of};
ghost use Rattle.machine.specs.Calls.{next_of};
ghost use Rattle.machine.specs.computed.Asked.{work_off, cycles_told, Coming};

use crate::Machine;
use bench::Bench;
use bench::tested::SoundBench;
use plane::point::Point;
use question::Question;
use queue::Queue;
use settings::capacity;
use whole::root::is_nearest_root;
use work::rest::end_of;
use work::{Work, begin, is_nothing};

// What is left of the count after the cycles that the block in work has to do, where it has this root and the count has so many. Kind by
// kind, so that what a tick asks of its own kind stands in line.
pub fn work_off(at: Point, work: Work, root: u64, count: u64) -> Option<u64>
    requires { Countable at work }
    ensures { result ≡ work_off at work root count }
{
    match work {
        Work::Nothing if root == 0 => Some(count),
        Work::Line(l) if root == l.cycles => count.checked_sub(l.cycles - l.done),
        Work::Arc(a) if is_nearest_root(2 * a.square, root) => count.checked_sub(a.cycles(
            root, at,
        )),
        _ => None,
    }
}

// Whether root, figure and queue are right behind a bench. With none waiting no place of the queue is looked at.
// `record::sound` asks the same of words where they stand, since a call from C builds no queue.
pub fn is_right(tested: SoundBench, root: u64, left: u64, q: Queue) -> bool
    ensures { let k = tested.bench in result ≡ waiting_right (capacity_of k.settings) k.settings.travel k.at k.work root left q }
{
    let k = tested.bench;
    let Some(rest) = work_off(k.at, k.work, root, left) else {
        return false;
    };
    if q.len == 0 {
        return rest == 0;
    }
    if is_nothing(k.work) {
        return false;
    }
    q.is_sound(
        capacity(k.settings),
        k.settings.travel,
        end_of(k.at, k.work),
        rest,
    )
}

// Where the next block starts: the end of the last one that waits, else of the one in work, else the point.
pub fn start_of(k: Bench, q: Queue) -> Point
    requires { q.len ≤ 16 }
    ensures { result ≡ start_of k q }
{
    let at = k.at;
    let work = k.work;
    q.tail(end_of(at, work))
}

// The cycles still to do after a tick that answered this.
pub fn left_after(left: u64, tick: Result<u8, Question>) -> u64
    requires { cycles_told tick ≤ left }
    ensures { result ≡ left - cycles_told tick }
{
    match tick {
        Ok(byte) if 16 <= byte => left - 1,
        _ => left,
    }
}

// The record after ticks that left the bench so and so many cycles to do: at a block's end the first one that waits comes into work, with
// the remainder then. Nothing is done for it yet.
pub fn next(k: Bench, root: u64, left: u64, q: Queue) -> Machine
    requires { Coming k root left q }
    ensures { result ≡ next_of k q }
{
    let at = k.at;
    let work = k.work;
    if !is_nothing(work) {
        return Machine {
            bench: k,
            root: root,
            left: left,
            queue: q,
        };
    }
    if q.len == 0 {
        return Machine {
            bench: k,
            root: 0,
            left: left,
            queue: q,
        };
    }
    let w = q.first();
    let b = w.block;
    let begun = begin(at, b);
    let first = begun.work;
    Machine {
        bench: k.moved(at, k.remainder, first),
        root: w.root,
        left: left,
        queue: q.pop(),
    }
}
