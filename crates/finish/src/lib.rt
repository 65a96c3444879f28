// A run to the end of the block in work, without its bytes: the charges left give the ticks, so none is walked.
#![tactic(auto)]

ghost use Rattle.std.specs.Prelude.{◌≡◌};
ghost use Rattle.finish.specs.computed.Finish.{works_of, finish_of};

use bench::Bench;
use bench::tested::SoundBench;
use divider::{FEED_SCALE, ending};
use settings::capacity;
use work::rest::work_left;
use work::{Work, is_nothing};

// What such a run does: its cycles, its working ticks, and the record that it leaves.
#[derive(Drop)]
pub struct Finished {
    pub cycles: u64,
    pub ticks: u64,
    pub bench: Bench,
}

// Whether a tick of this record is a working one: it has a block in work and is not held.
#[tactic(auto, unfolding(crate::specs::computed::Finish::works_of))]
pub fn works(m: SoundBench) -> bool
    ensures { result ≡ works_of m.bench }
{
    !is_nothing(m.bench.work) && !m.bench.held
}

// To the end of the block in work; a record whose ticks are no working ones stays as it was.
#[tactic(auto, unfolding(crate::specs::computed::Finish::finish_of))]
pub fn finish(tested: SoundBench) -> Finished
    ensures { result ≡ finish_of tested.bench }
{
    let m = tested.bench;
    if !works(tested) {
        return Finished {
            cycles: 0,
            ticks: 0,
            bench: m,
        };
    }
    let q0 = capacity(m.settings);
    let left = work_left(m.at, m.work);
    let last = ending(
        left.charges * q0,
        FEED_SCALE * left.feed,
        m.remainder,
        left.cycles,
    );
    Finished {
        cycles: left.cycles,
        ticks: last.tick,
        bench: m.moved(left.end, last.remainder, Work::Nothing),
    }
}
