// The bench after so many ticks. No tick is done: the block in work gives its point by closed forms, so the cost does not grow with the
// ticks, on lines and arcs alike. At a block's end nothing comes into work: a job loads its next block itself.
#![tactic(auto)]

ghost use Rattle.std.specs.Prelude.{◌≡◌};
ghost use Rattle.ahead.specs.computed.Ahead.{ticking_of};

use bench::Bench;
use bench::tested::SoundBench;
use finish::works;
use run::skip::skip_work;

// The record after so many ticks; ticks that are no working ones leave it as it was.
pub fn after_ticks(m: SoundBench, ticks: u64) -> Bench
    ensures { result ≡ (ticking_of ticks m.bench).bench }
{
    if !works(m) {
        return m.bench;
    }
    let r = skip_work(m.in_work(), ticks);
    m.bench.moved(r.at, r.remainder, r.work)
}
