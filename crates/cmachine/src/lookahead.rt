// The look-ahead for C. The record is lent for reading alone; the one ahead and the sums go to words of the caller's, which are always
// written. No tick is done, and no record is built: in the copy each block on the way gives its point by closed forms, as in crate look.
ghost use Rattle.std.specs.Prelude.{◌≡◌, true};
ghost use Rattle.look.specs.computed.Look.{pass_of};
ghost use Rattle.record.specs.Words.{encode_of, over};
ghost use Rattle.record.specs.computed.Words.{machine_in, sound_words};
ghost use Rattle.cmachine.specs.computed.Looks.{Passing, ticks_of, tells_ahead, told_ahead_of};
ghost use Rattle.cmachine.specs.Looks.{sum_words};

use bench::Bench;
use bench::tested::SoundBench;
use finish::works;
use look::{MOST_TICKS, Sums, way};
use record::read::{bench_in, left_in};
use record::sound::is_sound;
use record::write::store_ticks;
use run::skip::skip_work;

fn sum_words(sums: Sums) -> [i64; 2]
    ensures { result ≡ sum_words sums }
{
    [sums.x, sums.y]
}

// Working ticks to the end of the block in work, where the next one comes into work, or as far as the ticks go. Answers how many.
fn pass(words: &mut [i64; 134], k: Bench, ticks: u64) -> u64
    requires { Passing words.old k }
    ensures value { result ≡ (pass_of (machine_in words.old) ticks).ticks }
    ensures words_after { words.new ≡ over (encode_of (pass_of (machine_in words.old) ticks).machine) words.old }
{
    let r = skip_work(SoundBench { bench: k }.in_work(), ticks);
    let after = k.moved(r.at, r.remainder, r.work);
    let left = left_in(words) - r.cycles;
    store_ticks(words, after, left);
    r.ticks
}

// So many ticks, block by block, 17 at most. Ticks that are no working ones leave the words as they were.
fn after_ticks(words: &mut [i64; 134], ticks: u64)
    requires { sound_words words.old ≡ true }
    ensures { words.new ≡ ticks_of ticks words.old }
{
    let mut left = ticks;
    while 0 < left {
        let k = bench_in(words);
        if !works(SoundBench { bench: k }) {
            return;
        }
        left = left - pass(words, k, left);
    }
}

pub fn vz_ahead(words: &[i64; 134], ticks: u64, then: &mut [i64; 134], sums: &mut [i64; 2]) -> i64
    ensures { tells_ahead result then.new sums.new ≡ told_ahead_of words.now ticks }
{
    // What is tested is what is used: the words that were lent are read once.
    let own = *words;
    *then = own;
    *sums = [0, 0];
    if !is_sound(then) {
        return -9;
    }
    if MOST_TICKS < ticks {
        return -38;
    }
    let k = bench_in(then);
    let from = k.at;
    after_ticks(then, ticks);
    let far = bench_in(then);
    let to = far.at;
    let pulses = sum_words(way(from, to));
    *sums = pulses;
    0
}
