// The calls of the machine on 134 words that a caller in C owns. Each answers for any words: those that are no sound record get 9 and stay
// as they are, and so do those of a refused load. No record is built: a call reads the words that it needs and writes those that change.
#![tactic(auto)]

ghost use Rattle.std.specs.Prelude.{◌≡◌};
ghost use Rattle.encoding.specs.Words.{settings_of};
ghost use Rattle.machine.specs.computed.Calls.{load_of};
ghost use Rattle.record.specs.Words.{encode_of, over};
ghost use Rattle.record.specs.computed.Words.{machine_in};
ghost use Rattle.calls.specs.Calls.{WordCall};
ghost use Rattle.calls.specs.computed.Calls.{tells, told_of, made_of, tells_run, told_run_of};
ghost use Rattle.calls.specs.computed.Asked.{Asking, marks};

use crate::answer::{answer_number, report_number, tick_number};
use bench::tested::SoundBench;
use bench::{Answer, Bench};
use block::Block;
use block::questions::ask_load;
use encoding::encode::encode;
use encoding::given::settings;
use machine::waiting::left_after;
use plane::point::Point;
use question::Question;
use record::read::{bench_in, left_in, len_in, start_in};
use record::sound::is_sound;
use record::write::{store_mark, store_stop, store_ticks, take};
use settings::capacity;
use work::is_nothing;

pub mod answer;

// ---- tick

// While idle or held it writes nothing.
pub fn tick(words: &mut [i64; 134]) -> i64
    ensures { tells result words.new ≡ told_of words.old WordCall.tick }
{
    if !is_sound(words) {
        return -9;
    }
    let k = bench_in(words);
    let work = k.work;
    if k.held {
        return 0;
    }
    if is_nothing(work) {
        return 0;
    }
    let t = SoundBench { bench: k }.tick();
    let tick = t.tick;
    let left = left_after(left_in(words), tick);
    store_ticks(words, t.bench, left);
    tick_number(tick)
}

// ---- hold, release, stop

fn marked(words: &mut [i64; 134], held: bool) -> i64
    ensures { tells result words.new ≡ told_of words.old (marks held) }
{
    if !is_sound(words) {
        return -9;
    }
    store_mark(words, held);
    0
}

pub fn hold(words: &mut [i64; 134]) -> i64
    ensures { tells result words.new ≡ told_of words.old WordCall.hold }
{
    marked(words, true)
}

pub fn release(words: &mut [i64; 134]) -> i64
    ensures { tells result words.new ≡ told_of words.old WordCall.release }
{
    marked(words, false)
}

pub fn stop(words: &mut [i64; 134]) -> i64
    ensures { tells result words.new ≡ told_of words.old WordCall.stop }
{
    if !is_sound(words) {
        return -9;
    }
    store_stop(words);
    0
}

// ---- load

// Load's questions at the words of a sound record, whose bench this is and behind which the next block starts here. A refused block writes
// nothing.
pub fn load_sound(
    words: &mut [i64; 134],
    k: Bench,
    start: Point,
    b: Block,
) -> Result<Answer, Question>
    requires { Asking words.old k start }
    ensures value { result ≡ (load_of (machine_in words.old) b).answer }
    ensures words_after { words.new ≡ over (encode_of (load_of (machine_in words.old) b).machine) words.old }
{
    let settings = k.settings;
    let travel = settings.travel;
    let work = k.work;
    let len = len_in(words);
    ask_load(capacity(settings), travel, len < 16, start, b)?;
    Ok(Answer::Width(take(words, work, start, b)))
}

// Gives the machine a block, which begins where the last one before it ends.
pub fn load(words: &mut [i64; 134], b: Block) -> i64
    ensures { tells result words.new ≡ told_of words.old (WordCall.load b) }
{
    if !is_sound(words) {
        return -9;
    }
    let k = bench_in(words);
    let start = start_in(words, k);
    let answer = load_sound(words, k, start, b);
    answer_number(answer)
}

// ---- make

// Writes words over those in front.
fn lay(words: &mut [i64; 134], front: &[i64; 19])
    ensures { words.new ≡ over front.now words.old }
{
    // Not by `copy_from_slice`, for which the archive would need memcpy from outside.
    for i in 0..19 {
        words[i] = front[i];
    }
}

// Whatever the words were, those in front are a record after it: the bench's own, and no root, no cycle and no block to do.
pub fn make(words: &mut [i64; 134], p: i64, w: i64, xlo: i64, xhi: i64, ylo: i64, yhi: i64) -> i64
    ensures { tells result words.new ≡ made_of words.old (settings_of p w xlo xhi ylo yhi) }
{
    let a = Bench::make(settings(p, w, xlo, xhi, ylo, yhi));
    let answer = a.answer;
    let front = encode(a.bench);
    lay(words, &front);
    words[19] = 0;
    words[20] = 0;
    words[21] = 0;
    answer_number(answer)
}

// ---- run

// The tick bytes go to the front of the buffer; the rest of it stays.
pub fn run(words: &mut [i64; 134], budget: u64, out: &mut [u8], ticks: &mut u64) -> i64
    ensures { tells_run result ticks.new words.new out.new
        ≡ told_run_of words.old budget out.old }
{
    *ticks = 0;
    if !is_sound(words) {
        return -9;
    }
    let k = bench_in(words);
    let r = SoundBench { bench: k }.run(budget, out);
    let report = r.report;
    let after = r.bench;
    let left = left_in(words) - r.cycles;
    store_ticks(words, after, left);
    *ticks = r.ticks;
    report_number(report)
}
