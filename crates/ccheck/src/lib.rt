// The check of a job text for C, on 19 words of its own: "Each block is loaded once the one before has ended", so none ever waits, and the
// record is that of a bench. What the check has come to stands in 9 words beside it. Words that are no sound record, or tell no progress,
// get 9 and stay as they are.
#![tactic(auto)]

ghost use Rattle.std.specs.Prelude.{◌≡◌};
ghost use Rattle.encoding.specs.Words.{settings_of};
ghost use Rattle.calls.specs.computed.Calls.{tells, bench_made};
ghost use Rattle.ccheck.specs.computed.Check.{start_progress, TellsFill};

use bench::Bench;
use calls::answer::answer_number;
use encoding::decode::{bench_read, is_sound};
use encoding::encode::{encode, mark_word};
use encoding::given::settings;
use job::Check;
use progress::progress::{decode_progress, encode_progress};

// Settings are read and answered as by vz_make. Whatever the words were, they are a check after it.
pub fn vz_check_start(
    bench: &mut [i64; 19],
    progress: &mut [i64; 9],
    p: i64,
    w: i64,
    xlo: i64,
    xhi: i64,
    ylo: i64,
    yhi: i64,
) -> i64
    ensures bench { tells result bench.new ≡ bench_made (settings_of p w xlo xhi ylo yhi) }
    ensures progress { progress.new ≡ start_progress (settings_of p w xlo xhi ylo yhi) }
{
    let a = Bench::make(settings(p, w, xlo, xhi, ylo, yhi));
    let answer = a.answer;
    let m = a.bench;
    let after = encode(m);
    let begun = encode_progress(Check::start(m));
    *bench = after;
    *progress = begun;
    answer_number(answer)
}

// Whole rows go to the front of the buffer, as long as one more surely fits; the rest of it stays.
pub fn vz_check_fill(
    bench: &mut [i64; 19],
    progress: &mut [i64; 9],
    text: &[u8],
    out: &mut [u8],
    len: &mut u64,
) -> i64
    ensures { TellsFill bench.old progress.old text.now out.old
        result len.new bench.new progress.new out.new }
{
    *len = 0;
    if !is_sound(bench) {
        return -9;
    }
    let m = bench_read(bench);
    let given = *progress;
    let Some(check) = decode_progress(m, given) else {
        return -9;
    };
    let f = check.fill(text, out);
    let next = f.check;
    let tally = next.tally;
    let reached = tally.bench;
    let after = encode(reached);
    let come = encode_progress(next);
    *bench = after;
    *progress = come;
    *len = f.len as u64;
    mark_word(next.is_over())
}
