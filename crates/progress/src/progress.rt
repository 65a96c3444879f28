// A check's progress as 9 words, and back. `specs/Progress.antt` says which word is what. The stage stays a number in `Progress`: these are
// the words of the C interface, which may hold any.
ghost use Rattle.std.specs.Prelude.{◌≡◌};
ghost use Rattle.progress.specs.Progress.{stage_word, progress_of, progress_words, encode_progress, stage_of, tally_of, check_of};
ghost use Rattle.progress.specs.Progress.{progress_in};
ghost use Rattle.progress.specs.computed.Progress.{check_told};
ghost use Rattle.progress.specs.computed.Right.{count_words_right, progress_right};

use crate::known::{Known, known_of, known_right, reader_of};
use crate::long::{LongWords, long_of, long_right, long_words};
use bench::Bench;
use encoding::number::{count, is_count, word};
use job::{Check, Stage};
use plane::travel::{Range, within};
use tally::Tally;

#[derive(Clone, Copy)]
pub struct Progress {
    pub stage: i64,
    pub at: i64,
    pub known: Known,
    pub lines: i64,
    pub blocks: i64,
    pub cycles: i64,
    pub ticks: LongWords,
}

fn stage_word(stage: Stage) -> i64
    ensures { result ≡ stage_word stage }
{
    match stage {
        Stage::Header => 0,
        Stage::Lines => 1,
        Stage::Over => 2,
    }
}

fn progress_of(c: Check) -> Progress
    ensures { result ≡ progress_of c }
{
    let stage = c.stage;
    let tally = c.tally;
    let reader = tally.reader;
    let known = known_of(reader);
    let counted = tally.ticks;
    let ticks = long_words(counted);
    Progress {
        stage: stage_word(stage),
        at: word(c.at as u64),
        known: known,
        lines: word(tally.lines),
        blocks: word(tally.blocks),
        cycles: word(tally.cycles),
        ticks: ticks,
    }
}

// The words in their order.
fn in_order(p: Progress) -> [i64; 9]
    ensures { result ≡ progress_words p }
{
    let known = p.known;
    let ticks = p.ticks;
    [
        p.stage,
        p.at,
        known.motion,
        known.feed,
        p.lines,
        p.blocks,
        p.cycles,
        ticks.low,
        ticks.high,
    ]
}

pub fn encode_progress(c: Check) -> [i64; 9]
    ensures { result ≡ encode_progress c }
{
    in_order(progress_of(c))
}

fn stage_of(n: u64) -> Stage
    ensures { result ≡ stage_of n }
{
    if n == 1 {
        return Stage::Lines;
    }
    if n == 2 {
        return Stage::Over;
    }
    Stage::Header
}

fn progress_in(words: [i64; 9]) -> Progress
    ensures { result ≡ progress_in words }
{
    let known = Known {
        motion: words[2],
        feed: words[3],
    };
    let ticks = LongWords {
        low: words[7],
        high: words[8],
    };
    Progress {
        stage: words[0],
        at: words[1],
        known: known,
        lines: words[4],
        blocks: words[5],
        cycles: words[6],
        ticks: ticks,
    }
}

fn tally_of(m: Bench, p: Progress) -> Tally
    ensures { result ≡ tally_of m p }
{
    let known = p.known;
    let reader = reader_of(known);
    let told = p.ticks;
    let ticks = long_of(told);
    Tally {
        reader: reader,
        bench: m,
        lines: count(p.lines),
        blocks: count(p.blocks),
        cycles: count(p.cycles),
        ticks: ticks,
    }
}

fn check_of(m: Bench, p: Progress) -> Check
    ensures { result ≡ check_of m p }
{
    let tally = tally_of(m, p);
    Check {
        stage: stage_of(count(p.stage)),
        at: count(p.at) as usize,
        tally: tally,
    }
}

fn counts_right(p: Progress) -> bool
    ensures { result ≡ count_words_right p }
{
    if !is_count(p.at) {
        return false;
    }
    if !is_count(p.lines) {
        return false;
    }
    if !is_count(p.blocks) {
        return false;
    }
    if !is_count(p.cycles) {
        return false;
    }
    let ticks = p.ticks;
    long_right(ticks)
}

fn progress_right(p: Progress) -> bool
    ensures { result ≡ progress_right p }
{
    let stages = Range { lower: 0, upper: 2 };
    let known = p.known;
    if !within(stages, p.stage) {
        return false;
    }
    if !known_right(known) {
        return false;
    }
    counts_right(p)
}

// The check at this bench, where the words are one's progress.
pub fn decode_progress(m: Bench, words: [i64; 9]) -> Option<Check>
    ensures { result ≡ check_told m words }
{
    let p = progress_in(words);
    if !progress_right(p) {
        return None;
    }
    Some(check_of(m, p))
}
