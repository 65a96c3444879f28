// The check on the operator panel for C, from pieces of a text that is never held whole: on 19 words of a bench, as a check has them, and
// on 10 of how far it has come. Words that are no sound record, or tell no panel's check, get 9 and stay as they are.
#![tactic(auto)]

ghost use Rattle.std.specs.Prelude.{◌≡◌};
ghost use Rattle.encoding.specs.Words.{settings_of};
ghost use Rattle.calls.specs.computed.Calls.{tells, bench_made};
ghost use Rattle.cpanel.specs.Read.{is_last, tells_read};
ghost use Rattle.cpanel.specs.computed.Panel.{start_panel, TellsRead};

use crate::decode::decode_panel;
use crate::encode::{encode_panel, told_number};
use bench::Bench;
use calls::answer::answer_number;
use encoding::decode::{bench_read, is_sound};
use encoding::encode::encode;
use encoding::given::settings;
use panel::PanelCheck;

pub mod decode;
pub mod encode;

// Settings are read and answered as by vz_make. Whatever the words were, they are a panel's check after it.
pub fn vz_panel_start(
    bench: &mut [i64; 19],
    panel: &mut [i64; 10],
    p: i64,
    w: i64,
    xlo: i64,
    xhi: i64,
    ylo: i64,
    yhi: i64,
) -> i64
    ensures bench { tells result bench.new ≡ bench_made (settings_of p w xlo xhi ylo yhi) }
    ensures panel { panel.new ≡ start_panel (settings_of p w xlo xhi ylo yhi) }
{
    let a = Bench::make(settings(p, w, xlo, xhi, ylo, yhi));
    let answer = a.answer;
    let m = a.bench;
    let after = encode(m);
    let begun = encode_panel(PanelCheck::start(m));
    *bench = after;
    *panel = begun;
    answer_number(answer)
}

fn is_last(last: i64) -> bool
    ensures { result ≡ is_last last }
{
    last != 0
}

// The next piece of the text, the last one where `last` is not 0. A row goes to the front of `rows`; its later bytes stay.
pub fn vz_panel_read(
    bench: &mut [i64; 19],
    panel: &mut [i64; 10],
    scratch: &mut [u8],
    piece: &[u8],
    last: i64,
    rows: &mut [u8],
    took: &mut u64,
    written: &mut u64,
) -> i64
    ensures { TellsRead bench.old panel.old scratch.old piece.now last
        rows.old (tells_read result took.new written.new bench.new panel.new
        scratch.new rows.new) }
{
    *took = 0;
    *written = 0;
    if !is_sound(bench) {
        return -9;
    }
    let m = bench_read(bench);
    let given = *panel;
    let Some(check) = decode_panel(m, given) else {
        return -9;
    };
    let f = check.read(scratch, piece, is_last(last), rows);
    let told = f.told;
    let next = f.check;
    let tally = next.tally;
    let reached = tally.bench;
    let after = encode(reached);
    let come = encode_panel(next);
    *bench = after;
    *panel = come;
    *took = f.took as u64;
    *written = f.wrote as u64;
    told_number(told)
}
