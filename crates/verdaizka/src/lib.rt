// The calls for C, as the static library exports them; `include/verdaizka.h` declares them. Each is the function of its name in cmachine,
// ccheck or cpanel, with that one's promise: a library that other crates use exports nothing.
#![tactic(auto)]

ghost use Rattle.block.specs.declared.Path.{Path};
ghost use Rattle.calls.specs.Calls.{WordCall};
ghost use Rattle.calls.specs.computed.Calls.{bench_made, made_of, tells, tells_run, told_of, told_run_of};
ghost use Rattle.ccheck.specs.computed.Check.{TellsFill, start_progress};
ghost use Rattle.circle.specs.declared.plane.Turn.{Turn};
ghost use Rattle.cmachine.specs.Given.{arc_path, block_given};
ghost use Rattle.cmachine.specs.computed.Looks.{tells_ahead, told_ahead_of};
ghost use Rattle.cmachine.specs.computed.Texts.{tells_line, told_line_of};
ghost use Rattle.cpanel.specs.Read.{tells_read};
ghost use Rattle.cpanel.specs.computed.Panel.{TellsRead, start_panel};
ghost use Rattle.encoding.specs.Words.{settings_of};
ghost use Rattle.std.specs.Prelude.{◌≡◌};

// Whatever the words were, those in front are a record after it.
#[unsafe(no_mangle)]
pub extern "C" fn vz_make(
    words: &mut [i64; 134],
    p: i64,
    w: i64,
    xlo: i64,
    xhi: i64,
    ylo: i64,
    yhi: i64,
) -> i64
    ensures { tells result words.new ≡ made_of words.old (settings_of p w xlo xhi ylo yhi) }
{
    cmachine::vz_make(words, p, w, xlo, xhi, ylo, yhi)
}

#[unsafe(no_mangle)]
pub extern "C" fn vz_load_line(words: &mut [i64; 134], x: i64, y: i64, feed: i64) -> i64
    ensures { tells result words.new ≡ told_of words.old (WordCall.load (block_given Path.Line x y feed)) }
{
    cmachine::vz_load_line(words, x, y, feed)
}

#[unsafe(no_mangle)]
pub extern "C" fn vz_load_cw(
    words: &mut [i64; 134],
    x: i64,
    y: i64,
    feed: i64,
    i: i64,
    j: i64,
) -> i64
    ensures { tells result words.new
        ≡ told_of words.old (WordCall.load (block_given (arc_path Turn.Clockwise i j) x y feed)) }
{
    cmachine::vz_load_cw(words, x, y, feed, i, j)
}

#[unsafe(no_mangle)]
pub extern "C" fn vz_load_ccw(
    words: &mut [i64; 134],
    x: i64,
    y: i64,
    feed: i64,
    i: i64,
    j: i64,
) -> i64
    ensures { tells result words.new
        ≡ told_of words.old (WordCall.load (block_given (arc_path Turn.Counterclockwise i j) x y feed)) }
{
    cmachine::vz_load_ccw(words, x, y, feed, i, j)
}

#[unsafe(no_mangle)]
pub extern "C" fn vz_tick(words: &mut [i64; 134]) -> i64
    ensures { tells result words.new ≡ told_of words.old WordCall.tick }
{
    cmachine::vz_tick(words)
}

// The tick bytes go to the front of the buffer; the rest of it stays.
#[unsafe(no_mangle)]
pub extern "C" fn vz_run(
    words: &mut [i64; 134],
    budget: u64,
    out: &mut [u8],
    ticks: &mut u64,
) -> i64
    ensures { tells_run result ticks.new words.new out.new
        ≡ told_run_of words.old budget out.old }
{
    cmachine::vz_run(words, budget, out, ticks)
}

#[unsafe(no_mangle)]
pub extern "C" fn vz_hold(words: &mut [i64; 134]) -> i64
    ensures { tells result words.new ≡ told_of words.old WordCall.hold }
{
    cmachine::vz_hold(words)
}

#[unsafe(no_mangle)]
pub extern "C" fn vz_release(words: &mut [i64; 134]) -> i64
    ensures { tells result words.new ≡ told_of words.old WordCall.release }
{
    cmachine::vz_release(words)
}

#[unsafe(no_mangle)]
pub extern "C" fn vz_stop(words: &mut [i64; 134]) -> i64
    ensures { tells result words.new ≡ told_of words.old WordCall.stop }
{
    cmachine::vz_stop(words)
}

#[unsafe(no_mangle)]
pub extern "C" fn vz_ahead(
    words: &[i64; 134],
    ticks: u64,
    then: &mut [i64; 134],
    sums: &mut [i64; 2],
) -> i64
    ensures { tells_ahead result then.new sums.new ≡ told_ahead_of words.now ticks }
{
    cmachine::lookahead::vz_ahead(words, ticks, then, sums)
}

// A line without its LF.
#[unsafe(no_mangle)]
pub extern "C" fn vz_read_line(words: &mut [i64; 134], known: &mut [i64; 2], line: &[u8]) -> i64
    ensures { tells_line result words.new known.new
        ≡ told_line_of words.old known.old line.now }
{
    cmachine::text::vz_read_line(words, known, line)
}

// Settings are read and answered as by vz_make. Whatever the words were, they are a check after it.
#[unsafe(no_mangle)]
pub extern "C" fn vz_check_start(
    bench: &mut [i64; 19],
    progress: &mut [i64; 9],
    p: i64,
    w: i64,
    xlo: i64,
    xhi: i64,
    ylo: i64,
    yhi: i64,
) -> i64
    ensures bench { tells result bench.new ≡ bench_made (settings_of p w xlo xhi ylo yhi) }
    ensures progress { progress.new ≡ start_progress (settings_of p w xlo xhi ylo yhi) }
{
    ccheck::vz_check_start(bench, progress, p, w, xlo, xhi, ylo, yhi)
}

// Whole rows go to the front of the buffer, as long as one more surely fits; the rest of it stays.
#[unsafe(no_mangle)]
pub extern "C" fn vz_check_fill(
    bench: &mut [i64; 19],
    progress: &mut [i64; 9],
    text: &[u8],
    out: &mut [u8],
    len: &mut u64,
) -> i64
    ensures { TellsFill bench.old progress.old text.now out.old
        result len.new bench.new progress.new out.new }
{
    ccheck::vz_check_fill(bench, progress, text, out, len)
}

// Settings are read and answered as by vz_make. Whatever the words were, they are a panel's check after it.
#[unsafe(no_mangle)]
pub extern "C" fn vz_panel_start(
    bench: &mut [i64; 19],
    panel: &mut [i64; 10],
    p: i64,
    w: i64,
    xlo: i64,
    xhi: i64,
    ylo: i64,
    yhi: i64,
) -> i64
    ensures bench { tells result bench.new ≡ bench_made (settings_of p w xlo xhi ylo yhi) }
    ensures panel { panel.new ≡ start_panel (settings_of p w xlo xhi ylo yhi) }
{
    cpanel::vz_panel_start(bench, panel, p, w, xlo, xhi, ylo, yhi)
}

// The next piece of the text, the last one where `last` is not 0. A row goes to the front of `rows`; its later bytes stay.
#[unsafe(no_mangle)]
pub extern "C" fn vz_panel_read(
    bench: &mut [i64; 19],
    panel: &mut [i64; 10],
    scratch: &mut [u8],
    piece: &[u8],
    last: i64,
    rows: &mut [u8],
    took: &mut u64,
    written: &mut u64,
) -> i64
    ensures { TellsRead bench.old panel.old scratch.old piece.now last
        rows.old (tells_read result took.new written.new bench.new panel.new
        scratch.new rows.new) }
{
    cpanel::vz_panel_read(bench, panel, scratch, piece, last, rows, took, written)
}
