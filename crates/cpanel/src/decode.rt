// The panel's check that 10 words tell at a bench, and whether they are one's.
ghost use Rattle.std.specs.Prelude.{◌≡◌, true, take};
ghost use Rattle.cpanel.specs.Words.{panel_of};
ghost use Rattle.cpanel.specs.computed.Panel.{panel_right, panel_check_told};

use bench::Bench;
use encoding::number::{count, is_count};
use job::Check;
use panel::{PanelCheck, SCRATCH};
use progress::progress::decode_progress;
use reader::LONGEST_TEXT;

// Those of a check's progress.
fn first_nine(words: [i64; 10]) -> [i64; 9]
    ensures { result ≡ take 9 words }
{
    [
        words[0], words[1], words[2], words[3], words[4], words[5], words[6], words[7], words[8],
    ]
}

fn panel_of(c: Check, held: u64) -> PanelCheck
    ensures { result ≡ panel_of c held }
{
    PanelCheck {
        stage: c.stage,
        left: c.at,
        held: held as usize,
        tally: c.tally,
    }
}

// The tenth word is a count, and no more is left or held than a start and its reads leave.
#[tactic(auto, unfolding(crate::specs::computed::Panel::panel_right))]
fn panel_right(held: i64, c: PanelCheck) -> bool
    ensures { result ≡ panel_right true held c }
{
    is_count(held) && c.left <= LONGEST_TEXT && c.held <= SCRATCH
}

// The panel's check at this bench, where the words are one's.
pub fn decode_panel(m: Bench, words: [i64; 10]) -> Option<PanelCheck>
    ensures { result ≡ panel_check_told m words }
{
    let held = words[9];
    let Some(progress) = decode_progress(m, first_nine(words)) else {
        return None;
    };
    let check = panel_of(progress, count(held));
    if !panel_right(held, check) {
        return None;
    }
    Some(check)
}
