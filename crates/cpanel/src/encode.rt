// A panel's check as 10 words, and what a read tells as a number. `specs/Words.antt` says which word is what.
ghost use Rattle.std.specs.Prelude.{[], ◌∷◌, ◌++◌, ◌≡◌};
ghost use Rattle.cpanel.specs.Words.{encode_panel};
ghost use Rattle.cpanel.specs.Read.{told_number};

use encoding::number::word;
use job::Check;
use panel::{PanelCheck, Told};
use progress::progress::encode_progress;

// Those of a check's progress, and one behind them.
fn with_held(w: [i64; 9], held: i64) -> [i64; 10]
    ensures { result ≡ w ++ (held ∷ []) }
{
    [w[0], w[1], w[2], w[3], w[4], w[5], w[6], w[7], w[8], held]
}

pub fn encode_panel(c: PanelCheck) -> [i64; 10]
    ensures { result ≡ encode_panel c }
{
    let stage = c.stage;
    let tally = c.tally;
    let check = Check {
        stage: stage,
        at: c.left,
        tally: tally,
    };
    with_held(encode_progress(check), word(c.held as u64))
}

pub fn told_number(told: Told) -> i64
    ensures { result ≡ told_number told }
{
    match told {
        Told::More => 0,
        Told::Over => 1,
        Told::Short => 2,
    }
}
