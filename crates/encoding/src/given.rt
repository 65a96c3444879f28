// Settings as a caller gives them in words.
ghost use Rattle.std.specs.Prelude.{◌≡◌};
ghost use Rattle.encoding.specs.Words.{settings_of};

use crate::number::count;
use plane::travel::{Range, Travel};
use settings::Settings;

pub fn settings(p: i64, w: i64, xlo: i64, xhi: i64, ylo: i64, yhi: i64) -> Settings
    ensures { result ≡ settings_of p w xlo xhi ylo yhi }
{
    Settings {
        scale: count(p),
        clock: count(w),
        travel: Travel {
            x: Range {
                lower: xlo,
                upper: xhi,
            },
            y: Range {
                lower: ylo,
                upper: yhi,
            },
        },
    }
}
