// The reader of a job text: what one line asks of the machine.
#![tactic(auto)]

ghost use Rattle.std.specs.Prelude.{◌≡◌};
ghost use Rattle.reader.specs.Reader.{unknown};

pub mod asked;
mod command;
mod questions;
pub mod text_line;

use circle::plane::Turn;
pub use command::motion_of;

// Bytes; question 30, which whoever reads a whole text asks.
pub const LONGEST_TEXT: usize = 65_536;

// Bytes without the LF; question 31.
pub const LONGEST_LINE: u64 = 80;

// What a G says.
#[derive(Clone, Copy)]
pub enum Motion {
    Line,
    Arc(Turn),
}

// What an F says: millimetres per minute, and thousandths of one.
#[derive(Clone, Copy)]
pub struct Feed {
    pub millimetres: u32,
    pub thousandths: u32,
}

// The G and the F that are known.
#[derive(Clone, Copy)]
pub struct Reader {
    pub motion: Option<Motion>,
    pub feed: Option<Feed>,
}

impl Reader {
    // Before the first line of a job: no G and no F is known.
    pub fn start() -> Reader
        ensures { result ≡ unknown }
    {
        Reader {
            motion: None,
            feed: None,
        }
    }
}
