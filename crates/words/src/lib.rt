// The words of one line of a job text: a scan of its bytes, right for any bytes and any length.
// `specs/Grammar.antt` and `specs/Meaning.antt` say what the answer has to be; `specs/laws/Reading.antt` proves that the scan gives it.
#![tactic(auto)]

mod digits;
pub mod line;
mod number;
pub mod text;
