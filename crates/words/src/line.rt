// The scan of a line: blanks are skipped, and a letter with its number is a word, which goes to its letter's place. One pass finds the
// words and the line's end.
ghost use Rattle.std.specs.Prelude.{◌≡◌, true, ◌+◌, length, drop};
ghost use Rattle.letters.specs.computed.Found.{words_in};
ghost use Rattle.letters.specs.computed.Put.{Gathered};
ghost use Rattle.words.specs.Meaning.{answer_of, not_words};
ghost use Rattle.words.specs.computed.Meaning.{meaning_of};
ghost use Rattle.words.specs.computed.Scan.{first_line};

use crate::number;
use crate::text::{end_of_line, in_line};
use letters::found::Found;
use letters::letter::Letter;
use letters::word::Words;
use letters::{found, word};

// The answer about a line. Where it is not formed, the rest is as of an empty line.
// No `Option<Words>`: `word_questions` and `LinesMean` of crate demands put questions and G and F to the words of any line, formed or not.
#[derive(Clone, Copy)]
pub struct Line {
    // Question 32: "Is it made of zero or more words ..?"
    pub formed: bool,
    // Question 33: "No letter twice?"
    pub once: bool,
    pub words: Words,
}

// The answer about the first line of a text, and how many bytes that has without its LF.
#[derive(Drop)]
pub struct First {
    pub line: Line,
    pub bytes: usize,
}

fn not_words() -> Line
    ensures { result ≡ not_words }
{
    Line {
        formed: false,
        once: true,
        words: word::none(),
    }
}

fn formed(found: Found, magnitudes: &[u64]) -> Line
    requires { Gathered found magnitudes.now }
    ensures { result ≡ answer_of true (words_in found magnitudes.now) }
{
    Line {
        formed: true,
        once: found.once(),
        words: found.words(magnitudes),
    }
}

// No line of words, seen before its end: that is still to be found.
fn refused(s: &[u8], from: usize) -> First
    ensures line_value { result.line ≡ not_words }
    ensures bytes_value { result.bytes ≡ from + length (first_line (drop from s.now)) }
{
    First {
        line: not_words(),
        bytes: end_of_line(s, from),
    }
}

// The words of a text's first line: any bytes, of any length.
pub fn read_first(s: &[u8]) -> First
    ensures line_value { result.line ≡ meaning_of (first_line s.now) }
    ensures bytes_value { result.bytes ≡ length (first_line s.now) }
{
    let mut found = found::nothing();
    let mut magnitudes = [0u64; 7];
    // A word takes several bytes at once, so no `for` goes over them.
    let mut i = 0;
    while in_line(s, i) {
        let b = s[i];
        i += 1;
        if b != b' ' {
            let Some(l) = Letter::of_byte(b) else {
                return refused(s, i);
            };
            let Some(n) = number::read(&s[i..], l) else {
                return refused(s, i);
            };
            i += n.bytes;
            magnitudes[l.index()] = found.magnitude(l, n.magnitude);
            found = found.add(l, n.negative);
        }
    }
    First {
        line: formed(found, &magnitudes),
        bytes: i,
    }
}
