// The words of a line while it is scanned: sets of letters, with a bit for each, and beside them an array of magnitudes. So one word more
// takes a few operations, and no record of all the words is copied for it.
ghost use Rattle.std.specs.Prelude.{◌≡◌, cond, ◌^◌, eqb, get_or};
ghost use Rattle.letters.specs.computed.Found.{index_of, has_of, nothing_found, add_of, magnitude_after, word_in, words_in};

use crate::letter::Letter;
use crate::word::{Word, Words};

// Sets of letters: the bit of a letter is 2 to the power of its index.
#[derive(Clone, Copy)]
pub struct Found {
    // The letters that stand.
    pub stands: u64,
    // Of these, the letters that stand more than once.
    pub twice: u64,
    // Of the others, the letters whose number is negative.
    pub negative: u64,
}

// The set of all seven.
const ALL: u64 = 127;

fn bit(l: Letter) -> u64
    ensures { result ≡ 2 ^ index_of l }
{
    1 << l.index()
}

fn has(set: u64, l: Letter) -> bool
    ensures { result ≡ has_of set l }
{
    (set >> l.index()) % 2 == 1
}

// What stands at a place, and 0 past the end.
fn entry(numbers: &[u64], at: usize) -> u64
    ensures { result ≡ get_or numbers.now at 0 }
{
    numbers.get(at).copied().unwrap_or(0)
}

// Before the first word of a line.
pub fn nothing() -> Found
    ensures { result ≡ nothing_found }
{
    Found {
        stands: 0,
        twice: 0,
        negative: 0,
    }
}

impl Found {
    // One word more. A letter that stands twice has no value, so then it loses its sign.
    pub fn add(self, l: Letter, negative: bool) -> Found
        ensures { result ≡ add_of self l negative }
    {
        let one = bit(l);
        if has(self.stands, l) {
            return Found {
                twice: self.twice | one,
                negative: self.negative & (ALL - one),
                ..self
            };
        }
        let minus = if negative { one } else { 0 };
        Found {
            stands: self.stands | one,
            negative: self.negative | minus,
            ..self
        }
    }

    // The letter's magnitude after one word more, asked before that is added: a letter that stands twice has none.
    pub fn magnitude(self, l: Letter, magnitude: u64) -> u64
        ensures { result ≡ magnitude_after self l magnitude }
    {
        if has(self.stands, l) { 0 } else { magnitude }
    }

    fn word(self, l: Letter, magnitudes: &[u64]) -> Word
        ensures { result ≡ word_in self magnitudes.now l }
    {
        Word {
            stands: has(self.stands, l),
            twice: has(self.twice, l),
            negative: has(self.negative, l),
            magnitude: entry(magnitudes, l.index()),
        }
    }

    pub fn words(self, magnitudes: &[u64]) -> Words
        ensures { result ≡ words_in self magnitudes.now }
    {
        Words {
            n: self.word(Letter::N, magnitudes),
            g: self.word(Letter::G, magnitudes),
            f: self.word(Letter::F, magnitudes),
            x: self.word(Letter::X, magnitudes),
            y: self.word(Letter::Y, magnitudes),
            i: self.word(Letter::I, magnitudes),
            j: self.word(Letter::J, magnitudes),
        }
    }

    // Question 33: "No letter twice?"
    pub fn once(self) -> bool
        ensures { result ≡ eqb self.twice 0 }
    {
        self.twice == 0
    }
}
