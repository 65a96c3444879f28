// What a line says of each letter.
ghost use Rattle.std.specs.Prelude.{◌≡◌};
ghost use Rattle.letters.specs.Word.{missing_word};
ghost use Rattle.letters.specs.computed.Scan.{no_words};

// A letter's word. The magnitude is in thousandths for a letter that takes a point (below 10^10), else a plain number (below 10^7).
// A letter that does not stand, or stands twice, has no value: plus 0.
// No enum: `OnPulse` and `path_of` ask the magnitude of any word, also of a missing one, and `Found::word` makes all seven without a jump.
#[derive(Clone, Copy)]
pub struct Word {
    pub stands: bool,
    pub twice: bool,
    pub negative: bool,
    pub magnitude: u64,
}

#[derive(Clone, Copy)]
pub struct Words {
    pub n: Word,
    pub g: Word,
    pub f: Word,
    pub x: Word,
    pub y: Word,
    pub i: Word,
    pub j: Word,
}

// What is said of a letter that does not stand.
fn missing() -> Word
    ensures { result ≡ missing_word }
{
    Word {
        stands: false,
        twice: false,
        negative: false,
        magnitude: 0,
    }
}

// What is said of each letter before any word.
pub fn none() -> Words
    ensures { result ≡ no_words }
{
    let w = missing();
    Words {
        n: w,
        g: w,
        f: w,
        x: w,
        y: w,
        i: w,
        j: w,
    }
}
