// A count as a word of the record, a word as a count, and a refusal as a word.
ghost use Rattle.std.specs.Prelude.{◌≡◌};
ghost use Rattle.encoding.specs.Words.{count_of, word_of, refusal_of};
ghost use Rattle.encoding.specs.computed.Right.{is_count};

// A negative word is no count: 0, which every place that takes a count refuses or writes back otherwise.
pub fn count(word: i64) -> u64
    ensures { result ≡ count_of word }
{
    u64::try_from(word).unwrap_or(0)
}

// A count that no i64 holds stands in no sound record: -1, which is read as no count.
pub fn word(count: u64) -> i64
    ensures { result ≡ word_of count }
{
    i64::try_from(count).unwrap_or(-1)
}

pub fn refusal(question: u64) -> i64
    ensures { result ≡ refusal_of question }
{
    -word(question)
}

// Whether a word tells a count.
pub fn is_count(word: i64) -> bool
    ensures { result ≡ is_count word }
{
    0 <= word
}
