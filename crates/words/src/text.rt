// The lines of a job text: LF, byte 10, ends a line, and the last may lack it.
ghost use Rattle.std.specs.Prelude.{◌≡◌, ◌+◌, ltb, length, drop};
ghost use Rattle.words.specs.computed.Scan.{first_line};

const LF: u8 = 10;

// Whether a byte of the line stands here.
pub fn in_line(text: &[u8], at: usize) -> bool
    ensures { result ≡ ltb 0 (length (first_line (drop at text.now))) }
{
    at < text.len() && text[at] != LF
}

// Where the line that begins here ends: at its LF, or at the end of the text.
pub fn end_of_line(text: &[u8], from: usize) -> usize
    ensures { result ≡ from + length (first_line (drop from text.now)) }
{
    if text.len() < from {
        return from;
    }
    let rest = &text[from..];
    from + rest.iter().position(|b| *b == LF).unwrap_or(rest.len())
}
