// The letters that words begin with.
ghost use Rattle.std.specs.Prelude.{◌≡◌};
ghost use Rattle.letters.specs.Letter.{takes_sign, takes_point};
ghost use Rattle.letters.specs.computed.Scan.{letter_of};
ghost use Rattle.letters.specs.computed.Found.{index_of};

#[derive(Clone, Copy)]
pub enum Letter {
    N,
    G,
    F,
    X,
    Y,
    I,
    J,
}

impl Letter {
    // The letter of a byte.
    pub fn of_byte(b: u8) -> Option<Letter>
        ensures { result ≡ letter_of b }
    {
        match b {
            b'N' => Some(Letter::N),
            b'G' => Some(Letter::G),
            b'F' => Some(Letter::F),
            b'X' => Some(Letter::X),
            b'Y' => Some(Letter::Y),
            b'I' => Some(Letter::I),
            b'J' => Some(Letter::J),
            _ => None,
        }
    }

    pub fn takes_sign(self) -> bool
        ensures { result ≡ takes_sign self }
    {
        matches!(self, Letter::X | Letter::Y | Letter::I | Letter::J)
    }

    pub fn takes_point(self) -> bool
        ensures { result ≡ takes_point self }
    {
        matches!(
            self,
            Letter::F | Letter::X | Letter::Y | Letter::I | Letter::J
        )
    }

    // The letter's index in whatever has a place for each letter.
    pub fn index(self) -> usize
        ensures { result ≡ index_of self }
    {
        self as usize
    }
}
