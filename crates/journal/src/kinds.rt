// The kinds of a journal's entries.
ghost use Rattle.std.specs.Prelude.{◌≡◌};
ghost use Rattle.journal.specs.Kinds.{kind_in, kind_number};

// What an entry's first word says.
#[derive(Clone, Copy, PartialEq, Eq)]
pub enum Kind {
    Reversal = 0,
    Rotation = 1,
    Swap = 2,
}

impl Kind {
    // The word that stands for it.
    pub fn word(self) -> u32
        ensures { result ≡ kind_number self }
    {
        self as u32
    }

    // The kind that a word stands for: any other is read as a swap.
    pub fn of(word: u32) -> Self
        ensures { result ≡ kind_in word }
    {
        match word {
            0 => Kind::Reversal,
            1 => Kind::Rotation,
            _ => Kind::Swap,
        }
    }
}
