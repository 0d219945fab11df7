// The kinds of lines: one for each letter, and how many numbers a line of the kind has.
ghost use Rattle.std.specs.Prelude.{◌≡◌};
ghost use Rattle.levels_text.specs.Lines.{is_form};
ghost use Rattle.levels_text.specs.Kinds.{letter_of, Decodes};

#[derive(Clone, Copy, Debug, PartialEq, Eq)]
pub enum Kind {
    Open,
    Insert,
    RemoveKey,
    RemoveRow,
    Merge,
    Clear,
    Compact,
    Range,
    Version,
    List,
    ListNumbered,
}

// A letter that no kind of line has.
#[derive(Clone, Copy, Debug, PartialEq, Eq)]
pub struct UnknownLetter(pub u8);

impl TryFrom<u8> for Kind {
    type Error = UnknownLetter;

    ghost try_from_gives = { Decodes };

    fn try_from(letter: u8) -> Result<Self, UnknownLetter> {
        match letter {
            b'O' => Ok(Kind::Open),
            b'I' => Ok(Kind::Insert),
            b'R' => Ok(Kind::RemoveKey),
            b'K' => Ok(Kind::RemoveRow),
            b'M' => Ok(Kind::Merge),
            b'C' => Ok(Kind::Clear),
            b'G' => Ok(Kind::Compact),
            b'F' => Ok(Kind::Range),
            b'V' => Ok(Kind::Version),
            b'L' => Ok(Kind::List),
            b'U' => Ok(Kind::ListNumbered),
            _ => Err(UnknownLetter(letter)),
        }
    }
}

impl Kind {
    // True if a line of this kind has `count` numbers.
    #[tactic(auto, unfolding(crate::specs::Lines::is_form, lists::specs::Lists::elem))]
    pub fn takes(self, count: usize) -> bool
        ensures { result ≡ is_form (letter_of self) count }
    {
        match self {
            Kind::Open => count == 6,
            Kind::Insert | Kind::RemoveKey => 1 <= count,
            Kind::RemoveRow => 2 <= count,
            Kind::Range => count == 3,
            Kind::Merge
            | Kind::Clear
            | Kind::Compact
            | Kind::Version
            | Kind::List
            | Kind::ListNumbered => count == 0,
        }
    }
}
