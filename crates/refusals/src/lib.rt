// Why a call is refused. The papers give the numbers; from 19 on they are ours. An operation gives the first that applies.
#![tactic(auto)]

ghost use Rattle.std.specs.Prelude.{◌≡◌};
ghost use Rattle.refusals.specs.Refusals.{number};

// What a C caller gets of a call that is not refused.
pub const ACCEPTED: u32 = 0;

// Each variant has its number.
#[derive(Clone, Copy, Debug, PartialEq, Eq, Hash)]
pub enum Refusal {
    // A header's number or a width is outside its bounds, or more pending words are in use than the pending store has.
    OutOfBounds = 1,
    // A lent store, or an output, is shorter than needed.
    TooShort = 2,
    // Not as many cells as the table has columns, or key columns.
    WrongWidth = 3,
    // A range that starts above its end, or a list that does not rise strictly or has more than 65,536 ids.
    MalformedSubset = 4,
    // A row number, a subset's end or a start place past what there is.
    PastTheRows = 5,
    // A column that does not exist, or is not a key column where one is asked for, or a condition of an unknown kind.
    NoSuchColumn = 6,
    // The pending store has no room for the record, or for all records of a refresh.
    PendingFull = 7,
    // The stamp of a refresh is below the largest sort value appended.
    OldSortValue = 9,
    // The generation is 4294967295 and cannot rise.
    LastGeneration = 10,
    // A text that is no listing of the form named.
    NoListing = 11,
    // More than eight columns are named.
    TooManyColumns = 12,
    // A number of cells that is not a multiple of the width.
    BrokenRow = 13,
    // A number of pairs outside 1 to 16.
    PairCount = 14,
    // A sequence of more than six steps, or a step that does not exist.
    UnknownSequence = 15,
    // A position past that of the last sequence.
    PastTheLast = 16,
    // A listing in which a number below the count has no row.
    MissingRow = 17,
    // A noted version of another generation, or of more rows than there are.
    OldNote = 18,
    // Words, or bytes, that are no image.
    NoImage = 19,
    // An image of a table that is not sound.
    UnsoundImage = 20,
    // A text of more than 4,096 bytes.
    TextTooLong = 21,
}

impl From<Refusal> for u32 {
    ghost from_gives = { λ refusal result. result ≡ number refusal };

    fn from(refusal: Refusal) -> u32 {
        refusal as u32
    }
}
