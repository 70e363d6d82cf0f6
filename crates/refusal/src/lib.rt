// Why an operation refuses, one variant for each refusal with its number. An operation answers `Result<T, Refusal>`.
#![tactic(auto)]

ghost use Rattle.std.specs.Prelude.{◌≡◌};
ghost use Rattle.refusal.specs.Replies.{number, outcome};

#[derive(Clone, Copy, Debug, PartialEq, Eq)]
pub enum Refusal {
    // 1: k is not 1 to 5.
    Dimension,
    // 2: a list has the wrong length.
    Length,
    // 3: a symbol above 728, a value above 26, a mask above 63, or a signed number not -364 to 364.
    Range,
    // 4: no codeword lies within the radius.
    Undecodable,
    // 5: a book too long, or too short for its contents.
    BookSize,
    // 6: a tune number out of its range, or not above the one before it.
    TuneNumber,
    // 7: a tune without cards, or a body that does not start where the one before it ends.
    Layout,
    // 8: no tune of that number.
    NoSuchTune,
    // 9: no card of that number.
    NoSuchCard,
    // 10: a number of a strike out of its range.
    StrikeField,
    // 11: more dead lines than 6 - k.
    DeadLines,
    // 12: a width of 0, above 64, or above the count of cards.
    Width,
    // 13: a card whose bell is above 47.
    NoSuchBell,
}

// The number of a refusal.
impl From<Refusal> for u32 {
    ghost from_gives = { λ why n. n ≡ number why };

    fn from(why: Refusal) -> u32 {
        match why {
            Refusal::Dimension => 1,
            Refusal::Length => 2,
            Refusal::Range => 3,
            Refusal::Undecodable => 4,
            Refusal::BookSize => 5,
            Refusal::TuneNumber => 6,
            Refusal::Layout => 7,
            Refusal::NoSuchTune => 8,
            Refusal::NoSuchCard => 9,
            Refusal::StrikeField => 10,
            Refusal::DeadLines => 11,
            Refusal::Width => 12,
            Refusal::NoSuchBell => 13,
        }
    }
}

// An outcome as a number: 0 when done, or the refusal's.
pub fn outcome_number(of: Result<(), Refusal>) -> u32
    ensures { result ≡ outcome of }
{
    match of {
        Ok(()) => 0,
        Err(why) => why.into(),
    }
}
