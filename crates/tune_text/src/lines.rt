// What a line of the text says.
ghost use Rattle.std.specs.Prelude.{◌≡◌, ◌∷◌};
ghost use Rattle.tune_text.specs.Words.{words};
ghost use Rattle.tune_text.specs.Saying.{tune_said, strike_said, line_of};
ghost use Rattle.tune_text.specs.Lines.{begins_tune};

use crate::words::{Words, number};

// Why a line is a mistake.
#[derive(Clone, Copy, Debug, PartialEq, Eq)]
pub enum Fault {
    // The word `tune`, and then not one number.
    TuneNumber,
    // Neither a tune nor three numbers.
    Unknown,
    // A strike before the first tune.
    Early,
}

// The numbers of a strike.
#[derive(Clone, Copy)]
pub struct Numbers {
    pub bell: u16,
    pub force: u16,
    pub delay: u16,
}

// What a line says.
#[derive(Clone, Copy)]
pub enum Line {
    Nothing,
    Tune(u16),
    Strike(Numbers),
    Wrong(Fault),
}

impl Line {
    // Whether it begins a tune.
    pub(crate) fn begins_tune(self) -> bool
        ensures { result ≡ begins_tune self }
    {
        matches!(self, Line::Tune(_))
    }
}

// What a line says that begins with the word `tune`, by the words that follow.
#[tactic(auto, unfolding(crate::specs::Saying::tune_said))]
fn tune_said(mut rest: Words<'_>) -> Line
    ensures { result ≡ tune_said (words rest.entry.line.now) }
{
    match (rest.next().and_then(number), rest.next()) {
        (Some(number), None) => Line::Tune(number),
        _ => Line::Wrong(Fault::TuneNumber),
    }
}

// What any other line says, by its first word and the words that follow.
#[tactic(auto, unfolding(crate::specs::Saying::strike_said))]
fn strike_said(first: &[u8], mut rest: Words<'_>) -> Line
    ensures { result ≡ strike_said (first.now ∷ words rest.entry.line.now) }
{
    let bell = number(first);
    let force = rest.next().and_then(number);
    let delay = rest.next().and_then(number);
    match (bell, force, delay, rest.next()) {
        (Some(bell), Some(force), Some(delay), None) => Line::Strike(Numbers {
            bell,
            force,
            delay,
        }),
        _ => Line::Wrong(Fault::Unknown),
    }
}

// What a line says. Without words, or with a first word that begins with `#`, it says nothing.
pub(crate) fn line_of(line: &[u8]) -> Line
    ensures { result ≡ line_of line.now }
{
    let mut words = Words { line };
    match words.next() {
        None => Line::Nothing,
        Some(word) if word.starts_with(b"#") => Line::Nothing,
        Some(word) if word == b"tune".as_slice() => tune_said(words),
        Some(word) => strike_said(word, words),
    }
}
