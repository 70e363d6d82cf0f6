// The operation: a text tested, and the lists of its tunes.
ghost use Rattle.std.specs.Prelude.{◌≡◌};
ghost use Rattle.text.specs.Writing.{HasRoom, Writes};
ghost use Rattle.tune_text.specs.Reading.{lines_said, numbers_of, strikes_of, counts_of, tunes_of, when_read};

use crate::lines::Line;
use crate::mistakes::{Mistake, find_mistake};
use crate::scanning::Lines;
use refusal::Refusal;
use text::Lent;

// A text of more bytes is not read.
pub const LONGEST: usize = 131072;

// How many tunes there are, and how many numbers their strikes have.
#[derive(Clone, Copy, Debug, PartialEq, Eq)]
pub struct Sizes {
    pub tunes: usize,
    pub strikes: usize,
}

// Why a text is not read: it is too long, a list is too short, or it has a mistake, of which this is the first.
#[derive(Clone, Copy, Debug, PartialEq, Eq)]
pub enum Unread {
    TooLong,
    Refused(Refusal),
    Wrong(Mistake),
}

// What the lines add to each list. A tune's count looks ahead in the lines that are left, so they are taken one by one.
fn fill(
    mut lines: Lines<'_>,
    numbers: &mut Lent<'_, u16>,
    counts: &mut Lent<'_, u16>,
    strikes: &mut Lent<'_, u16>,
)
    requires numbers_room { HasRoom numbers.old (numbers_of (lines_said lines.text.now)) }
    requires counts_room { HasRoom counts.old (counts_of (lines_said lines.text.now)) }
    requires strikes_room { HasRoom strikes.old (strikes_of (lines_said lines.text.now)) }
    ensures numbers_wrote { Writes numbers.old (numbers_of (lines_said lines.entry.text.now)) numbers.new }
    ensures counts_wrote { Writes counts.old (counts_of (lines_said lines.entry.text.now)) counts.new }
    ensures strikes_wrote { Writes strikes.old (strikes_of (lines_said lines.entry.text.now)) strikes.new }
{
    while let Some(line) = lines.next() {
        match line {
            Line::Tune(number) => {
                numbers.push(number);
                counts.push(lines.cards_ahead());
            }
            Line::Strike(strike) => {
                strikes.extend_from_slice(&[strike.bell, strike.force, strike.delay]);
            }
            Line::Nothing | Line::Wrong(_) => {}
        }
    }
}

// The tunes of a text: their numbers, how many cards each has, and the numbers of all strikes, each list from its start. If the text
// is not read, the lists are as they were.
pub fn read_tunes(
    text: &[u8],
    numbers: &mut [u16],
    counts: &mut [u16],
    strikes: &mut [u16],
) -> Result<Sizes, Unread>
    ensures value { result ≡ tunes_of text.now numbers.old counts.old strikes.old }
    ensures numbers_after { numbers.new ≡ when_read result numbers.old (numbers_of (lines_said text.now)) }
    ensures counts_after { counts.new ≡ when_read result counts.old (counts_of (lines_said text.now)) }
    ensures strikes_after { strikes.new ≡ when_read result strikes.old (strikes_of (lines_said text.now)) }
{
    if LONGEST < text.len() {
        return Err(Unread::TooLong);
    }
    if numbers.len().min(counts.len()).min(strikes.len()) < text.len() {
        return Err(Unread::Refused(Refusal::Length));
    }
    let lines = Lines { text };
    if let Some(mistake) = find_mistake(lines) {
        return Err(Unread::Wrong(mistake));
    }
    let mut numbers = Lent::new(numbers);
    let mut counts = Lent::new(counts);
    let mut strikes = Lent::new(strikes);
    fill(lines, &mut numbers, &mut counts, &mut strikes);
    Ok(Sizes {
        tunes: numbers.at,
        strikes: strikes.at,
    })
}
