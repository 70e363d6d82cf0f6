// The operation: what comes of a text.
ghost use Rattle.std.specs.Prelude.{◌≡◌};
ghost use Rattle.pressing.specs.Pressing.{lengths_short, Presses};

use crate::from_lists::{LONGEST_LINE, Lengths, press_lists};
use refusal::Refusal;
use text::Lent;

// Whether one of the lists lent is too short, by their lengths.
#[tactic(auto, unfolding(crate::specs::Pressing::lengths_short))]
fn lengths_short(numbers: usize, counts: usize, strikes: usize, book: usize, line: usize) -> bool
    ensures { result ≡ lengths_short numbers counts strikes book line }
{
    numbers < tune_text::LONGEST
        || counts < tune_text::LONGEST
        || strikes < tune_text::LONGEST
        || book < book::LONGEST
        || line < LONGEST_LINE
}

// What comes of a text: the book and the line, each from the start of its list, and the lists of its tunes; or refusal 2, before the text is
// looked at, if a list is too short. Of the lengths of book and line one is 0. The lists are parameters of their own, as callers know them: no
// other function takes them together.
pub fn press(
    text: &[u8],
    numbers: &mut [u16],
    counts: &mut [u16],
    strikes: &mut [u16],
    book: &mut [u8],
    line: &mut [u8],
) -> Result<Lengths, Refusal>
    ensures { Presses text.now numbers.old counts.old strikes.old book.old line.old result numbers.new counts.new strikes.new book.new line.new }
{
    if lengths_short(
        numbers.len(),
        counts.len(),
        strikes.len(),
        book.len(),
        line.len(),
    ) {
        return Err(Refusal::Length);
    }
    let mut said = Lent::new(line);
    match tune_text::read_tunes(text, numbers, counts, strikes) {
        Ok(sizes) => {
            let book_end = press_lists(
                &numbers[..sizes.tunes],
                &counts[..sizes.tunes],
                &strikes[..sizes.strikes],
                book,
                &mut said,
            );
            Ok(Lengths {
                book: book_end,
                line: said.at,
            })
        }
        // A mistake, or too long a text: the lists are as long as the longest text.
        Err(unread) => {
            unread.write(&mut said);
            Ok(Lengths {
                book: 0,
                line: said.at,
            })
        }
    }
}
