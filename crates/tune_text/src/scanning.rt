// The lines of a text one by one, and how many strikes follow a tune's line.
ghost use Rattle.std.specs.Prelude.{◌≡◌, ◌≤◌, length};
ghost use Rattle.std.specs.Iterator.{YieldsFirst, item_count};
ghost use Rattle.tune_text.specs.Words.{new_line};
ghost use Rattle.tune_text.specs.Pieces.{ends_at};
ghost use Rattle.tune_text.specs.Reading.{lines_said, cards_ahead, longest_text};

use crate::lines::{Line, line_of};

// A text whose lines are taken one by one.
#[derive(Clone, Copy)]
pub(crate) struct Lines<'a> {
    pub text: &'a [u8],
    ghost short: { length text.now ≤ longest_text },
}

impl Iterator for Lines<'_> {
    type Item = Line;

    ghost next_gives = { YieldsFirst (λ s. lines_said s.text.now) };

    ghost remaining = { item_count (λ s. lines_said s.text.now) };

    fn next(&mut self) -> Option<Line> {
        if self.text.is_empty() {
            return None;
        }
        let text = self.text;
        let end = line_end(text);
        self.text = &text[text.len().min(end + 1)..];
        Some(line_of(&text[..end]))
    }
}

// Where the first line ends.
fn line_end(text: &[u8]) -> usize
    ensures { result ≡ ends_at new_line text.now }
{
    text.iter()
        .position(|byte| *byte == b'\n')
        .unwrap_or(text.len())
}

impl Lines<'_> {
    // How many strikes there are before the next tune. It stops at that tune, so all calls together read each line once more.
    pub(crate) fn cards_ahead(self) -> u16
        ensures { result ≡ cards_ahead (lines_said self.entry.text.now) }
    {
        let mut cards = 0;
        for line in self {
            match line {
                Line::Tune(_) => break,
                Line::Strike(_) => cards += 1,
                Line::Nothing | Line::Wrong(_) => {}
            }
        }
        cards
    }
}
