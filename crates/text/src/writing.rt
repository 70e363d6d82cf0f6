// Numbers and lines written into a lent list. This is no `Display`: a write through `fmt` may fail, so each caller would have to show of each
// write that it did not, where here room is asked for once and no write fails.
ghost use Rattle.text.specs.Text.{decimal, spaced, word_line, book_refused};
ghost use Rattle.text.specs.Writing.{HasRoom, Writes};

use crate::lent::Lent;

impl Lent<'_, u8> {
    // A number in decimal, with the fewest digits.
    #[tactic(auto, using(crate::proofs::WritingLaws::writing_digits))]
    pub fn push_decimal(&mut self, n: u32)
        requires { HasRoom self.old (decimal n) }
        ensures { Writes self.old (decimal n) self.new }
    {
        if n < 10 {
            return self.push(48 + n as u8);
        }
        self.push_decimal(n / 10);
        self.push(48 + (n % 10) as u8);
    }

    // A number after a space.
    #[tactic(auto, unfolding(crate::specs::Text::spaced))]
    pub fn push_spaced(&mut self, n: u32)
        requires { HasRoom self.old (spaced n) }
        ensures { Writes self.old (spaced n) self.new }
    {
        self.push(b' ');
        self.push_decimal(n);
    }

    // A line of a word and a number.
    #[tactic(auto, using(crate::proofs::WritingLaws::writing), unfolding(crate::specs::Text::word_line))]
    pub fn push_word_line(&mut self, word: &[u8], n: u32)
        requires { HasRoom self.old (word_line word.now n) }
        ensures { Writes self.old (word_line word.now n) self.new }
    {
        self.extend_from_slice(word);
        self.push_spaced(n);
        self.push(b'\n');
    }

    // The one line of a book that is refused.
    #[tactic(auto, unfolding(crate::specs::Text::book_refused))]
    pub fn push_book_refused(&mut self, refusal: u32)
        requires { HasRoom self.old (book_refused refusal) }
        ensures { Writes self.old (book_refused refusal) self.new }
    {
        self.push_word_line(b"book refused", refusal);
    }
}
