// A book filled from its start to its end: the contents, then the cards.
ghost use Rattle.std.specs.Prelude.{◌≡◌};
ghost use Rattle.strike.specs.Turns.{strikes as strikes_of};
ghost use Rattle.text.specs.Writing.{HasRoom, Writes};
ghost use Rattle.writer.specs.Writing.{contents_bytes, cards_bytes};

use crate::bytes::{push_card, push_entry};
use crate::tests::Lists;
use strike::Strike;
use text::Lent;

impl Lists<'_> {
    // The contents: how many tunes there are, then their entries. The first body begins where the contents ends.
    #[tactic(auto, unfolding(crate::specs::Writing::book_length))]
    pub(crate) fn write_contents(&self, book: &mut Lent<'_, u8>)
        requires { HasRoom book.old (contents_bytes self.now.numbers.now self.now.counts.now) }
        ensures { Writes book.old (contents_bytes self.now.numbers.now self.now.counts.now) book.new }
    {
        book.extend_from_slice(&(self.numbers.len() as u16).to_be_bytes());
        let mut start = 2 + 8 * self.numbers.len() as u32;
        for (number, cards) in self.numbers.iter().zip(self.counts) {
            push_entry(book, *number, start, *cards);
            start += 12 * u32::from(*cards);
        }
    }

    // The cards of all strikes.
    pub(crate) fn write_cards(&self, book: &mut Lent<'_, u8>)
        requires { HasRoom book.old (cards_bytes (strikes_of self.now.strikes.now)) }
        ensures { Writes book.old (cards_bytes (strikes_of self.now.strikes.now)) book.new }
    {
        for numbers in self.strikes.chunks_exact(3) {
            let strike = Strike {
                bell: u32::from(numbers[0]),
                force: u32::from(numbers[1]),
                delay: u32::from(numbers[2]),
            };
            push_card(book, strike);
        }
    }
}
