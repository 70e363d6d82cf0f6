// Entries and cards stored in a book as bytes, the high byte of a number first. They are functions and not methods of `Lent`, which is a type of
// another crate.
ghost use Rattle.std.specs.Prelude.{◌≡◌, true};
ghost use Rattle.strike.specs.Strikes.{in_range};
ghost use Rattle.book.specs.Layout.{entry_bytes};
ghost use Rattle.text.specs.Writing.{HasRoom, Writes};
ghost use Rattle.writer.specs.Writing.{card_bytes};

use codec::{Dimension, Message};
use strike::Strike;
use text::Lent;

// An entry of the contents: the tune number, the offset of its body, its count of cards.
#[tactic(auto, using(text::proofs::WritingLaws::writing, crate::proofs::Filled::two_is, crate::proofs::Filled::four_is), unfolding(book::specs::Layout::entry_bytes))]
pub(crate) fn push_entry(book: &mut Lent<'_, u8>, number: u16, offset: u32, cards: u16)
    requires { HasRoom book.old (entry_bytes number offset cards) }
    ensures { Writes book.old (entry_bytes number offset cards) book.new }
{
    book.extend_from_slice(&number.to_be_bytes());
    book.extend_from_slice(&offset.to_be_bytes());
    book.extend_from_slice(&cards.to_be_bytes());
}

// The card of a strike: the word of its message for k = 2.
pub(crate) fn push_card(book: &mut Lent<'_, u8>, strike: Strike)
    requires room { HasRoom book.old (card_bytes strike) }
    requires good { in_range strike ≡ true }
    ensures { Writes book.old (card_bytes strike) book.new }
{
    let message = Message {
        k: Dimension { value: 2 },
        numbers: strike.message(),
    };
    for symbol in message.word() {
        book.extend_from_slice(&symbol.to_be_bytes());
    }
}
