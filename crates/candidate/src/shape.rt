// Cards without damage: a card is a word exactly if its spectrum has the shape of a word's, and then the message is read off it.
ghost use Rattle.std.specs.Prelude.{◌≡◌, true, suc, ◌-◌, Some};
ghost use Rattle.rank.specs.Definitions.{at};
ghost use Rattle.coding.specs.Code.{word};
ghost use Rattle.coding.specs.Clean.{none_from, shaped};
ghost use Rattle.coding.specs.Decode.{decode};
ghost use Rattle.codec.specs.Messages.{numbers_of};
ghost use Rattle.candidate.specs.Finding.{found_message, Consistent};

use crate::card::{Card, Received};
use crate::found::Found;
use crate::message::read_message;
use codec::{Dimension, Message};
use rank::Weight;

// Whether the spectrum is 0 from number k + 1 on. Without a branch: k is the same for all cards, their spectra are not.
fn none_beyond(k: Dimension, r: [u16; 6]) -> bool
    ensures { result ≡ none_from (5 - k.value) (suc k.value) (at r) }
{
    ((1 < k.value) | (r[2] == 0))
        & ((2 < k.value) | (r[3] == 0))
        & ((3 < k.value) | (r[4] == 0))
        & ((4 < k.value) | (r[5] == 0))
}

// Whether a spectrum is that of a word.
pub fn is_word(k: Dimension, r: [u16; 6]) -> bool
    ensures { result ≡ shaped k.value (at r) }
{
    none_beyond(k, r) && field::high(r[0]) == 0 && field::low(r[k.value]) == 0
}

// What is found in a card that is the word of a message.
pub fn undamaged(card: Card, message: Message) -> Found
    requires { word message.k.value (numbers_of message) ≡ card.symbols }
    ensures { (found_message (Some result) ≡ decode message.k.value card.symbols) × Consistent message.k.value card.symbols (Some result) }
{
    let word = card.symbols;
    Found {
        message,
        word,
        weight: Weight::default(),
    }
}

// The same where the spectrum is that of a word.
pub fn clean(k: Dimension, received: Received) -> Found
    requires { shaped k.value (at received.coefficients) ≡ true }
    ensures { (found_message (Some result) ≡ decode k.value received.card.symbols) × Consistent k.value received.card.symbols (Some result) }
{
    undamaged(received.card, read_message(k, received.coefficients))
}
