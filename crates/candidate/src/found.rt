// What decoding finds: a message near a card, with its word and the weight of the difference to the card. Where there is none, nothing is found.
ghost use Rattle.std.specs.Prelude.{◌≡◌};
ghost use Rattle.coding.specs.Code.{word as word_of};
ghost use Rattle.codec.specs.Messages.{numbers_of};

use codec::Message;
use rank::Weight;

#[derive(Clone, Copy)]
pub struct Found {
    pub message: Message,
    pub word: [u16; 6],
    pub weight: Weight,
    ghost word_is: { word ≡ word_of message.k.value (numbers_of message) },
}
