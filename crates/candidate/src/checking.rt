// A message checked against the card: the one place where a card with damage is weighed.
ghost use Rattle.std.specs.Prelude.{◌≡◌};
ghost use Rattle.rank.specs.Definitions.{difference};
ghost use Rattle.coding.specs.Decode.{if_near};
ghost use Rattle.codec.specs.Messages.{numbers_of};
ghost use Rattle.candidate.specs.Finding.{found_message, Consistent};

use crate::found::Found;
use codec::Message;

// Six symbols less six others.
pub fn difference(c: [u16; 6], d: [u16; 6]) -> [u16; 6]
    ensures { result ≡ difference c d }
{
    [
        field::difference(c[0], d[0]),
        field::difference(c[1], d[1]),
        field::difference(c[2], d[2]),
        field::difference(c[3], d[3]),
        field::difference(c[4], d[4]),
        field::difference(c[5], d[5]),
    ]
}

// A message with its word, where that is within the radius of the card.
pub fn near(card: [u16; 6], message: Message) -> Option<Found>
    ensures { (found_message result ≡ if_near message.k.value card (numbers_of message)) × Consistent message.k.value card result }
{
    let word = message.word();
    let weight = rank::weight_of(difference(word, card));
    if (6 - message.k.value) / 2 < (weight.rank as usize) {
        return None;
    }
    let found = Found {
        message,
        word,
        weight,
    };
    Some(found)
}
