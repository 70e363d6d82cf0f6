// Decoding (document 01: Mend): a card without damage first, else by its k.
ghost use Rattle.std.specs.Prelude.{◌≡◌, true, false, ◌≤◌, length, IfOk};
ghost use Rattle.rank.specs.Definitions.{at, is_card};
ghost use Rattle.coding.specs.Clean.{shaped};
ghost use Rattle.coding.specs.Decode.{decode};
ghost use Rattle.refusal.specs.Replies.{outcome};
ghost use Rattle.candidate.specs.Finding.{found_message, Consistent};
ghost use Rattle.decoder.specs.Decoding.{decode_tests, Decoded};

use crate::filling::{Filling, fill_found};
use crate::one::{decode_one, two_numbers};
use crate::single::{decode_four, find_single};
use crate::two::decode_two;
use candidate::{Card, Found, Received, clean, is_word, undamaged};
use codec::Dimension;
use rank::Weight;
use refusal::Refusal;

// The message near a card that is no word, if there is one. For k = 5 there is none.
fn decode_damaged(k: Dimension, received: Received) -> Option<Found>
    requires { shaped k.value (at received.coefficients) ≡ false }
    ensures { (found_message result ≡ decode k.value received.card.symbols) × Consistent k.value received.card.symbols result }
{
    match k.value {
        1 => decode_one(received),
        2 => decode_two(received),
        3 => find_single(k, received, received.coefficients[4]),
        4 => decode_four(received),
        _ => None,
    }
}

// The message near a card, if there is one. For k = 1 a word's first symbol shows the message: to encode it again takes less time than a spectrum.
pub fn decode_card(k: Dimension, card: Card) -> Option<Found>
    ensures { (found_message result ≡ decode k.value card.symbols) × Consistent k.value card.symbols result }
{
    if k.value == 1 {
        let message = two_numbers(card.symbols[0], card.symbols[0]);
        if message.word() == card.symbols {
            return Some(undamaged(card, message));
        }
    }
    let received = Received::new(card);
    if is_word(k, received.coefficients) {
        return Some(clean(k, received));
    }
    decode_damaged(k, received)
}

// The tests of a card, and of the room for its word and its message.
pub fn decode_tests(k: u32, card: &[u16], word: usize, message: usize) -> Result<Dimension, Refusal>
    ensures tested { outcome result ≡ decode_tests k card.now word message }
    ensures dimension { IfOk result (λ d. d.value ≡ k) }
{
    let fit = card.len() == 6 && codec::lengths_fit(word, 6, message, 2 * (k as usize));
    codec::test_input(k, fit, card, 728)
}

// Fills the word near a card and its message, and answers the weight of the difference between word and card (document 01: Mend).
pub fn decode(
    k: u32,
    received: &[u16],
    word: &mut [u16],
    message: &mut [u16],
) -> Result<Weight, Refusal>
    ensures { Decoded k received.now word.old message.old result word.new message.new }
{
    let k = decode_tests(k, received, word.len(), message.len())?;
    let near = decode_card(k, Card::of_list(received));
    fill_found(Filling::of(near), word, message)
}
