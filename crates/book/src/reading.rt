// Read: a card of a body, read as a strike.
ghost use Rattle.std.specs.Prelude.{◌≡◌, true, ◌≤◌, length, IfOk};
ghost use Rattle.refusal.specs.Replies.{outcome};
ghost use Rattle.book.specs.Layout.{body_good, symbols_from};
ghost use Rattle.book.specs.Reading.{read_reply, card_refusal, card_reading, cards_in, reading};
ghost use Rattle.book.specs.Bodies.{body_refusal};

use crate::fields::two_bytes;
use candidate::Card;
use codec::Dimension;
use rank::Weight;
use refusal::Refusal;
use std::array;
use strike::Strike;

// What a card is read as: a strike with its damage, the weight of the difference between the card and its word.
#[derive(Clone, Copy, Debug, PartialEq, Eq)]
pub struct Reading {
    pub strike: Strike,
    pub damage: Weight,
}

// A body: a card for every twelve bytes.
#[derive(Clone, Copy)]
pub struct Body<'a> {
    pub bytes: &'a [u8],
    pub ghost good: { body_good bytes.now ≡ true },
}

// The six symbols of twelve bytes.
fn symbols(bytes: &[u8]) -> [u16; 6]
    requires { length bytes.now ≡ 12 }
    ensures { result ≡ symbols_from 6 bytes.now }
{
    array::from_fn(|i| two_bytes(bytes, 2 * i))
}

// Six symbols, read: 3 and 4 of Decode for k = 2, 13 for the bell, or their strike.
fn read_symbols(symbols: [u16; 6]) -> Result<Reading, Refusal>
    ensures { read_reply result ≡ card_reading (card_refusal symbols) symbols }
{
    if lists::any_above(&symbols, 728) {
        return Err(Refusal::Range);
    }
    let k = Dimension { value: 2 };
    let card = Card { symbols };
    let Some(near) = decoder::decode_card(k, card) else {
        return Err(Refusal::Undecodable);
    };
    let strike = Strike::from_message(near.message.numbers);
    if strike.has_no_bell() {
        return Err(Refusal::NoSuchBell);
    }
    Ok(Reading {
        strike,
        damage: near.weight,
    })
}

impl<'a> Body<'a> {
    // The bytes as a body, or refusal 2.
    #[tactic(auto, unfolding(crate::specs::Bodies::body_refusal, crate::specs::Layout::body_good))]
    pub fn new(bytes: &'a [u8]) -> Result<Body<'a>, Refusal>
        ensures refusal { outcome result ≡ body_refusal bytes.now }
        ensures same { IfOk result (λ body. body.bytes.now ≡ bytes.now) }
    {
        if 65532 < bytes.len() || bytes.len() % 12 != 0 {
            return Err(Refusal::Length);
        }
        Ok(Body { bytes })
    }

    // How many cards it has.
    #[tactic(auto, using(crate::specs::Bounds::good_length))]
    pub fn count(&self) -> u32
        ensures { result ≡ cards_in self.now.bytes.now }
    {
        (self.bytes.len() / 12) as u32
    }

    // A card, counted from 1, as twelve bytes from within the body: a strike with its damage, or refusal 3, 4 or 13.
    pub fn card(&self, n: u32) -> Result<Reading, Refusal>
        requires { (1 ≤ n) × (n ≤ cards_in self.now.bytes.now) }
        ensures { read_reply result ≡ reading self.now.bytes.now n }
    {
        let n = n as usize;
        read_symbols(symbols(&self.bytes[12 * (n - 1)..12 * n]))
    }
}

// A card of a body, counted from 1: a strike with its damage, or a refusal: 2, then 9, then 3, 4 and 13 (document 01: Read).
#[tactic(auto, using(crate::specs::CardReading::read_past, crate::specs::CardReading::read_bad, crate::specs::Bodies::body_refused), unfolding(crate::specs::Reading::no_card))]
pub fn read_card(body: &[u8], number: u32) -> Result<Reading, Refusal>
    ensures { read_reply result ≡ reading body.now number }
{
    let body = Body::new(body)?;
    if number == 0 || body.count() < number {
        return Err(Refusal::NoSuchCard);
    }
    body.card(number)
}
