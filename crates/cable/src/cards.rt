// A card as six signed numbers, and back. A list is filled only after the last test.
ghost use Rattle.std.specs.Prelude.{◌≡◌, false, not, map, length};
ghost use Rattle.algebra.specs.Tests.{any};
ghost use Rattle.refusal.specs.Replies.{outcome, Gives};
ghost use Rattle.codec.specs.Operations.{tests};
ghost use Rattle.levels.specs.Levels.{signed_of, outside, symbol_of};
ghost use Rattle.cable.specs.Operations.{levels_refusal, symbols_refusal};

use crate::numbers::{outside, signed_of, symbol_of};
use refusal::Refusal;

// Whether a number of the list is not -364 to 364.
fn any_outside(numbers: &[i16]) -> bool
    ensures { result ≡ any outside numbers.now }
{
    numbers.iter().any(|&number| outside(number))
}

// 2 if the lists do not fit; 3 if a number is not -364 to 364. `codec::test_list` is the same of symbols: one function over a test that is passed
// would be longer than both.
#[tactic(auto, unfolding(codec::specs::Operations::tests))]
fn test_numbers(fit: bool, numbers: &[i16]) -> Result<(), Refusal>
    ensures { outcome result ≡ tests false (not fit) (any outside numbers.now) }
{
    if !fit {
        return Err(Refusal::Length);
    }
    if any_outside(numbers) {
        return Err(Refusal::Range);
    }
    Ok(())
}

// The signed numbers of the symbols of a card.
fn levels_of(card: &[u16]) -> [i16; 6]
    requires { length card.now ≡ 6 }
    ensures { result ≡ map signed_of card.now }
{
    std::array::from_fn(|i| signed_of(card[i]))
}

// The symbols of six signed numbers.
fn symbols_of(numbers: &[i16]) -> [u16; 6]
    requires { (length numbers.now ≡ 6) × (any outside numbers.now ≡ false) }
    ensures { result ≡ map symbol_of numbers.now }
{
    std::array::from_fn(|i| symbol_of(numbers[i]))
}

// Fills the levels of a card, as six signed numbers (document 02, P6).
#[tactic(auto, using(crate::specs::Steps::levels_passed, refusal::specs::Replies::gives_done), unfolding(crate::specs::Operations::levels_refusal))]
pub fn levels(card: &[u16], numbers: &mut [i16]) -> Result<(), Refusal>
    ensures { Gives (levels_refusal card.now (length numbers.old)) (map signed_of card.now) numbers.old (outcome result) numbers.new }
{
    let fit = codec::lengths_fit(card.len(), 6, numbers.len(), 6);
    codec::test_list(fit, card, 728)?;
    numbers.copy_from_slice(&levels_of(card));
    Ok(())
}

// Fills the card of six signed numbers (document 02, P6).
#[tactic(auto, using(crate::specs::Steps::symbols_passed, refusal::specs::Replies::gives_done), unfolding(crate::specs::Operations::symbols_refusal))]
pub fn symbols(numbers: &[i16], card: &mut [u16]) -> Result<(), Refusal>
    ensures { Gives (symbols_refusal numbers.now (length card.old)) (map symbol_of numbers.now) card.old (outcome result) card.new }
{
    let fit = codec::lengths_fit(numbers.len(), 6, card.len(), 6);
    test_numbers(fit, numbers)?;
    card.copy_from_slice(&symbols_of(numbers));
    Ok(())
}
