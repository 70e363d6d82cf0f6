// The rank of a card (SPECIFICATION 3): six symbols as a square of digits, reduced to its rank modulo 3 by row elimination.
#![tactic(auto)]

mod elimination;
mod row;
mod square;

ghost use Rattle.std.specs.Prelude.{◌≡◌, [], ◌∷◌, ◌+◌};
ghost use Rattle.refusal.specs.Replies.{reply_with};
ghost use Rattle.rank.specs.Weight.{weight_of, no_weight, weight_reply, weight_refusal};

use elimination::pivots;
use refusal::Refusal;
use square::digit_square;

// What weighing finds. That of zeros is the default.
#[derive(Clone, Copy, Debug, Default, PartialEq, Eq)]
pub struct Weight {
    pub rank: u32,
}

// Six symbols added up, which is 0 for zeros only.
fn total(a: u16, b: u16, c: u16, d: u16, e: u16, f: u16) -> u32
    ensures { result ≡ a + b + c + d + e + f }
{
    (a as u32) + (b as u32) + (c as u32) + (d as u32) + (e as u32) + (f as u32)
}

// The weight of six symbols, handed over one by one: an array would be stored by its entries and loaded as a whole.
fn weight_of_six(a: u16, b: u16, c: u16, d: u16, e: u16, f: u16) -> Weight
    ensures { result ≡ weight_of (a ∷ b ∷ c ∷ d ∷ e ∷ f ∷ []) }
{
    // Zeros, the difference of a card without damage, need no square.
    if total(a, b, c, d, e, f) == 0 {
        return Weight::default();
    }
    Weight {
        rank: pivots(digit_square([a, b, c, d, e, f])) as u32,
    }
}

// The weight of six symbols. A number above 728 stands for its remainder by 729.
pub fn weight_of(symbols: [u16; 6]) -> Weight
    ensures { result ≡ weight_of symbols }
{
    weight_of_six(
        symbols[0], symbols[1], symbols[2], symbols[3], symbols[4], symbols[5],
    )
}

// The weight of a card, or the refusal of a list that is none (document 01: Weigh).
pub fn weigh(symbols: &[u16]) -> Result<Weight, Refusal>
    ensures { weight_reply result ≡ reply_with no_weight (weight_refusal symbols.now) (weight_of symbols.now) }
{
    if symbols.len() != 6 {
        return Err(Refusal::Length);
    }
    if lists::any_above(symbols, 728) {
        return Err(Refusal::Range);
    }
    Ok(weight_of_six(
        symbols[0], symbols[1], symbols[2], symbols[3], symbols[4], symbols[5],
    ))
}
