// A symbol as a signed number, the sum of level times 3^i over its digits, and back.
ghost use Rattle.std.specs.Prelude.{◌≡◌, false, ◌+◌, ◌≤◌, pos, ◌+ℤ◌, ◌*ℤ◌, nat_abs};
ghost use Rattle.refusal.specs.Replies.{reply, reply_with};
ghost use Rattle.levels.specs.Levels.{level, signed_of, outside, symbol_of};
ghost use Rattle.cable.specs.Operations.{signed_reply, signed_refusal, symbol_refusal};

use refusal::Refusal;

// A plus on the cable; a minus is its negative.
const PLUS: i16 = 1;

// The level of a digit: 1 is plus, 2 is minus, 0 a rest.
#[tactic(auto, unfolding(levels::specs::Levels::level))]
fn level(d: u16) -> i16
    ensures { result ≡ level d }
{
    match d {
        1 => PLUS,
        2 => -PLUS,
        _ => 0,
    }
}

// A digit's level times its power of 3, and what the digits above it add up to.
fn add_level(d: u16, power: i16, above: i16) -> i16
    requires { (nat_abs power ≤ 243) × (nat_abs above ≤ 364) }
    ensures { (result ≡ level d *ℤ power +ℤ above) × (nat_abs result ≤ nat_abs power + nat_abs above) }
{
    level(d) * power + above
}

// The signed number of a symbol.
#[tactic(auto, using(std::proofs::lemmas::Int::ints), unfolding(levels::specs::Levels::signed_of, levels::specs::Levels::signed_from, algebra::specs::Field::digits, algebra::specs::Field::digits_of))]
pub(crate) fn signed_of(v: u16) -> i16
    ensures { result ≡ signed_of v }
{
    let v1 = v / 3;
    let v2 = v1 / 3;
    let v3 = v2 / 3;
    let v4 = v3 / 3;
    let v5 = v4 / 3;
    let s5 = add_level(v5 % 3, 243, 0);
    let s4 = add_level(v4 % 3, 81, s5);
    let s3 = add_level(v3 % 3, 27, s4);
    let s2 = add_level(v2 % 3, 9, s3);
    let s1 = add_level(v1 % 3, 3, s2);
    add_level(v % 3, 1, s1)
}

// Whether a number is not -364 to 364.
#[tactic(auto, using(std::proofs::lemmas::Int::ints), unfolding(levels::specs::Levels::outside))]
pub(crate) fn outside(n: i16) -> bool
    ensures { result ≡ outside n }
{
    n < -364 || 364 < n
}

// The symbol of a signed number: with 364 more each digit is its level plus 1, and 728 is 2 at each digit.
#[tactic(auto, using(std::proofs::lemmas::Int::ints, crate::specs::Sizes::raised), unfolding(levels::specs::Levels::symbol_of))]
pub(crate) fn symbol_of(n: i16) -> u16
    requires { outside n ≡ false }
    ensures { result ≡ symbol_of n }
{
    field::sum((n + 364) as u16, 728)
}

// The signed number of a symbol (document 02, P6).
#[tactic(auto, using(std::proofs::lemmas::Int::ints, std::proofs::lemmas::Bool::Decides::nat_tests), unfolding(refusal::specs::Replies::reply_with, crate::specs::Operations::signed_refusal))]
pub fn signed(symbol: u16) -> Result<i16, Refusal>
    ensures { signed_reply result ≡ reply_with (pos 0) (signed_refusal symbol) (signed_of symbol) }
{
    if 728 < symbol {
        return Err(Refusal::Range);
    }
    Ok(signed_of(symbol))
}

// The symbol of a signed number (document 02, P6).
#[tactic(auto, using(std::proofs::lemmas::Int::ints), unfolding(refusal::specs::Replies::reply_with, crate::specs::Operations::symbol_refusal))]
pub fn symbol(number: i16) -> Result<u32, Refusal>
    ensures { reply result ≡ reply_with 0 (symbol_refusal number) (symbol_of number) }
{
    if outside(number) {
        return Err(Refusal::Range);
    }
    Ok(symbol_of(number).into())
}
