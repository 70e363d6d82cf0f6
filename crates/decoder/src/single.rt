// Errors of rank at most 1 are recognised from their spectrum: each coefficient is the same multiple of the cube of the one before, so two in a
// row give all, and the card's less them is a word's. That is all of decoding for k = 3; for k = 4 the first of the two is known but for the
// message's last number.
ghost use Rattle.std.specs.Prelude.{◌≡◌, ◌≤◌};
ghost use Rattle.algebra.specs.Field.{minus, times, cube};
ghost use Rattle.algebra.specs.Lists.{table};
ghost use Rattle.algebra.specs.Inverses.{inverse};
ghost use Rattle.rank.specs.Definitions.{at};
ghost use Rattle.coding.specs.RankOne.{next_error, chain};
ghost use Rattle.coding.specs.Residual.{residual, if_rank_one};
ghost use Rattle.coding.specs.Decode.{decode};
ghost use Rattle.coding.specs.DecodeSingle.{last_error, attempt_four};
ghost use Rattle.candidate.specs.Finding.{found_message, Consistent};

use candidate::{Found, Received, difference, is_word, near, read_message};
use codec::Dimension;

// What a cube is multiplied by, where v comes after u.
fn ratio(u: u16, v: u16) -> u16
    ensures { result ≡ times v (inverse (cube u)) }
{
    field::cube_product(v, field::inverse(u))
}

// The coefficients of an error whose last is v and the one before it u.
fn chain_of(u: u16, v: u16) -> [u16; 6]
    ensures { result ≡ table 6 (chain u v) }
{
    let q = ratio(u, v);
    let e0 = field::cube_product(q, v);
    let e1 = field::cube_product(q, e0);
    let e2 = field::cube_product(q, e1);
    let e3 = field::cube_product(q, e2);
    let e4 = field::cube_product(q, e3);
    let e5 = field::cube_product(q, e4);
    [e0, e1, e2, e3, e4, e5]
}

// A spectrum less the error of rank at most 1 that has its last coefficient, and u before that.
pub fn residual(r: [u16; 6], u: u16) -> [u16; 6]
    ensures { result ≡ table 6 (residual (at r) u) }
{
    difference(r, chain_of(u, r[5]))
}

// The message near a card whose error has rank at most 1 and u before its last coefficient, if there is one.
pub(crate) fn find_single(k: Dimension, received: Received, u: u16) -> Option<Found>
    requires { k.value ≤ 4 }
    ensures { (found_message result ≡ if_rank_one k.value received.card.symbols u) × Consistent k.value received.card.symbols result }
{
    let f = residual(received.coefficients, u);
    if !is_word(k, f) {
        return None;
    }
    near(received.card.symbols, read_message(k, f))
}

// The error's coefficient before the last, if d is the message's last number.
fn last_error(r: [u16; 6], d: u16) -> u16
    ensures { result ≡ last_error (at r) d }
{
    field::difference(r[4], field::product(3, field::small_symbol(d)))
}

// The message's first coefficient, if u is the error's before the last.
fn first_coefficient(r: [u16; 6], u: u16) -> u16
    ensures { result ≡ minus (at r 0) (next_error u (at r 5) (at r 5)) }
{
    field::difference(r[0], field::cube_product(ratio(u, r[5]), r[5]))
}

// The message near a card with last number d, if there is one. Most numbers fail by the first coefficient.
fn attempt_four(received: Received, d: u16) -> Option<Found>
    ensures { (found_message result ≡ attempt_four received.card.symbols d) × Consistent 4 received.card.symbols result }
{
    let u = last_error(received.coefficients, d);
    if field::high(first_coefficient(received.coefficients, u)) != 0 {
        return None;
    }
    find_single(Dimension { value: 4 }, received, u)
}

// The message near a card for k = 4, if there is one.
pub(crate) fn decode_four(received: Received) -> Option<Found>
    ensures { (found_message result ≡ decode 4 received.card.symbols) × Consistent 4 received.card.symbols result }
{
    for d in 0..27 {
        if let Some(found) = attempt_four(received, d) {
            return Some(found);
        }
    }
    None
}
