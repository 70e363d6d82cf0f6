// Decoding for k = 2: three of the error's coefficients are the card's, and with the one that a message's first number gives they are a window,
// which gives the others for each of the 27 first numbers that a message can have.
ghost use Rattle.std.specs.Prelude.{◌≡◌, ◌<◌};
ghost use Rattle.algebra.specs.Field.{add, minus, times, cube};
ghost use Rattle.rank.specs.Definitions.{at};
ghost use Rattle.coding.specs.Spectrum.{spectrum};
ghost use Rattle.coding.specs.Window.{determinant};
ghost use Rattle.coding.specs.Decode.{decode};
ghost use Rattle.coding.specs.DecodeTwo.{attempt};
ghost use Rattle.candidate.specs.Finding.{found_message, Consistent};
ghost use Rattle.decoder.specs.Doubles.{value_at, Prepared};

use crate::single::find_single;
use crate::window::{Annihilator, determinant, ninth_product, numerator};
use candidate::{Found, Received, near};
use codec::{Dimension, Message};

const MINUS_ONE: u16 = 2;

// 1 / gamma^9
const INVERSE_GAMMA_9: u16 = 684;

// A number that depends on the message's first symbol: constant + factor * symbol.
#[derive(Clone, Copy)]
pub struct Affine {
    pub constant: u16,
    pub factor: u16,
}

impl Affine {
    pub fn at(self, x: u16) -> u16
        ensures { result ≡ value_at self x }
    {
        field::sum(self.constant, field::product(self.factor, x))
    }
}

// What all proposals share: three of the card's coefficients; the determinant, the numerator of the annihilator's middle coefficient and that of
// the last symbol's ninth power; and 1 / the determinant before.
#[derive(Clone, Copy)]
pub struct Shared {
    pub zeroth: u16,
    pub first: u16,
    pub fifth: u16,
    pub determinant: Affine,
    pub numerator: Affine,
    pub ninth: Affine,
    pub inverse: u16,
}

// The numerator of the last symbol's ninth power, from a window's determinant d and numerator n, and the determinant known before it.
fn ninth_numerator(r: [u16; 6], d: u16, n: u16, known: u16) -> u16
    ensures { result ≡ times 684 (add (times (cube (cube (at r 2))) d) (add (times n (cube (at r 3))) (times (cube known) (at r 4)))) }
{
    let t = field::sum(
        field::cube_product(n, r[3]),
        field::cube_product(r[4], known),
    );
    let u = field::sum(ninth_product(d, r[2]), t);
    field::product(INVERSE_GAMMA_9, u)
}

// The constants are those of a message whose first symbol is 0.
fn prepare(r: [u16; 6], known: u16) -> Shared
    requires { known ≡ determinant (at r 3) (at r 4) (at r 5) }
    ensures { Prepared (at r) result }
{
    let r0 = r[0];
    let r3 = r[3];
    let r4 = r[4];
    let r5 = r[5];
    let before = determinant(r[2], r3, r4);
    let d = determinant(r4, r5, r0);
    let n = numerator(r3, r4, r5, r0);
    Shared {
        zeroth: r0,
        first: r[1],
        fifth: r5,
        determinant: Affine {
            constant: d,
            factor: field::cube_product(MINUS_ONE, r4),
        },
        numerator: Affine {
            constant: n,
            factor: ninth_product(1, r3),
        },
        ninth: Affine {
            constant: ninth_numerator(r, d, n, known),
            factor: field::difference(0, field::cube_product(INVERSE_GAMMA_9, before)),
        },
        inverse: field::inverse(known),
    }
}

// The message's coefficient in between, from its first symbol x and the determinant.
fn inner_coefficient(s: Shared, x: u16, known: u16) -> u16
    ensures { result ≡ add s.first (times (cube s.inverse) (add (times (cube (cube s.fifth)) known) (times (value_at s.numerator x) (cube (minus s.zeroth x))))) }
{
    let a = Annihilator {
        inverse: s.inverse,
        numerator: s.numerator.at(x),
        determinant: known,
    };
    let e = field::difference(s.zeroth, x);
    a.solve(s.first, s.fifth, e)
}

// The message proposed for a first number, where its last symbol is small and it is near the card.
fn attempt(card: [u16; 6], s: Shared, a: u16) -> Option<Found>
    requires { (a < 27) × Prepared (spectrum card) s }
    ensures { (found_message result ≡ attempt card a) × Consistent 2 card result }
{
    let x = field::small_symbol(a);
    let d = s.determinant.at(x);
    let v = field::quotient(s.ninth.at(x), d);
    if field::high(v) != 0 {
        return None;
    }
    let f = inner_coefficient(s, x, d);
    let second = field::low(f);
    let third = field::high(f);
    let fourth = field::low(field::cube(v));
    let numbers = [a, second, third, fourth, 0, 0, 0, 0, 0, 0];
    let message = Message {
        k: Dimension { value: 2 },
        numbers,
    };
    near(card, message)
}

// The message near a card for k = 2, if there is one.
pub(crate) fn decode_two(received: Received) -> Option<Found>
    ensures { (found_message result ≡ decode 2 received.card.symbols) × Consistent 2 received.card.symbols result }
{
    let r = received.coefficients;
    let card = received.card.symbols;
    let known = determinant(r[3], r[4], r[5]);
    if known == 0 {
        return find_single(Dimension { value: 2 }, received, r[4]);
    }
    let s = prepare(r, known);
    for a in 0..27 {
        if let Some(found) = attempt(card, s, a) {
            return Some(found);
        }
    }
    None
}
