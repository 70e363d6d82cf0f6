// Decoding for k = 1: four of the error's coefficients are the card's, and the other two are solved by them.
ghost use Rattle.std.specs.Prelude.{◌≡◌, [], ◌∷◌};
ghost use Rattle.algebra.specs.SmallField.{low, high};
ghost use Rattle.rank.specs.Definitions.{at};
ghost use Rattle.coding.specs.Window.{determinant};
ghost use Rattle.coding.specs.DecodeOne.{zeroth, first};
ghost use Rattle.coding.specs.Decode.{decode};
ghost use Rattle.codec.specs.Messages.{numbers_of};
ghost use Rattle.candidate.specs.Finding.{found_message, Consistent};

use crate::single::find_single;
use crate::window::{Annihilator, determinant};
use candidate::{Found, Received, near};
use codec::{Dimension, Message};

// The message's two coefficients where the error has rank 2, and its last three coefficients this determinant.
pub fn solved_pair(r: [u16; 6], known: u16) -> [u16; 2]
    requires { known ≡ determinant (at r 3) (at r 4) (at r 5) }
    ensures { result ≡ zeroth (at r) ∷ first (at r) ∷ [] }
{
    let a = Annihilator::new(r[2], r[3], r[4], r[5], known);
    let f0 = a.solve(r[0], r[4], r[5]);
    let e0 = field::difference(r[0], f0);
    let f1 = a.solve(r[1], r[5], e0);
    [f0, f1]
}

// The message with these two coefficients.
pub(crate) fn two_numbers(f0: u16, f1: u16) -> Message
    ensures one { result.k.value ≡ 1 }
    ensures numbers { numbers_of result ≡ low f0 ∷ high f1 ∷ [] }
{
    Message {
        k: Dimension { value: 1 },
        numbers: [field::low(f0), field::high(f1), 0, 0, 0, 0, 0, 0, 0, 0],
    }
}

// The message near a card for k = 1, if there is one.
pub(crate) fn decode_one(received: Received) -> Option<Found>
    ensures { (found_message result ≡ decode 1 received.card.symbols) × Consistent 1 received.card.symbols result }
{
    let r = received.coefficients;
    let known = determinant(r[3], r[4], r[5]);
    if known == 0 {
        return find_single(Dimension { value: 1 }, received, r[4]);
    }
    let f = solved_pair(r, known);
    near(received.card.symbols, two_numbers(f[0], f[1]))
}
