// The message read off the coefficients of a word's polynomial: the low number of the first, both of those in between, the high one of the
// last.
ghost use Rattle.std.specs.Prelude.{◌≡◌, suc};
ghost use Rattle.algebra.specs.Lists.{table};
ghost use Rattle.rank.specs.Definitions.{at};
ghost use Rattle.coding.specs.Coefficients.{read};
ghost use Rattle.codec.specs.Messages.{numbers_of};
ghost use Rattle.candidate.specs.Places.{leading_numbers};

use codec::{Dimension, Message};

// Its numbers but for the last, in their places.
fn leading_numbers(f: [u16; 6]) -> [u16; 10]
    ensures { result ≡ leading_numbers f }
{
    [
        field::low(f[0]),
        field::low(f[1]),
        field::high(f[1]),
        field::low(f[2]),
        field::high(f[2]),
        field::low(f[3]),
        field::high(f[3]),
        field::low(f[4]),
        field::high(f[4]),
        0,
    ]
}

// The message for k.
pub fn read_message(k: Dimension, f: [u16; 6]) -> Message
    ensures of_k { result.k ≡ k }
    ensures numbers { numbers_of result ≡ read (table (suc k.value) (at f)) }
{
    let mut numbers = leading_numbers(f);
    numbers[2 * k.value - 1] = field::high(f[k.value]);
    Message { k, numbers }
}
