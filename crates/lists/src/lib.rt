// Lists of numbers that a caller lends: tested against a bound, taken into an array, and filled from one.
#![tactic(auto)]

ghost use Rattle.std.specs.Prelude.{◌≡◌, ◌≤◌, length, take};
ghost use Rattle.algebra.specs.Tests.{any_above};

// Whether a number of the list is above `most`.
pub fn any_above(list: &[u16], most: u16) -> bool
    ensures { result ≡ any_above most list.now }
{
    list.iter().any(|&number| number > most)
}

// The numbers of a list of at most ten, and zeros.
pub fn load(from: &[u16]) -> [u16; 10]
    requires { length from.now ≤ 10 }
    ensures { take (length from.now) result ≡ from.now }
{
    let mut numbers = [0u16; 10];
    numbers[..from.len()].copy_from_slice(from);
    numbers
}

// The list gets the first entries of another.
pub fn fill(list: &mut [u16], from: &[u16])
    requires { length list.old ≤ length from.now }
    ensures { list.new ≡ take (length list.old) from.now }
{
    list.copy_from_slice(&from[..list.len()]);
}

// The six numbers of a list, as a card has them.
pub fn six(list: &[u16]) -> [u16; 6]
    requires { length list.now ≡ 6 }
    ensures { result ≡ list.now }
{
    let mut numbers = [0u16; 6];
    numbers.copy_from_slice(list);
    numbers
}
