// Sums of symbols, digit by digit, and combinations with digits as coefficients. The digit of a at 3^i is the remainder of a / 3^i by 3, and
// remainders are taken of sums only. The six digits are written out, since a loop would cost more than the sum.
ghost use Rattle.std.specs.Prelude.{◌≡◌, ◌≤◌};
ghost use Rattle.algebra.specs.Field.{add, scale, minus};
ghost use Rattle.algebra.specs.Linear.{combination};
ghost use Rattle.field.specs.DigitSums.{place_sum};

// A symbol and a multiple of another.
fn with_multiple<const M: u32>(a: u16, b: u16) -> u16
    requires { M ≤ 2 }
    ensures { result ≡ add a (scale M b) }
{
    let x = a as u32;
    let y = b as u32;
    let r = (x + M * y) % 3
        + 3 * ((x / 3 + M * (y / 3)) % 3)
        + 9 * ((x / 9 + M * (y / 9)) % 3)
        + 27 * ((x / 27 + M * (y / 27)) % 3)
        + 81 * ((x / 81 + M * (y / 81)) % 3)
        + 243 * ((x / 243 + M * (y / 243)) % 3);
    r as u16
}

pub fn sum(a: u16, b: u16) -> u16
    ensures { result ≡ add a b }
{
    with_multiple::<1>(a, b)
}

// A digit less is twice the digit more.
pub fn difference(a: u16, b: u16) -> u16
    ensures { result ≡ minus a b }
{
    with_multiple::<2>(a, b)
}

// What six symbols have at a place 1, 3, 9, .. or 243, each times its quotient of x: modulo 3 it is a digit of their combination.
fn place_sum(w: [u16; 6], x: u16, place: u16) -> u32
    requires { 1 ≤ place }
    ensures { result ≡ place_sum place x w }
{
    let v = x as u32;
    ((w[0] / place % 3) as u32) * v
        + ((w[1] / place % 3) as u32) * (v / 3)
        + ((w[2] / place % 3) as u32) * (v / 9)
        + ((w[3] / place % 3) as u32) * (v / 27)
        + ((w[4] / place % 3) as u32) * (v / 81)
        + ((w[5] / place % 3) as u32) * (v / 243)
}

// Where the symbols are constants, so are their digits, and the compiler leaves out those that are 0.
pub fn combination(w: [u16; 6], x: u16) -> u16
    ensures { result ≡ combination w x }
{
    let r = place_sum(w, x, 1) % 3
        + 3 * (place_sum(w, x, 3) % 3)
        + 9 * (place_sum(w, x, 9) % 3)
        + 27 * (place_sum(w, x, 27) % 3)
        + 81 * (place_sum(w, x, 81) % 3)
        + 243 * (place_sum(w, x, 243) % 3);
    r as u16
}
