// Products, inverses and quotients by logarithms, and the two tables that they read.
ghost use Rattle.std.specs.Prelude.{◌≡◌, ◌<◌};
ghost use Rattle.algebra.specs.Field.{times, power, cube};
ghost use Rattle.algebra.specs.Lists.{table};
ghost use Rattle.algebra.specs.Powers.{powers, log};
ghost use Rattle.algebra.specs.Inverses.{inverse};

use super::tables::{LOGS, POWERS};

// The powers of z, from exponent 0 to 727.
pub fn powers() -> &'static [u16; 728]
    ensures { result.now ≡ powers }
{
    &POWERS
}

// The exponents of the symbols, by which each but 0 is a power.
pub fn logs() -> &'static [u16; 729]
    ensures { result.now ≡ table 729 log }
{
    &LOGS
}

// z^n
pub fn power(n: usize) -> u16
    requires { n < 728 }
    ensures { result ≡ power 3 n }
{
    powers()[n]
}

// The exponent of a, where a is not 0.
pub fn log(a: u16) -> usize
    ensures value { result ≡ log a }
    ensures bound { result < 728 }
{
    logs()[(a % 729) as usize] as usize
}

pub fn product(a: u16, b: u16) -> u16
    ensures { result ≡ times a b }
{
    let x = a % 729;
    let y = b % 729;
    if x == 0 || y == 0 {
        return 0;
    }
    let n = log(a) + log(b);
    if n < 728 { power(n) } else { power(n - 728) }
}

// a times the cube of b, by one sum of exponents: that of a cube is three times as large.
pub fn cube_product(a: u16, b: u16) -> u16
    ensures { result ≡ times a (cube b) }
{
    let x = a % 729;
    let y = b % 729;
    if x == 0 || y == 0 {
        return 0;
    }
    power((log(a) + 3 * log(b)) % 728)
}

// The exponent of the inverse of z^n is 728 - n, and that of 1 is 0.
pub fn inverse(a: u16) -> u16
    ensures { result ≡ inverse a }
{
    if a % 729 == 0 {
        return 0;
    }
    let n = log(a);
    if n == 0 { 1 } else { power(728 - n) }
}

// a over b, by the difference of exponents; 0 where b is 0.
pub fn quotient(a: u16, b: u16) -> u16
    ensures { result ≡ times (inverse b) a }
{
    let x = a % 729;
    let y = b % 729;
    if x == 0 || y == 0 {
        return 0;
    }
    power((log(a) + 728 - log(b)) % 728)
}
