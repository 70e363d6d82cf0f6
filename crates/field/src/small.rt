// The small field: the symbols of the small numbers 0 to 26, and the two small numbers of a symbol. The three functions are linear, and
// written out by the digits of their values at 1, 3, 9, ..: remainders by 3 are taken of sums only, as in sums.rt.
ghost use Rattle.std.specs.Prelude.{◌≡◌};
ghost use Rattle.algebra.specs.Field.{small};
ghost use Rattle.algebra.specs.SmallField.{low, high};

// c0 + c1 h + c2 h^2: h is 650, with digits 2 0 0 0 2 2, and h^2 is 137, with digits 2 0 0 2 1 0.
pub fn small_symbol(c: u16) -> u16
    ensures { result ≡ small c }
{
    let c0 = c % 27;
    let c1 = c0 / 3;
    let c2 = c0 / 9;
    (c0 + 2 * c1 + 2 * c2) % 3 + 27 * (2 * c2 % 3) + 81 * ((2 * c1 + c2) % 3) + 243 * (2 * c1 % 3)
}

// The values at 1, z, .. z^5 are 1 0 6 21 4 4.
pub fn low(v: u16) -> u16
    ensures { result ≡ low v }
{
    let v0 = v % 729;
    let v2 = v0 / 9;
    let v3 = v0 / 27;
    let v4 = v0 / 81;
    let v5 = v0 / 243;
    (v0 + v4 + v5) % 3 + 3 * ((2 * v2 + v3 + v4 + v5) % 3) + 9 * (2 * v3 % 3)
}

// The values at 1, z, .. z^5 are 0 1 5 10 10 20.
pub fn high(v: u16) -> u16
    ensures { result ≡ high v }
{
    let v0 = v % 729;
    let v1 = v0 / 3;
    let v2 = v0 / 9;
    let v3 = v0 / 27;
    let v4 = v0 / 81;
    let v5 = v0 / 243;
    (v1 + 2 * v2 + v3 + v4 + 2 * v5) % 3 + 3 * (v2 % 3) + 9 * ((v3 + v4 + 2 * v5) % 3)
}
