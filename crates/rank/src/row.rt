// Digits modulo 3, and rows of six of them, in 16 bits: the vector unit multiplies numbers of that width.
ghost use Rattle.std.specs.Prelude.{◌≡◌, ◌+◌, ◌*◌, ◌%◌, ◌<◌, ◌≤◌};
ghost use Rattle.rank.specs.Definitions.{subtract};
ghost use Rattle.rank.specs.Elimination.{Digits};

// The multiple of p that is a, modulo 3: a times p, since a digit that is not 0 is its own inverse.
pub(crate) fn multiple(a: u16, p: u16) -> u16
    requires { (a < 3) × (p < 3) }
    ensures { (result ≡ a * p) × (result ≤ 4) }
{
    a * p
}

// x less d times y.
fn digit_less(x: u16, d: u16, y: u16) -> u16
    requires { (x < 3) × (d ≤ 4) × (y < 3) }
    ensures { result ≡ (x + 2 * d * y) % 3 }
{
    (x + 2 * d * y) % 3
}

// The row x less d times the row y.
pub(crate) fn row_less(x: [u16; 6], d: u16, y: [u16; 6]) -> [u16; 6]
    requires { Digits x × (d ≤ 4) × Digits y }
    ensures { result ≡ subtract d x y }
{
    [
        digit_less(x[0], d, y[0]),
        digit_less(x[1], d, y[1]),
        digit_less(x[2], d, y[2]),
        digit_less(x[3], d, y[3]),
        digit_less(x[4], d, y[4]),
        digit_less(x[5], d, y[5]),
    ]
}
