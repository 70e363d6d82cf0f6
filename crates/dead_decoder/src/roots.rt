// Which of the 27 tries can pass: where the message's first coefficient is small, the try's symbol is a root of a quadratic, and two are left.
ghost use Rattle.std.specs.Prelude.{◌≡◌, false};
ghost use Rattle.algebra.specs.Field.{minus, times, risen};
ghost use Rattle.rank.specs.Definitions.{at};
ghost use Rattle.dead_decoder.specs.Roots.{square_root, Passes, is_flat, Roots};

use crate::fractions::Fraction;
use crate::steps::cubed;

// The 27th power, by which small symbols are known: it is theirs.
fn power_27(v: u16) -> u16
    ensures { result ≡ risen 3 v }
{
    let x = cubed(v);
    let y = cubed(x);
    cubed(y)
}

// a * b - c * d
fn crossed(a: u16, b: u16, c: u16, d: u16) -> u16
    ensures { result ≡ minus (times a b) (times c d) }
{
    field::difference(field::product(a, b), field::product(c, d))
}

// The power of half the exponent: a square root of v, if it has one.
fn square_root(v: u16) -> u16
    ensures { result ≡ square_root v }
{
    if v % 729 == 0 {
        return 0;
    }
    field::power(field::log(v) / 2)
}

// square * x^2 + linear * x + constant
#[derive(Clone, Copy)]
pub struct Quadratic {
    pub square: u16,
    pub linear: u16,
    pub constant: u16,
}

impl Quadratic {
    // That whose roots are the symbols at which a fraction can be small. The fraction's 27th power is itself where it is small. With all over one
    // denominator, numerator and denominator are a + b * x and c + d * x, and of a small x the power is x.
    pub(crate) fn new(t: Fraction) -> Self
        ensures { Passes t result }
    {
        let c = t.denominator.constant;
        let d = t.denominator.factor;
        let a = field::sum(field::product(t.constant, c), t.numerator.constant);
        let b = field::sum(field::product(t.constant, d), t.numerator.factor);
        let ar = power_27(a);
        let br = power_27(b);
        let cr = power_27(c);
        let dr = power_27(d);
        Quadratic {
            square: crossed(br, d, b, dr),
            linear: field::sum(crossed(ar, d, a, dr), crossed(br, c, b, cr)),
            constant: crossed(ar, c, a, cr),
        }
    }

    // Whether it is 0 at all symbols or at none.
    pub(crate) fn is_flat(self) -> bool
        ensures { result ≡ is_flat self }
    {
        self.square % 729 == 0 && self.linear % 729 == 0
    }

    // The numbers of the small symbols at which it can be 0. Where it is no line, the square is completed: 4 is 1, and -2 is 1.
    pub(crate) fn roots(self) -> [u16; 2]
        requires { is_flat self ≡ false }
        ensures { Roots self (at result 0) (at result 1) }
    {
        let a = self.square;
        let b = self.linear;
        if a % 729 == 0 {
            let u = field::quotient(field::difference(0, self.constant), b);
            let x = field::low(u);
            return [x, x];
        }
        let r = square_root(crossed(b, b, a, self.constant));
        let u = field::quotient(field::sum(b, r), a);
        let v = field::quotient(field::difference(b, r), a);
        [field::low(u), field::low(v)]
    }
}
