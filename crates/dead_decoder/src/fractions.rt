// The message's first coefficient where n is even: one coefficient of the error depends on the message's last symbol, whose 27 values are tried. In
// a try the first coefficient is a fraction of the try's symbol.
ghost use Rattle.std.specs.Prelude.{◌≡◌, ◌%◌, ◌≤◌};
ghost use Rattle.rank.specs.Definitions.{at};
ghost use Rattle.dead_decoder.specs.Fractions.{FirstShown, fraction_at};

use decoder::{Affine, determinant, ninth_product, numerator};

// constant + numerator / denominator, both of which depend on a try's symbol.
#[derive(Clone, Copy)]
pub struct Fraction {
    pub constant: u16,
    pub numerator: Affine,
    pub denominator: Affine,
}

impl Fraction {
    // Its value in a try.
    pub(crate) fn at(self, u: u16) -> u16
        ensures { result ≡ fraction_at self u }
    {
        let d = self.denominator.at(u);
        let n = self.numerator.at(u);
        field::sum(self.constant, field::quotient(n, d))
    }
}

// What all tries share: the card's coefficients, all steps made; what takes number 0 back; and what the last symbol is multiplied by.
#[derive(Clone, Copy)]
pub struct Shared {
    pub coefficients: [u16; 6],
    pub back: u16,
    pub factor: u16,
}

impl Shared {
    // The message's first coefficient for n = 2.
    fn first_two(self) -> Fraction
        ensures { FirstShown 2 (at self.coefficients) self.back self.factor result }
    {
        let h = self.coefficients;
        let a = self.back;
        let before = determinant(h[2], h[3], h[4]);
        let known = determinant(h[3], h[4], h[5]);
        let middle = numerator(h[2], h[3], h[4], h[5]);
        let ninth = field::cube(field::cube(self.factor));
        let t = field::sum(
            ninth_product(known, h[4]),
            field::cube_product(middle, h[5]),
        );
        let u = field::product(ninth, field::cube_product(h[5], h[5]));
        Fraction {
            constant: field::product(a, h[0]),
            numerator: Affine {
                constant: field::product(a, t),
                factor: field::product(a, u),
            },
            denominator: Affine {
                constant: field::cube(before),
                factor: field::difference(0, field::cube_product(ninth, h[4])),
            },
        }
    }

    // The same for n = 4.
    fn first_four(self) -> Fraction
        ensures { FirstShown 4 (at self.coefficients) self.back self.factor result }
    {
        let h = self.coefficients;
        let a = self.back;
        let power = field::cube_product(h[5], h[5]);
        Fraction {
            constant: field::product(a, h[0]),
            numerator: Affine {
                constant: field::difference(0, field::product(a, power)),
                factor: 0,
            },
            denominator: Affine {
                constant: field::cube(h[4]),
                factor: field::difference(0, field::cube(self.factor)),
            },
        }
    }

    // The same for n = 6, where the error is 0.
    fn first_six(self) -> Fraction
        ensures { FirstShown 6 (at self.coefficients) self.back self.factor result }
    {
        let a = self.back;
        Fraction {
            constant: field::product(a, self.coefficients[0]),
            numerator: Affine {
                constant: 0,
                factor: field::difference(0, field::product(a, self.factor)),
            },
            denominator: Affine {
                constant: 1,
                factor: 0,
            },
        }
    }

    // The same for each n that is even.
    pub(crate) fn first(self, n: usize) -> Fraction
        requires { (n % 2 ≡ 0) × (2 ≤ n) × (n ≤ 6) }
        ensures { FirstShown n (at self.coefficients) self.back self.factor result }
    {
        match n {
            2 => self.first_two(),
            4 => self.first_four(),
            _ => self.first_six(),
        }
    }
}
