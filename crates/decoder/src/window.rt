// The annihilator of an error from a window, four of its coefficients in a row w, x, y, z: the determinant of the window's two equations, and
// what the annihilator's coefficients are times it, for the middle one a numerator, for the lowest one the cube of the determinant before. Where
// it is not 0, a coefficient is solved from the two before it.
ghost use Rattle.std.specs.Prelude.{◌≡◌};
ghost use Rattle.algebra.specs.Field.{add, times, cube};
ghost use Rattle.coding.specs.Window.{determinant, numerator};

// a times the ninth power of b, which is the cube of its cube.
pub fn ninth_product(a: u16, b: u16) -> u16
    ensures { result ≡ times (cube (cube b)) a }
{
    field::cube_product(a, field::cube(b))
}

pub fn determinant(x: u16, y: u16, z: u16) -> u16
    ensures { result ≡ determinant x y z }
{
    field::difference(field::cube_product(z, x), field::cube_product(y, y))
}

pub fn numerator(w: u16, x: u16, y: u16, z: u16) -> u16
    ensures { result ≡ numerator w x y z }
{
    field::difference(ninth_product(y, x), ninth_product(z, w))
}

// 1 / the determinant before it, the numerator, and the determinant.
#[derive(Clone, Copy)]
pub struct Annihilator {
    pub inverse: u16,
    pub numerator: u16,
    pub determinant: u16,
}

impl Annihilator {
    ghost use Rattle.decoder.specs.Windows.{Annihilates};

    // All of them, where the determinant is known.
    pub fn new(w: u16, x: u16, y: u16, z: u16, known: u16) -> Self
        requires { known ≡ determinant x y z }
        ensures { Annihilates w x y z result }
    {
        let before = determinant(w, x, y);
        Annihilator {
            inverse: field::inverse(before),
            numerator: numerator(w, x, y, z),
            determinant: known,
        }
    }

    // A coefficient f less the error's, where p and q are the error's two before it.
    pub fn solve(self, f: u16, p: u16, q: u16) -> u16
        ensures { result ≡ add f (times (cube self.inverse) (add (times (cube (cube p)) self.determinant) (times self.numerator (cube q)))) }
    {
        let t = field::sum(
            ninth_product(self.determinant, p),
            field::cube_product(self.numerator, q),
        );
        field::sum(f, field::cube_product(t, self.inverse))
    }
}
