// Cubes by digits. Cubing is linear: a cube is the combination of the cubes of what the six digits stand for.
ghost use Rattle.std.specs.Prelude.{◌≡◌};
ghost use Rattle.algebra.specs.Field.{cube};

use super::sums::combination;

// The cubes of 1, z, z^2, .. z^5.
const CUBES: [u16; 6] = [1, 27, 103, 93, 633, 538];

pub fn cube(a: u16) -> u16
    ensures { result ≡ cube a }
{
    combination(CUBES, a)
}
