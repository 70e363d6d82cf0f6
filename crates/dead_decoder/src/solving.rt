// The message proposed for a card with dead lines: the coefficients that are left once the error's are taken off, back through all steps, and
// checked.
ghost use Rattle.std.specs.Prelude.{◌≡◌};
ghost use Rattle.algebra.specs.Lists.{table};
ghost use Rattle.rank.specs.Definitions.{at};
ghost use Rattle.dead_lines.specs.Solving.{solution, proposal};
ghost use Rattle.dead_decoder.specs.Finds.{Finds};

use crate::card::DeadCard;
use candidate::{Found, read_message};
use decoder::{determinant, residual, solved_pair};

// The message's coefficients, all steps made, where those of the card are r, and n is k with the number of dead lines. For n = 2 there are two.
fn solution(n: usize, r: [u16; 6]) -> [u16; 6]
    ensures { result ≡ table 6 (solution n (at r)) }
{
    match n {
        0..=2 => {
            let known = determinant(r[3], r[4], r[5]);
            let f = solved_pair(r, known);
            [f[0], f[1], f[1], f[1], f[1], f[1]]
        }
        3..=4 => residual(r, r[4]),
        _ => r,
    }
}

impl DeadCard {
    // The message that these coefficients give, if it is near the card.
    pub(crate) fn propose(self, n: usize, r: [u16; 6]) -> Option<Found>
        ensures { Finds self (proposal self.k.value self.rows.bits self.columns.bits self.card.symbols (solution n (at r))) result }
    {
        let f = solution(n, r);
        let g = self.back(self.k, f);
        self.near(read_message(self.k, g))
    }
}
