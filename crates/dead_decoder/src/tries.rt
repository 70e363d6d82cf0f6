// Where n is even, each value of the message's last symbol would be tried. The message's first coefficient must be small, and by that only two
// tries are left.
ghost use Rattle.std.specs.Prelude.{◌≡◌, ◌%◌, ◌≤◌, ◌<◌};
ghost use Rattle.algebra.specs.Field.{risen, gamma};
ghost use Rattle.algebra.specs.Lists.{table};
ghost use Rattle.rank.specs.Definitions.{at};
ghost use Rattle.coding.specs.Options.{first_of};
ghost use Rattle.dead_lines.specs.Struck.{dead_lines};
ghost use Rattle.dead_lines.specs.Steps.{unstepped};
ghost use Rattle.dead_lines.specs.Multipliers.{steps};
ghost use Rattle.dead_lines.specs.Hidden.{less_top};
ghost use Rattle.dead_lines.specs.Solving.{lower_rank, solve};
ghost use Rattle.dead_decoder.specs.Finds.{Finds, order};
ghost use Rattle.dead_decoder.specs.Fractions.{FirstShown};
ghost use Rattle.dead_decoder.specs.Roots.{Only};

use crate::card::DeadCard;
use crate::fractions::{Fraction, Shared};
use crate::roots::Quadratic;
use crate::steps::conjugates;
use candidate::Found;
use codec::Dimension;
use decoder::determinant;

// Six coefficients less t at number n, which stands in the place of number 0 if it is 6.
fn less_top(n: usize, t: u16, h: [u16; 6]) -> [u16; 6]
    ensures { result ≡ table 6 (less_top n t (at h)) }
{
    let mut r = h;
    r[n % 6] = field::difference(h[n % 6], t);
    r
}

// The 27 tries for an even n: what they share, and the message's first coefficient.
#[derive(Clone, Copy)]
pub struct Tries {
    pub n: usize,
    pub card: DeadCard,
    pub shared: Shared,
    pub first: Fraction,
    ghost even: { (n % 2 ≡ 0) × (n ≤ 6) },
    ghost factor_is: { shared.factor ≡ risen (dead_lines card.rows.bits) gamma },
    ghost first_is: { FirstShown n (at shared.coefficients) (unstepped (steps card.rows.bits card.columns.bits) (λ i. 1) 0) shared.factor first },
}

impl Tries {
    ghost use Rattle.dead_decoder.specs.Tries.{attempts};

    // What takes number 0 back is the way back of ones, of which no other number is read: 1 is the least k.
    fn new(n: usize, card: DeadCard, coefficients: [u16; 6]) -> Self
        requires { (n % 2 ≡ 0) × (2 ≤ n) × (n ≤ 6) }
        ensures { (result.n ≡ n) × (result.card ≡ card) × (result.shared.coefficients ≡ coefficients) }
    {
        let one = card.back(Dimension { value: 1 }, [1; 6]);
        let gammas = conjugates(3);
        let shared = Shared {
            coefficients,
            back: one[0],
            factor: gammas[card.rows.count()],
        };
        let first = shared.first(n);
        Tries {
            n,
            card,
            shared,
            first,
        }
    }

    // Try b: the message proposed, where its first coefficient is small and it is near the card.
    fn attempt(self, b: u16) -> Option<Found>
        ensures { Finds self.card (attempts self b) result }
    {
        let u = field::small_symbol(b);
        if field::high(self.first.at(u)) != 0 {
            return None;
        }
        let s = conjugates(u);
        let last = field::product(self.shared.factor, s[self.n / 2]);
        let r = less_top(self.n, last, self.shared.coefficients);
        self.card.propose(self.n, r)
    }

    // The message of the first try that has one.
    fn all(self) -> Option<Found>
        ensures { Finds self.card (first_of 27 (attempts self)) result }
    {
        for b in 0..27 {
            if let Some(found) = self.attempt(b) {
                return Some(found);
            }
        }
        None
    }

    // The same, where only the tries x and y can have one.
    fn two(self, x: u16, y: u16) -> Option<Found>
        requires { (x ≤ y) × (y < 27) × Only (attempts self) 27 x y }
        ensures { Finds self.card (first_of 27 (attempts self)) result }
    {
        match self.attempt(x) {
            None if x < y => self.attempt(y),
            lower => lower,
        }
    }

    // The same, by the roots of a quadratic, which says nothing if it is flat.
    fn by_roots(self) -> Option<Found>
        ensures { Finds self.card (first_of 27 (attempts self)) result }
    {
        let q = Quadratic::new(self.first);
        if q.is_flat() {
            return self.all();
        }
        let r = q.roots();
        self.two(r[0].min(r[1]), r[0].max(r[1]))
    }
}

// Whether the error is known to have a lower rank than it might.
fn lower_rank(n: usize, h: [u16; 6]) -> bool
    ensures { result ≡ lower_rank n (at h) }
{
    match n {
        2 => determinant(h[3], h[4], h[5]) == 0,
        4 => h[5] == 0,
        _ => false,
    }
}

impl DeadCard {
    // The message near the card, where h are its coefficients, all steps made.
    pub(crate) fn solve(self, h: [u16; 6]) -> Option<Found>
        ensures { Finds self (solve (order self) self.k.value self.rows.bits self.columns.bits self.card.symbols (at h)) result }
    {
        let n = self.order();
        if n % 2 == 1 {
            return self.propose(n, h);
        }
        if lower_rank(n, h) {
            return self.propose(3, h);
        }
        Tries::new(n, self, h).by_roots()
    }
}
