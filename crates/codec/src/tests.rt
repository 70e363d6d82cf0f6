// The tests that operations on cards begin with, in their order. They look and answer, and change nothing.
ghost use Rattle.std.specs.Prelude.{◌≡◌, false, ◌&&◌, not, eqb, IfOk};
ghost use Rattle.algebra.specs.Tests.{any_above};
ghost use Rattle.refusal.specs.Replies.{outcome};
ghost use Rattle.codec.specs.Operations.{k_bad, tests};

use crate::dimension::Dimension;
use refusal::Refusal;

// Whether the lengths a and b of two lists are m and n.
pub fn lengths_fit(a: usize, m: usize, b: usize, n: usize) -> bool
    ensures { result ≡ (eqb a m && eqb b n) }
{
    a == m && b == n
}

// 2 if the lists do not fit; 3 if a number of the list is above `most`.
#[tactic(auto, unfolding(crate::specs::Operations::tests))]
pub fn test_list(fit: bool, list: &[u16], most: u16) -> Result<(), Refusal>
    ensures { outcome result ≡ tests false (not fit) (any_above most list.now) }
{
    if !fit {
        return Err(Refusal::Length);
    }
    if lists::any_above(list, most) {
        return Err(Refusal::Range);
    }
    Ok(())
}

// 1 if k is not 1 to 5; then as `test_list`.
#[tactic(auto, using(crate::specs::Refusals::tests_refused, crate::specs::Refusals::tests_good))]
pub fn test_input(k: u32, fit: bool, list: &[u16], most: u16) -> Result<Dimension, Refusal>
    ensures tested { outcome result ≡ tests (k_bad k) (not fit) (any_above most list.now) }
    ensures dimension { IfOk result (λ d. d.value ≡ k) }
{
    let k = Dimension::try_from(k)?;
    test_list(fit, list, most)?;
    Ok(k)
}
