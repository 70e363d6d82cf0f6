// The test values of a card (document 01: Test): traces of its spectrum times constants, as small numbers, by packed digits.
ghost use Rattle.std.specs.Prelude.{◌≡◌, ◌*◌, ◌-◌, drop, IfOk};
ghost use Rattle.refusal.specs.Replies.{outcome};
ghost use Rattle.coding.specs.Code.{test_values};
ghost use Rattle.coding.specs.Mu.{mu};
ghost use Rattle.codec.specs.Operations.{syndrome_refusal, Tested};

use crate::dimension::Dimension;
use crate::slots::slots;
use crate::tests::{lengths_fit, test_input};
use refusal::Refusal;

// The test values for k stand from place 2k - 2 on, two to a slot.
#[tactic(auto, using(transform::specs::Slots::places_are), unfolding(transform::specs::Slots::places))]
fn values_of(k: Dimension, card: [u16; 6]) -> [u16; 10]
    ensures { drop (2 * k.value - 2) result ≡ test_values k.value (mu k.value) card }
{
    let s = slots(k, card);
    [
        s[4] % 27,
        s[4] / 27,
        s[3] % 27,
        s[3] / 27,
        s[2] % 27,
        s[2] / 27,
        s[1] % 27,
        s[1] / 27,
        s[0] % 27,
        s[0] / 27,
    ]
}

// The k of the code, if the lists are a card and room for its test values.
#[tactic(auto, unfolding(crate::specs::Operations::syndrome_refusal))]
fn syndrome_tests(k: u32, card: &[u16], room: usize) -> Result<Dimension, Refusal>
    ensures tested { outcome result ≡ syndrome_refusal k card.now room }
    ensures dimension { IfOk result (λ d. d.value ≡ k) }
{
    let fit = lengths_fit(
        card.len(),
        6,
        room,
        12_usize.saturating_sub(2 * (k as usize)),
    );
    test_input(k, fit, card, 728)
}

// Fills the test values of a card for k; they are all 0 exactly for words (document 01: Test).
#[tactic(auto, using(crate::specs::Refusals::syndrome_passed))]
pub fn syndrome(k: u32, card: &[u16], values: &mut [u16]) -> Result<(), Refusal>
    ensures { Tested k card.now values.old result values.new }
{
    let k = syndrome_tests(k, card, values.len())?;
    let all = values_of(k, lists::six(card));
    lists::fill(values, &all[2 * k.value - 2..]);
    Ok(())
}
