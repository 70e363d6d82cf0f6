// A card received as 36 samples, symbol by symbol and the lowest digit first.
ghost use Rattle.std.specs.Prelude.{◌≡◌, ◌<◌, length};
ghost use Rattle.refusal.specs.Replies.{outcome, Gives};
ghost use Rattle.levels.specs.Levels.{sample_digit, received_symbol, received};
ghost use Rattle.cable.specs.Operations.{receive_refusal};

use refusal::Refusal;

// A sample from here on is plus, and from its negative down minus.
const THRESHOLD: i16 = 8192;

// The digit of the level that a sample falls to.
#[tactic(auto, using(std::proofs::lemmas::Int::ints), unfolding(levels::specs::Levels::sample_digit, levels::specs::Levels::sample_level, levels::specs::Levels::level_digit))]
fn sample_digit(sample: i16) -> u16
    ensures { (result ≡ sample_digit sample) × (result < 3) }
{
    if THRESHOLD <= sample {
        return 1;
    }
    if sample <= -THRESHOLD {
        return 2;
    }
    0
}

// Symbol j.
fn received_symbol(samples: &[i16], j: usize) -> u16
    requires { (length samples.now ≡ 36) × (j < 6) }
    ensures { result ≡ received_symbol samples.now j }
{
    let a = 6 * j;
    let d0 = sample_digit(samples[a]);
    let d1 = sample_digit(samples[a + 1]);
    let d2 = sample_digit(samples[a + 2]);
    let d3 = sample_digit(samples[a + 3]);
    let d4 = sample_digit(samples[a + 4]);
    let d5 = sample_digit(samples[a + 5]);
    d0 + 3 * d1 + 9 * d2 + 27 * d3 + 81 * d4 + 243 * d5
}

// The card received.
fn received(samples: &[i16]) -> [u16; 6]
    requires { length samples.now ≡ 36 }
    ensures { result ≡ received samples.now }
{
    std::array::from_fn(|j| received_symbol(samples, j))
}

// Fills the card received as samples (document 02, P6).
#[tactic(auto, using(crate::specs::Steps::receive_passed, crate::specs::Steps::receive_refused), unfolding(refusal::specs::Replies::unless))]
pub fn receive(samples: &[i16], card: &mut [u16]) -> Result<(), Refusal>
    ensures { Gives (receive_refusal samples.now (length card.old)) (received samples.now) card.old (outcome result) card.new }
{
    let fit = codec::lengths_fit(samples.len(), 36, card.len(), 6);
    if !fit {
        return Err(Refusal::Length);
    }
    card.copy_from_slice(&received(samples));
    Ok(())
}
