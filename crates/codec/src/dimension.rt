// The k of a code, 1 to 5, tested once where it comes in as a number.
ghost use Rattle.std.specs.Prelude.{◌≡◌, false, ◌≤◌, IfOk};
ghost use Rattle.refusal.specs.Replies.{outcome};
ghost use Rattle.codec.specs.Operations.{k_bad, tests};

use refusal::Refusal;

#[derive(Clone, Copy, Debug, PartialEq, Eq)]
pub struct Dimension {
    pub value: usize,
    ghost within: { (1 ≤ value) × (value ≤ 5) },
}

impl TryFrom<u32> for Dimension {
    type Error = Refusal;

    ghost try_from_gives = { λ k r. (outcome r ≡ tests (k_bad k) false false) × IfOk r (λ d. d.value ≡ k) };

    #[tactic(auto, using(std::proofs::lemmas::Bool::Decides::nat_tests), unfolding(crate::specs::Operations::k_bad, crate::specs::Operations::tests))]
    fn try_from(k: u32) -> Result<Dimension, Refusal> {
        if !(1..=5).contains(&k) {
            return Err(Refusal::Dimension);
        }
        Ok(Dimension { value: k as usize })
    }
}
