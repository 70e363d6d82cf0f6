// Masks of lines: bit i, worth 2^i, is line i.
ghost use Rattle.std.specs.Prelude.{◌≡◌, false, cond, ◌/◌, ◌%◌, ◌≤◌, ◌<◌, eqb, ltb, IfOk};
ghost use Rattle.refusal.specs.Replies.{outcome};
ghost use Rattle.codec.specs.Operations.{tests};
ghost use Rattle.dead_lines.specs.Struck.{dead_lines};

use refusal::Refusal;

// A mask of six lines, tested once where it comes in as a number. A line is dead if its bit is 1.
#[derive(Clone, Copy)]
pub struct Mask {
    pub bits: u32,
    ghost six_lines: { bits < 64 },
}

impl TryFrom<u32> for Mask {
    type Error = Refusal;

    ghost try_from_gives = { λ bits r. (outcome r ≡ tests false false (ltb 63 bits)) × IfOk r (λ m. m.bits ≡ bits) };

    fn try_from(bits: u32) -> Result<Mask, Refusal> {
        match bits {
            0..=63 => Ok(Mask { bits }),
            _ => Err(Refusal::Range),
        }
    }
}

impl Mask {
    // How many lines are dead.
    pub(crate) fn count(self) -> usize
        ensures { (result ≡ dead_lines self.bits) × (result ≤ 6) }
    {
        self.bits.count_ones() as usize
    }

    // A number of the line whose bit is worth `low`, or 0 if the line is dead.
    pub(crate) fn unless_dead(self, low: u32, v: u16) -> u16
        requires { 1 ≤ low }
        ensures { (result ≡ cond (eqb (self.bits / low % 2) 0) v 0) × (result ≤ v) }
    {
        if self.bits / low % 2 == 0 { v } else { 0 }
    }
}
