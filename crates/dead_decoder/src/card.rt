// A card with dead lines.
ghost use Rattle.std.specs.Prelude.{◌≡◌, ◌+◌, ◌≤◌};
ghost use Rattle.dead_lines.specs.Struck.{dead_lines};

use crate::masks::Mask;
use candidate::Card;
use codec::Dimension;

// A card, the k of its code, and its dead lines, 6 - k at most.
#[derive(Clone, Copy)]
pub struct DeadCard {
    pub k: Dimension,
    pub card: Card,
    pub rows: Mask,
    pub columns: Mask,
    ghost few_lines: { k.value + dead_lines rows.bits + dead_lines columns.bits ≤ 6 },
}

impl DeadCard {
    // The problem is that for this k with no dead line.
    pub(crate) fn order(self) -> usize
        ensures { result ≡ self.k.value + dead_lines self.rows.bits + dead_lines self.columns.bits }
    {
        self.k.value + self.rows.count() + self.columns.count()
    }
}
