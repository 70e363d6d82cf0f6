// A run that slides along a body (a sliding window): the sum of the wear of its cards, and the wear of each for the time when it leaves.
ghost use Rattle.std.specs.Prelude.{◌≡◌, ◌≤◌};
ghost use Rattle.book.specs.Reading.{cards_in};
ghost use Rattle.wear.specs.Wear.{card_wear};
ghost use Rattle.wear.specs.Sliding.{Fits, Keeps};

use book::Body;

// It has at most 64 cards: the wear of card n stands in place n % 64. Memory is fixed here, so no queue grows.
#[derive(Clone, Copy)]
pub(crate) struct SlidingRun {
    pub wears: [u32; 64],
    pub sum: u32,
}

// The wear of a card: the rank of its damage, or 3 if it is refused.
#[tactic(auto, using(crate::specs::Worst::read_wears), unfolding(crate::specs::Wear::card_wear))]
pub(crate) fn card_wear(body: &Body<'_>, n: u32) -> u32
    requires { (1 ≤ n) × (n ≤ cards_in body.now.bytes.now) }
    ensures { result ≡ card_wear body.now.bytes.now n }
{
    body.card(n).map_or(3, |card| card.damage.rank)
}

// The run that begins with the first card of a body.
pub(crate) fn first_run(body: &Body<'_>, width: u32) -> SlidingRun
    requires { Fits body.now.bytes.now width }
    ensures { Keeps (card_wear body.now.bytes.now) width 1 result.wears result.sum }
{
    let mut wears = [0u32; 64];
    let mut sum = 0;
    for n in 1..width + 1 {
        let wear = card_wear(body, n);
        wears[(n % 64) as usize] = wear;
        sum += wear;
    }
    SlidingRun { wears, sum }
}
