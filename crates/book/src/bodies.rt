// Length and Worn: what is said of a whole body.
ghost use Rattle.std.specs.Prelude.{◌≡◌, ◌+◌, ◌≤◌};
ghost use Rattle.std.proofs.Math.Option.{none};
ghost use Rattle.refusal.specs.Replies.{reply, reply_with};
ghost use Rattle.book.specs.Reading.{read_reply};
ghost use Rattle.book.specs.Bodies.{add_delay, total_delay, body_refusal, flawed, first_damaged, worn_reply};

use crate::reading::{Body, Reading};
use refusal::Refusal;

// What is said of some cards, and then of one more: the first refusal, or the sum of the delays.
#[tactic(auto, using(crate::specs::Delays::after_refused, crate::specs::Delays::card_struck))]
pub fn add_delay(
    ticks: Result<u32, Refusal>,
    read: Result<Reading, Refusal>,
) -> Result<u32, Refusal>
    requires { (reply ticks).value + (read_reply read).value.strike.delay ≤ 4294967295 }
    ensures { reply result ≡ add_delay (reply ticks) (read_reply read) }
{
    Ok(ticks? + read?.strike.delay)
}

// The sum of the delays of all cards; or refusal 2, or that of the first card that is refused, after which none is read (document 01: Length).
#[tactic(auto, using(crate::specs::Delays::adding))]
pub fn total_delay(body: &[u8]) -> Result<u32, Refusal>
    ensures { reply result ≡ total_delay body.now }
{
    let body = Body::new(body)?;
    let mut ticks = 0;
    for n in 1..body.count() + 1 {
        ticks = add_delay(Ok(ticks), body.card(n))?;
    }
    Ok(ticks)
}

// Whether a card was refused, or mended with rank 1 or more.
#[tactic(auto, using(crate::specs::Damaged::flaws))]
fn damaged(read: Result<Reading, Refusal>) -> bool
    ensures { result ≡ flawed (read_reply read) }
{
    read.map_or(true, |card| card.damage.rank != 0)
}

// The number of the first damaged card or none, or refusal 2 (document 01: Worn).
#[tactic(auto, using(refusal::specs::Replies::refused_reply))]
pub fn damaged_card(body: &[u8]) -> Result<Option<u32>, Refusal>
    ensures { worn_reply result ≡ reply_with none (body_refusal body.now) (first_damaged body.now) }
{
    let body = Body::new(body)?;
    Ok((1..body.count() + 1).find(|n| damaged(body.card(*n))))
}
