// The run of cards with the most wear.
ghost use Rattle.std.specs.Prelude.{◌≡◌, cond, ltb};
ghost use Rattle.refusal.specs.Replies.{reply_with};
ghost use Rattle.wear.specs.Wear.{wear_refusal, worst_run, no_run, wear_reply};
ghost use Rattle.wear.specs.Sliding.{Fits};

use crate::sliding::{card_wear, first_run};
use book::Body;
use refusal::Refusal;

// Cards in a row: the sum of their wear, and the number of the first. The default, all zeros, stands where a refusal has no run.
#[derive(Clone, Copy, Debug, Default, PartialEq, Eq)]
pub struct Run {
    pub sum: u32,
    pub first: u32,
}

// The run with the greater sum; of two with the same, the one before. (`max_by` would take the one after.)
fn worse(before: Run, after: Run) -> Run
    ensures { result ≡ cond (ltb before.sum after.sum) after before }
{
    if before.sum < after.sum {
        after
    } else {
        before
    }
}

// The first of the runs with the largest sum. From run to run one card leaves, and the next enters.
#[tactic(auto, using(crate::specs::Worst::seeking_end))]
fn find_worst(body: &Body<'_>, width: u32) -> Run
    requires { Fits body.now.bytes.now width }
    ensures { result ≡ worst_run body.now.bytes.now width }
{
    let run = first_run(body, width);
    let mut wears = run.wears;
    let mut sum = run.sum;
    let mut worst = Run { sum, first: 1 };
    let last = body.count() - width + 1;
    for first in 1..last {
        let next = first + width;
        let wear = card_wear(body, next);
        sum = sum + wear - wears[(first % 64) as usize];
        wears[(next % 64) as usize] = wear;
        let moved = Run {
            sum,
            first: first + 1,
        };
        worst = worse(worst, moved);
    }
    worst
}

// The largest sum of wear over `width` cards in a row, and the first card at which such a run begins; or refusal 2 for the body, then 12 for a
// width that no run has: it is 0, above 64, or above the count of cards (document 02, P7).
#[tactic(auto, using(crate::specs::Worst::answers), unfolding(crate::specs::Wear::width_bad))]
pub fn worst_run(body: &[u8], width: u32) -> Result<Run, Refusal>
    ensures { wear_reply result ≡ reply_with no_run (wear_refusal body.now width) (worst_run body.now width) }
{
    let body = Body::new(body)?;
    if width == 0 || 64 < width || body.count() < width {
        return Err(Refusal::Width);
    }
    Ok(find_worst(&body, width))
}
