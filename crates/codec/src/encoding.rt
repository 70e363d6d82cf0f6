// Encoding (document 01: Press).
ghost use Rattle.std.specs.Prelude.{◌≡◌, IfOk};
ghost use Rattle.refusal.specs.Replies.{outcome};
ghost use Rattle.codec.specs.Messages.{numbers_of};
ghost use Rattle.codec.specs.Operations.{encode_refusal, Encoded};

use crate::message::Message;
use crate::tests::{lengths_fit, test_input};
use refusal::Refusal;

// The message that a list is, if there is room for its word.
#[tactic(auto, using(crate::specs::Refusals::encode_passed), unfolding(crate::specs::Operations::encode_refusal))]
fn message_of(k: u32, list: &[u16], room: usize) -> Result<Message, Refusal>
    ensures tested { outcome result ≡ encode_refusal k list.now room }
    ensures message_is { IfOk result (λ m. (m.k.value ≡ k) × (numbers_of m ≡ list.now)) }
{
    let fit = lengths_fit(list.len(), 2 * (k as usize), room, 6);
    let k = test_input(k, fit, list, 26)?;
    Ok(Message {
        k,
        numbers: lists::load(list),
    })
}

// Fills the word of a message for k (document 01: Press).
#[tactic(auto, using(crate::specs::Refusals::encode_passed))]
pub fn encode(k: u32, message: &[u16], word: &mut [u16]) -> Result<(), Refusal>
    ensures { Encoded k message.now word.old result word.new }
{
    let message = message_of(k, message, word.len())?;
    lists::fill(word, &message.word());
    Ok(())
}
