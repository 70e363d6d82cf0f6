// What the lists lent for a word and a message are filled with.
ghost use Rattle.std.specs.Prelude.{◌≡◌, ◌≤◌, length, IfSome, option_map};
ghost use Rattle.decoder.specs.Filling.{filling, Filled};

use candidate::Found;
use rank::Weight;
use refusal::Refusal;

// A word, the numbers of a message, and the weight that is answered with them. They need not belong together.
#[derive(Clone, Copy)]
pub struct Filling {
    pub word: [u16; 6],
    pub numbers: [u16; 10],
    pub weight: Weight,
}

impl Filling {
    // That of what was found, if anything.
    pub fn of(near: Option<Found>) -> Option<Filling>
        ensures { result ≡ option_map filling near }
    {
        near.map(|found| {
            let word = found.word;
            let numbers = found.message.numbers;
            Filling {
                word,
                numbers,
                weight: found.weight,
            }
        })
    }
}

// Fills a word and a message with what was found, and answers its weight; or refuses.
pub fn fill_found(
    near: Option<Filling>,
    word: &mut [u16],
    message: &mut [u16],
) -> Result<Weight, Refusal>
    requires { IfSome near (λ f. (length f.word ≡ length word.old) × (length message.old ≤ length f.numbers)) }
    ensures { Filled near word.old message.old result word.new message.new }
{
    let found = near.ok_or(Refusal::Undecodable)?;
    lists::fill(word, &found.word);
    lists::fill(message, &found.numbers);
    Ok(found.weight)
}
