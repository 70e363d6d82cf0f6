// Decoding with dead lines: the tests of what is lent, the way for a card with a dead line and that for a card with none, and the operation.
ghost use Rattle.std.specs.Prelude.{◌≡◌, ◌+◌, ◌≤◌, IfOk};
ghost use Rattle.refusal.specs.Replies.{outcome};
ghost use Rattle.dead_lines.specs.Struck.{dead_lines};
ghost use Rattle.dead_lines.specs.DecodeDead.{decode_dead};
ghost use Rattle.dead_decoder.specs.Finds.{Finds};
ghost use Rattle.dead_decoder.specs.Operation.{dead_tests, DeadDecoded};

use crate::card::DeadCard;
use crate::masks::Mask;
use candidate::{Card, Found};
use decoder::{Filling, decode_card, decode_tests, fill_found};
use refusal::Refusal;

impl DeadCard {
    // The message near a card with a dead line, if there is one.
    fn decode_lines(self) -> Option<Found>
        requires { 1 ≤ dead_lines self.rows.bits + dead_lines self.columns.bits }
        ensures { Finds self (decode_dead self.k.value self.rows.bits self.columns.bits self.card.symbols) result }
    {
        let r = codec::spectrum(self.card.symbols);
        let h = self.steps(r);
        self.solve(h)
    }

    // The same of every card.
    fn decode(self) -> Option<Found>
        ensures { Finds self (decode_dead self.k.value self.rows.bits self.columns.bits self.card.symbols) result }
    {
        if self.rows.bits == 0 && self.columns.bits == 0 {
            return decode_card(self.k, self.card);
        }
        self.decode_lines()
    }
}

// The card that a list is, with its dead lines, if there is room for its word and its message. The tests are 1, 2, 3, 11.
fn dead_card(
    k: u32,
    received: &[u16],
    rows: u32,
    columns: u32,
    word: usize,
    message: usize,
) -> Result<DeadCard, Refusal>
    ensures tested { outcome result ≡ dead_tests k received.now rows columns word message }
    ensures made { IfOk result (λ d. (d.k.value ≡ k) × (d.card.symbols ≡ received.now) × (d.rows.bits ≡ rows) × (d.columns.bits ≡ columns)) }
{
    let k = decode_tests(k, received, word, message)?;
    let rows = Mask::try_from(rows)?;
    let columns = Mask::try_from(columns)?;
    if 6 < k.value + rows.count() + columns.count() {
        return Err(Refusal::DeadLines);
    }
    Ok(DeadCard {
        k,
        card: Card::of_list(received),
        rows,
        columns,
    })
}

// Fills the word near a card but for its dead lines, and its message, and answers the rank of what is left of the difference between word and card
// when the dead lines are struck out (document 02, P4).
pub fn decode_dead(
    k: u32,
    received: &[u16],
    rows: u32,
    columns: u32,
    word: &mut [u16],
    message: &mut [u16],
) -> Result<u32, Refusal>
    ensures { DeadDecoded k received.now rows columns word.old message.old result word.new message.new }
{
    let card = dead_card(k, received, rows, columns, word.len(), message.len())?;
    let near = card.decode();
    let weight = fill_found(Filling::of(near), word, message)?;
    Ok(weight.rank)
}
