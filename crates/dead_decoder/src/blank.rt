// Dead lines made 0, and a message checked against the lines that are left.
ghost use Rattle.std.specs.Prelude.{◌≡◌};
ghost use Rattle.codec.specs.Messages.{numbers_of};
ghost use Rattle.dead_lines.specs.Blanked.{kept, blanked};
ghost use Rattle.dead_lines.specs.DecodeDead.{if_near_dead};
ghost use Rattle.candidate.specs.Finding.{found_message, Matches};
ghost use Rattle.dead_decoder.specs.Finds.{left_of};

use crate::card::DeadCard;
use crate::masks::Mask;
use candidate::{Found, difference};
use codec::Message;

// A symbol whose digits in dead rows are 0.
fn kept(rows: Mask, v: u16) -> u16
    ensures { result ≡ kept rows.bits v }
{
    rows.unless_dead(1, v % 3)
        + 3 * rows.unless_dead(2, v / 3 % 3)
        + 9 * rows.unless_dead(4, v / 9 % 3)
        + 27 * rows.unless_dead(8, v / 27 % 3)
        + 81 * rows.unless_dead(16, v / 81 % 3)
        + 243 * rows.unless_dead(32, v / 243 % 3)
}

// Six symbols whose digits in dead rows are 0, and which are 0 in dead columns.
fn blanked(rows: Mask, columns: Mask, d: [u16; 6]) -> [u16; 6]
    ensures { result ≡ blanked rows.bits columns.bits d }
{
    [
        columns.unless_dead(1, kept(rows, d[0])),
        columns.unless_dead(2, kept(rows, d[1])),
        columns.unless_dead(4, kept(rows, d[2])),
        columns.unless_dead(8, kept(rows, d[3])),
        columns.unless_dead(16, kept(rows, d[4])),
        columns.unless_dead(32, kept(rows, d[5])),
    ]
}

impl DeadCard {
    // A message with its word, where that is near the card but for its dead lines.
    pub(crate) fn near(self, message: Message) -> Option<Found>
        ensures { (found_message result ≡ if_near_dead message.k.value self.rows.bits self.columns.bits self.card.symbols (numbers_of message)) × Matches message.k.value (left_of self) result }
    {
        let word = message.word();
        let left = blanked(self.rows, self.columns, difference(word, self.card.symbols));
        let weight = rank::weight_of(left);
        let spent = 2 * (weight.rank as usize) + self.rows.count() + self.columns.count();
        if 6 - message.k.value < spent {
            return None;
        }
        let found = Found {
            message,
            word,
            weight,
        };
        Some(found)
    }
}
