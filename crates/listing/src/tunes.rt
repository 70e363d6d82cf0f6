// The text of a tune in a listing. Each card is decoded once.
ghost use Rattle.std.specs.Prelude.{◌≡◌};
ghost use Rattle.refusal.specs.Replies.{reply};
ghost use Rattle.book.specs.Reading.{cards_in};
ghost use Rattle.book.specs.Bodies.{total_delay};
ghost use Rattle.text.specs.Writing.{HasRoom, Writes};
ghost use Rattle.listing.specs.Listing.{card_lines, body_text, tune_text};

use crate::lines::{push_card, push_ticks, push_tune};
use book::{Body, Entry};
use refusal::Refusal;
use text::Lent;

// The lines of all cards of a body, and the sum of the delays or the first refusal. Each card is decoded once, for both.
fn push_cards(text: &mut Lent<'_, u8>, body: &Body<'_>) -> Result<u32, Refusal>
    requires { HasRoom text.old (card_lines (cards_in body.now.bytes.now) body.now.bytes.now) }
    ensures writes { Writes text.old (card_lines (cards_in body.now.bytes.now) body.now.bytes.now) text.new }
    ensures ticks { reply result ≡ total_delay body.now.bytes.now }
{
    let mut ticks = Ok(0);
    for n in 1..body.count() + 1 {
        let read = body.card(n);
        push_card(text, n, read);
        ticks = book::add_delay(ticks, read);
    }
    ticks
}

// The card lines of a body, and its last line.
fn push_body(text: &mut Lent<'_, u8>, body: &Body<'_>)
    requires { HasRoom text.old (body_text body.now.bytes.now) }
    ensures { Writes text.old (body_text body.now.bytes.now) text.new }
{
    let ticks = push_cards(text, body);
    push_ticks(text, ticks);
}

// The tune of an entry.
pub fn write_tune(entry: &Entry<'_>, text: &mut Lent<'_, u8>)
    requires { HasRoom text.old (tune_text entry.now.book.now entry.now.place) }
    ensures { Writes text.old (tune_text entry.now.book.now entry.now.place) text.new }
{
    push_tune(text, entry.tune());
    push_body(text, &entry.body());
}
