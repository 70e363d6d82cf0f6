// The lines of a listing. They are functions and not methods of `Lent`, which is a type of another crate.
ghost use Rattle.refusal.specs.Replies.{reply, number};
ghost use Rattle.book.specs.Reading.{read_reply};
ghost use Rattle.text.specs.Writing.{HasRoom, Writes};
ghost use Rattle.listing.specs.Listing.{strike_line, refused_line, card_line, tune_line, ticks_line};

use book::{Reading, Tune};
use refusal::Refusal;
use text::Lent;

// The line of a card that was read: card, bell, force, delay, rank of damage.
#[tactic(auto, using(text::proofs::WritingLaws::writing), unfolding(crate::specs::Listing::strike_line))]
fn push_reading(text: &mut Lent<'_, u8>, n: u32, read: Reading)
    requires { HasRoom text.old (strike_line n read.strike read.damage) }
    ensures { Writes text.old (strike_line n read.strike read.damage) text.new }
{
    text.push_decimal(n);
    text.push_spaced(read.strike.bell);
    text.push_spaced(read.strike.force);
    text.push_spaced(read.strike.delay);
    text.push_spaced(read.damage.rank);
    text.push(b'\n');
}

// The line of a card that was refused: card and refusal.
#[tactic(auto, using(text::proofs::WritingLaws::writing), unfolding(crate::specs::Listing::refused_line))]
fn push_refused(text: &mut Lent<'_, u8>, n: u32, why: Refusal)
    requires { HasRoom text.old (refused_line n (number why)) }
    ensures { Writes text.old (refused_line n (number why)) text.new }
{
    text.push_decimal(n);
    text.extend_from_slice(b" refused");
    text.push_spaced(why.into());
    text.push(b'\n');
}

// The line of a card.
#[tactic(auto, using(crate::specs::Lines::line_strike, crate::specs::Lines::line_refused))]
pub(crate) fn push_card(text: &mut Lent<'_, u8>, n: u32, read: Result<Reading, Refusal>)
    requires { HasRoom text.old (card_line n (read_reply read)) }
    ensures { Writes text.old (card_line n (read_reply read)) text.new }
{
    match read {
        Ok(card) => push_reading(text, n, card),
        Err(why) => push_refused(text, n, why),
    }
}

// The first line of a tune: tune number, cards.
#[tactic(auto, using(text::proofs::WritingLaws::writing), unfolding(crate::specs::Listing::tune_line))]
pub(crate) fn push_tune(text: &mut Lent<'_, u8>, tune: Tune)
    requires { HasRoom text.old (tune_line tune.number tune.cards) }
    ensures { Writes text.old (tune_line tune.number tune.cards) text.new }
{
    text.extend_from_slice(b"tune");
    text.push_spaced(tune.number);
    text.push_spaced(tune.cards);
    text.push(b'\n');
}

// The last line of a tune: the sum of its delays, which is unknown if a card was refused.
#[tactic(auto, using(crate::specs::Lines::ticks_value, crate::specs::Lines::ticks_refused))]
pub(crate) fn push_ticks(text: &mut Lent<'_, u8>, ticks: Result<u32, Refusal>)
    requires { HasRoom text.old (ticks_line (reply ticks)) }
    ensures { Writes text.old (ticks_line (reply ticks)) text.new }
{
    match ticks {
        Ok(sum) => text.push_word_line(b"ticks", sum),
        Err(_) => text.extend_from_slice(b"ticks unknown\n"),
    }
}
