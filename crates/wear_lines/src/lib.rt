// What a wear report says of a tune: where wear gathers most in it, in one line (SPECIFICATION 9.3), written into a list that the caller lends.
#![tactic(auto)]

ghost use Rattle.text.specs.Writing.{HasRoom, Writes};
ghost use Rattle.wear_lines.specs.WearLines.{run_line, short_line, wear_line};

use book::Entry;
use text::Lent;
use wear::Run;

// How many cards in a row are taken together.
const WIDTH: u32 = 8;

// The line of a tune: tune number, sum, first card.
#[tactic(auto, using(text::proofs::WritingLaws::writing), unfolding(crate::specs::WearLines::run_line))]
fn push_run(text: &mut Lent<'_, u8>, number: u32, run: Run)
    requires { HasRoom text.old (run_line number run) }
    ensures { Writes text.old (run_line number run) text.new }
{
    text.push_decimal(number);
    text.push_spaced(run.sum);
    text.push_spaced(run.first);
    text.push(b'\n');
}

// The line of a tune with fewer cards.
#[tactic(auto, using(text::proofs::WritingLaws::writing), unfolding(crate::specs::WearLines::short_line))]
fn push_short(text: &mut Lent<'_, u8>, number: u32)
    requires { HasRoom text.old (short_line number) }
    ensures { Writes text.old (short_line number) text.new }
{
    text.push_decimal(number);
    text.extend_from_slice(b" short\n");
}

// The line of the tune of an entry.
pub fn write_tune(entry: &Entry<'_>, text: &mut Lent<'_, u8>)
    requires { HasRoom text.old (wear_line entry.now.book.now entry.now.place) }
    ensures { Writes text.old (wear_line entry.now.book.now entry.now.place) text.new }
{
    let number = entry.tune().number;
    match wear::worst_run(entry.body().bytes, WIDTH) {
        Ok(run) => push_run(text, number, run),
        Err(_) => push_short(text, number),
    }
}
