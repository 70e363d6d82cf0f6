// The C interface (include/lucetcoral.h): numbers and lists only, thin over the library. Each function returns 0 when done, or the refusal's
// number; a refusal changes nothing that is lent.
#![tactic(auto)]

ghost use Rattle.std.specs.Prelude.{◌≡◌, map, length};
ghost use Rattle.std.specs.Result.{result_unwrap_or};
ghost use Rattle.algebra.specs.Search.{or_zero};
ghost use Rattle.refusal.specs.Replies.{outcome, Gives};
ghost use Rattle.rank.specs.Weight.{weight_of, weight_refusal};
ghost use Rattle.levels.specs.Levels.{signed_of, symbol_of, received};
ghost use Rattle.cable.specs.Operations.{levels_refusal, symbols_refusal, receive_refusal};
ghost use Rattle.book.specs.Layout.{tunes};
ghost use Rattle.book.specs.Open.{open_refusal};
ghost use Rattle.book.specs.Bodies.{body_refusal, total_delay, first_damaged};
ghost use Rattle.wear.specs.Wear.{worst_run, wear_refusal};
ghost use Rattle.writer.specs.Writing.{book_length, size_refusal};
ghost use Rattle.capi.specs.Calls.{Encodes, Tests, Decodes, DecodesDead, Pulls, Lists, Reads, Writes, Fills};

use book::Entry;
use refusal::Refusal;
use report::Kind;

// An answer in two numbers: the refusal's number is returned, and the value is given where there is none.
fn give<T: Copy>(answer: Result<T, Refusal>, value: &mut T) -> u32
    ensures refusal { result ≡ outcome answer }
    ensures given { value.new ≡ result_unwrap_or answer value.old }
{
    match answer {
        Ok(v) => {
            *value = v;
            0
        },
        Err(why) => why.into(),
    }
}

// The word of a message (document 01: Press).
#[unsafe(no_mangle)]
pub extern "C" fn lucetcoral_encode(k: u32, message: &[u16], word: &mut [u16]) -> u32
    ensures { Encodes k message.now word.old result word.new }
{
    refusal::outcome_number(codec::encode(k, message, word))
}

// The rank of a card (document 01: Weigh).
#[unsafe(no_mangle)]
pub extern "C" fn lucetcoral_weight(symbols: &[u16], rank: &mut u32) -> u32
    ensures { Gives (weight_refusal symbols.now) (weight_of symbols.now).rank rank.old result rank.new }
{
    give(rank::weigh(symbols).map(|weight| weight.rank), rank)
}

// The test values of a card (document 01: Test).
#[unsafe(no_mangle)]
pub extern "C" fn lucetcoral_syndrome(k: u32, received: &[u16], values: &mut [u16]) -> u32
    ensures { Tests k received.now values.old result values.new }
{
    refusal::outcome_number(codec::syndrome(k, received, values))
}

// The word near a card, its message and the rank of the difference (document 01: Mend).
#[unsafe(no_mangle)]
pub extern "C" fn lucetcoral_decode(
    k: u32,
    received: &[u16],
    word: &mut [u16],
    message: &mut [u16],
    distance: &mut u32,
) -> u32
    ensures { Decodes k received.now word.old message.old distance.old result word.new message.new distance.new }
{
    let weight = decoder::decode(k, received, word, message);
    give(weight.map(|weight| weight.rank), distance)
}

// The word near a card but for its dead lines, its message, and the rank of what is left of the difference (document 02, P4).
#[unsafe(no_mangle)]
pub extern "C" fn lucetcoral_decode_dead(
    k: u32,
    received: &[u16],
    dead_rows: u32,
    dead_columns: u32,
    word: &mut [u16],
    message: &mut [u16],
    rank: &mut u32,
) -> u32
    ensures { DecodesDead k received.now dead_rows dead_columns word.old message.old rank.old result word.new message.new rank.new }
{
    give(
        dead_decoder::decode_dead(k, received, dead_rows, dead_columns, word, message),
        rank,
    )
}

// The levels of a card, as six signed numbers (document 02, P6).
#[unsafe(no_mangle)]
pub extern "C" fn lucetcoral_levels(card: &[u16], levels: &mut [i16]) -> u32
    ensures { Gives (levels_refusal card.now (length levels.old)) (map signed_of card.now) levels.old result levels.new }
{
    refusal::outcome_number(cable::levels(card, levels))
}

// The card of six signed numbers (document 02, P6).
#[unsafe(no_mangle)]
pub extern "C" fn lucetcoral_symbols(levels: &[i16], card: &mut [u16]) -> u32
    ensures { Gives (symbols_refusal levels.now (length card.old)) (map symbol_of levels.now) card.old result card.new }
{
    refusal::outcome_number(cable::symbols(levels, card))
}

// The card received as 36 samples (document 02, P6).
#[unsafe(no_mangle)]
pub extern "C" fn lucetcoral_receive(samples: &[i16], card: &mut [u16]) -> u32
    ensures { Gives (receive_refusal samples.now (length card.old)) (received samples.now) card.old result card.new }
{
    refusal::outcome_number(cable::receive(samples, card))
}

// The number of tunes of a book (document 01: Open).
#[unsafe(no_mangle)]
pub extern "C" fn lucetcoral_open(book: &[u8], count: &mut u32) -> u32
    ensures { Gives (open_refusal book.now) (tunes book.now) count.old result count.new }
{
    give(book::open(book), count)
}

// A tune's part of the book, as its offset and its length (document 01: Pull).
#[tactic(auto, using(book::specs::Bounds::good_length))]
#[unsafe(no_mangle)]
pub extern "C" fn lucetcoral_tune_body(
    book: &[u8],
    number: u32,
    offset: &mut u32,
    length: &mut u32,
) -> u32
    ensures { Pulls book.now number offset.old length.old result offset.new length.new }
{
    let entry = Entry::find(book, number);
    give(entry.map(|entry| entry.offset()), offset);
    give(entry.map(|entry| entry.body().bytes.len() as u32), length)
}

// The tune at a place of the contents.
#[unsafe(no_mangle)]
pub extern "C" fn lucetcoral_tune_at(
    book: &[u8],
    place: u32,
    number: &mut u32,
    cards: &mut u32,
) -> u32
    ensures { Lists book.now place number.old cards.old result number.new cards.new }
{
    let tune = book::tune_at(book, place);
    give(tune.map(|tune| tune.number), number);
    give(tune.map(|tune| tune.cards), cards)
}

// A card of a body: its strike and the rank of its damage (document 01: Read).
#[unsafe(no_mangle)]
pub extern "C" fn lucetcoral_read_card(
    body: &[u8],
    number: u32,
    bell: &mut u32,
    force: &mut u32,
    delay: &mut u32,
    damage: &mut u32,
) -> u32
    ensures { Reads body.now number bell.old force.old delay.old damage.old result bell.new force.new delay.new damage.new }
{
    let read = book::read_card(body, number);
    give(read.map(|read| read.strike.bell), bell);
    give(read.map(|read| read.strike.force), force);
    give(read.map(|read| read.strike.delay), delay);
    give(read.map(|read| read.damage.rank), damage)
}

// The sum of the delays of all cards, or the refusal of the first card that is refused (document 01: Length).
#[unsafe(no_mangle)]
pub extern "C" fn lucetcoral_total_delay(body: &[u8], ticks: &mut u32) -> u32
    ensures { Gives (total_delay body.now).refusal (total_delay body.now).value ticks.old result ticks.new }
{
    give(book::total_delay(body), ticks)
}

// The number of the first damaged card, 0 for none (document 01: Worn).
#[unsafe(no_mangle)]
pub extern "C" fn lucetcoral_damaged_card(body: &[u8], card: &mut u32) -> u32
    ensures { Gives (body_refusal body.now) (or_zero (first_damaged body.now)) card.old result card.new }
{
    give(book::damaged_card(body).map(|card| card.unwrap_or(0)), card)
}

// The largest sum of wear over `width` cards in a row, and the first card at which such a run begins (document 02, P7).
#[unsafe(no_mangle)]
pub extern "C" fn lucetcoral_wear(body: &[u8], width: u32, sum: &mut u32, first: &mut u32) -> u32
    ensures sum_given { Gives (wear_refusal body.now width) (worst_run body.now width).sum sum.old result sum.new }
    ensures first_given { Gives (wear_refusal body.now width) (worst_run body.now width).first first.old result first.new }
{
    let run = wear::worst_run(body, width);
    give(run.map(|run| run.sum), sum);
    give(run.map(|run| run.first), first)
}

// The listing of a book.
#[unsafe(no_mangle)]
pub extern "C" fn lucetcoral_list(book: &[u8], text: &mut [u8], written: &mut usize) -> u32
    ensures { Writes book.now text.old written.old result text.new written.new }
{
    let size = report::write_report(Kind::Listing, book, text);
    give(size.map(|size| size as usize), written)
}

// A book filled from tune numbers, counts of cards and strikes.
#[unsafe(no_mangle)]
pub extern "C" fn lucetcoral_write_book(
    numbers: &[u16],
    counts: &[u16],
    strikes: &[u16],
    book: &mut [u8],
) -> u32
    ensures { Fills numbers.now counts.now strikes.now book.old result book.new }
{
    refusal::outcome_number(writer::write_book(numbers, counts, strikes, book))
}

// How many bytes a book with these counts of cards has.
#[unsafe(no_mangle)]
pub extern "C" fn lucetcoral_book_size(counts: &[u16], size: &mut usize) -> u32
    ensures { Gives (size_refusal counts.now) (book_length counts.now) size.old result size.new }
{
    give(writer::book_size(counts).map(|size| size as usize), size)
}
