// Each operation, called and nothing else, with what is demanded of it as its contract (specs/Demands.antt). The prover ties the demand to the
// operation's own contract: weaken that one, and this crate is no longer proved.
#![tactic(auto)]

ghost use Rattle.std.specs.Prelude.{List, ℕ, length};
ghost use Rattle.refusal.specs.Replies.{outcome, reply};
ghost use Rattle.rank.specs.Weight.{weight_reply};
ghost use Rattle.cable.specs.Operations.{signed_reply};
ghost use Rattle.book.specs.Reading.{read_reply};
ghost use Rattle.book.specs.Bodies.{worn_reply};
ghost use Rattle.wear.specs.Wear.{wear_reply};
ghost use Rattle.demands.specs.Demands.{PressSays, WeighSays, TestSays, MendSays, MendDeadSays, MendsAlike};
ghost use Rattle.demands.specs.Demands.{OpenSays, PullSays, ReadSays, LengthSays, WornSays, WearSays, WriteSays, SizeSays};
ghost use Rattle.demands.specs.Demands.{SignedSays, SymbolSays, LevelsSays, SymbolsSays, ReceiveSays, MendsSent};

use book::Reading;
use rank::Weight;
use refusal::Refusal;
use wear::Run;

// The list is filled with the word of the message (document 01: Press).
#[tactic(auto, using(crate::proofs::CardDemands::press_says))]
pub fn encode(k: u32, message: &[u16], word: &mut [u16]) -> Result<(), Refusal>
    ensures { PressSays k message.now (outcome result) word.old word.new }
{
    codec::encode(k, message, word)
}

// The answer is the rank of the card (document 01: Weigh).
#[tactic(auto, using(crate::proofs::CardDemands::weigh_says))]
pub fn weigh(symbols: &[u16]) -> Result<Weight, Refusal>
    ensures { WeighSays symbols.now (weight_reply result) }
{
    rank::weigh(symbols)
}

// The list is filled with the test values of the card (document 01: Test).
#[tactic(auto, using(crate::proofs::CardDemands::test_says))]
pub fn syndrome(k: u32, card: &[u16], values: &mut [u16]) -> Result<(), Refusal>
    ensures { TestSays k card.now (outcome result) values.old values.new }
{
    codec::syndrome(k, card, values)
}

// The lists are filled with the one word near the card and its message, or the refusal is 4 exactly if no word is near (document 01: Mend).
#[tactic(auto, using(crate::proofs::CardDemands::mend_says))]
pub fn decode(
    k: u32,
    received: &[u16],
    word: &mut [u16],
    message: &mut [u16],
) -> Result<Weight, Refusal>
    ensures { MendSays k received.now (weight_reply result) word.old word.new message.old message.new }
{
    decoder::decode(k, received, word, message)
}

// The lists are filled with the one word near the card but for its dead lines and its message, or the refusal is 4 exactly if no word is near so
// (document 02, P4).
#[tactic(auto, using(crate::proofs::CardDemands::mend_dead_says))]
pub fn decode_dead(
    k: u32,
    received: &[u16],
    rows: u32,
    columns: u32,
    word: &mut [u16],
    message: &mut [u16],
) -> Result<u32, Refusal>
    ensures { MendDeadSays k received.now rows columns (reply result) word.old word.new message.old message.new }
{
    dead_decoder::decode_dead(k, received, rows, columns, word, message)
}

// With no dead line it answers and fills in what Mend does (document 02, P4).
#[tactic(auto, using(crate::proofs::CardDemands::mends_alike))]
pub fn decode_none_dead(
    k: u32,
    received: &[u16],
    word: &mut [u16],
    message: &mut [u16],
) -> Result<u32, Refusal>
    ensures { MendsAlike k received.now (reply result) word.old word.new message.old message.new }
{
    dead_decoder::decode_dead(k, received, 0, 0, word, message)
}

// The answer is the number of tunes (document 01: Open).
#[tactic(auto, using(crate::proofs::BookDemands::open_says))]
pub fn open(book: &[u8]) -> Result<u32, Refusal>
    ensures { OpenSays book.now (reply result) }
{
    book::open(book)
}

// The outcome says whether the tune is there; the part is what `tune_body` gives back (`pull_settled`) (document 01: Pull).
#[tactic(auto, using(crate::proofs::BookDemands::find_says))]
pub fn find_tune(book: &[u8], number: u32) -> Result<(), Refusal>
    ensures { (part : List ℕ) × PullSays book.now number (outcome result) part }
{
    book::find_tune(book, number)
}

// What is given back is the tune's own part of the book; the refusal is what `find_tune` says (document 01: Pull).
#[tactic(auto, using(crate::proofs::BookDemands::body_says))]
pub fn tune_body(book: &[u8], number: u32) -> &[u8]
    ensures { (refusal : ℕ) × PullSays book.now number refusal result.now }
{
    book::tune_body(book, number)
}

// The answer is the strike of the message near the card, with its damage (document 01: Read).
#[tactic(auto, using(crate::proofs::BookDemands::read_says))]
pub fn read_card(body: &[u8], number: u32) -> Result<Reading, Refusal>
    ensures { ReadSays body.now number (read_reply result) }
{
    book::read_card(body, number)
}

// The answer is the sum of the delays of all cards, or the refusal of the first card that is refused (document 01: Length).
#[tactic(auto, using(crate::proofs::BookDemands::length_says))]
pub fn total_delay(body: &[u8]) -> Result<u32, Refusal>
    ensures { LengthSays body.now (reply result) }
{
    book::total_delay(body)
}

// The answer is the first damaged card, or none exactly if there is none (document 01: Worn).
#[tactic(auto, using(crate::proofs::BookDemands::worn_says))]
pub fn damaged_card(body: &[u8]) -> Result<Option<u32>, Refusal>
    ensures { WornSays body.now (worn_reply result) }
{
    book::damaged_card(body)
}

// The answer is the largest sum of wear over so many cards in a row, and the first card at which such a run begins (document 02, P7).
#[tactic(auto, using(crate::proofs::WearDemands::wear_says))]
pub fn worst_run(body: &[u8], width: u32) -> Result<Run, Refusal>
    ensures { WearSays body.now width (wear_reply result) }
{
    wear::worst_run(body, width)
}

// The lent book is filled with the book of the lists, which shows them (document 02, P1).
#[tactic(auto, using(crate::proofs::BookDemands::write_says))]
pub fn write_book(
    numbers: &[u16],
    counts: &[u16],
    strikes: &[u16],
    book: &mut [u8],
) -> Result<(), Refusal>
    ensures { WriteSays numbers.now counts.now strikes.now (outcome result) book.old book.new }
{
    writer::write_book(numbers, counts, strikes, book)
}

// The answer is how many bytes a book with these counts of cards has (document 02, P1).
#[tactic(auto, using(crate::proofs::BookDemands::size_says))]
pub fn book_size(counts: &[u16]) -> Result<u32, Refusal>
    ensures { SizeSays counts.now (reply result) }
{
    writer::book_size(counts)
}

// The answer is the signed number of the symbol (document 02, P6).
#[tactic(auto, using(crate::proofs::CableDemands::signed_says))]
pub fn signed(symbol: u16) -> Result<i16, Refusal>
    ensures { SignedSays symbol (signed_reply result) }
{
    cable::signed(symbol)
}

// The answer is the symbol whose signed number it is (document 02, P6).
pub fn symbol(number: i16) -> Result<u32, Refusal>
    ensures { SymbolSays number (reply result) }
{
    cable::symbol(number)
}

// The list is filled with the signed numbers of the card (document 02, P6).
#[tactic(auto, using(crate::proofs::CableDemands::levels_says))]
pub fn levels(card: &[u16], numbers: &mut [i16]) -> Result<(), Refusal>
    ensures { LevelsSays card.now (outcome result) numbers.old numbers.new }
{
    cable::levels(card, numbers)
}

// The list is filled with the card that has these signed numbers (document 02, P6).
#[tactic(auto, using(crate::proofs::CableDemands::symbols_says))]
pub fn symbols(numbers: &[i16], card: &mut [u16]) -> Result<(), Refusal>
    ensures { SymbolsSays numbers.now (outcome result) card.old card.new }
{
    cable::symbols(numbers, card)
}

// The list is filled with the card to whose digits' levels the samples fall (document 02, P6).
#[tactic(auto, using(crate::proofs::CableDemands::receive_says))]
pub fn receive(samples: &[i16], card: &mut [u16]) -> Result<(), Refusal>
    ensures { ReceiveSays samples.now (outcome result) card.old card.new }
{
    cable::receive(samples, card)
}

// Mend of a card that was received answers and fills in what it does of the card that was sent (document 02, P6).
#[tactic(auto, using(crate::proofs::CableDemands::mends_sent))]
pub fn decode_received(
    k: u32,
    samples: &[i16],
    card: &mut [u16],
    word: &mut [u16],
    message: &mut [u16],
) -> Result<Weight, Refusal>
    ensures { MendsSent k samples.now (length card.old) (weight_reply result) word.old word.new message.old message.new }
{
    let _ = cable::receive(samples, card);
    decoder::decode(k, card, word, message)
}
