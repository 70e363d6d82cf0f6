// Calls of the operations of tune books, read from a line and run. Of a book or a body the first 4,096 bytes are taken.
// No contract can say what is written.
use crate::parse::Words;
use crate::print;

pub(crate) fn open(out: &impl Print, words: &mut Words) {
    let mut bytes = [0u8; 4096];
    let bytes = words.list(&mut bytes);
    print::answer(out, book::open(bytes).map(|count| [count]));
}

pub(crate) fn tune_body(out: &impl Print, words: &mut Words) {
    let mut bytes = [0u8; 4096];
    let number = words.number();
    let bytes = words.list(&mut bytes);
    let place = book::find_tune(bytes, number).map(|()| {
        let start = book::tune_offset(bytes, number);
        let body = book::tune_body(bytes, number);
        [start as usize, body.len()]
    });
    print::answer(out, place);
}

pub(crate) fn read_card(out: &impl Print, words: &mut Words) {
    let mut bytes = [0u8; 4096];
    let number = words.number();
    let bytes = words.list(&mut bytes);
    let numbers = book::read_card(bytes, number).map(|reading| {
        let strike = reading.strike;
        [strike.bell, strike.force, strike.delay, reading.damage.rank]
    });
    print::answer(out, numbers);
}

pub(crate) fn total_delay(out: &impl Print, words: &mut Words) {
    let mut bytes = [0u8; 4096];
    let bytes = words.list(&mut bytes);
    print::answer(out, book::total_delay(bytes).map(|ticks| [ticks]));
}

// Card 0 says that no card is damaged.
pub(crate) fn damaged_card(out: &impl Print, words: &mut Words) {
    let mut bytes = [0u8; 4096];
    let bytes = words.list(&mut bytes);
    let card = book::damaged_card(bytes);
    print::answer(out, card.map(|card| [card.unwrap_or(0)]));
}

pub(crate) fn worst_run(out: &impl Print, words: &mut Words) {
    let mut bytes = [0u8; 4096];
    let width = words.number();
    let bytes = words.list(&mut bytes);
    let run = wear::worst_run(bytes, width);
    print::answer(out, run.map(|run| [run.sum, run.first]));
}

pub(crate) fn tune_at(out: &impl Print, words: &mut Words) {
    let mut bytes = [0u8; 4096];
    let place = words.number();
    let bytes = words.list(&mut bytes);
    let tune = book::tune_at(bytes, place);
    print::answer(out, tune.map(|tune| [tune.number, tune.cards]));
}
