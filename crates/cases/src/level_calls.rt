// Calls of the operations of the cable, read from a line and run. Of a list the first 16 numbers are taken, of samples the first 48.
// No contract can say what is written.
use crate::parse::Words;
use crate::print;

pub(crate) fn signed(out: &impl Print, words: &mut Words) {
    print::answer(out, cable::signed(words.number()).map(|number| [number]));
}

pub(crate) fn symbol(out: &impl Print, words: &mut Words) {
    print::answer(out, cable::symbol(words.number()).map(|symbol| [symbol]));
}

pub(crate) fn levels(out: &impl Print, words: &mut Words) {
    let mut card = [0u16; 16];
    let mut numbers = [0i16; 16];
    let card = words.list(&mut card);
    let numbers = words.list(&mut numbers);
    print::outcome(out, cable::levels(card, numbers));
    print::list(out, numbers);
}

pub(crate) fn symbols(out: &impl Print, words: &mut Words) {
    let mut numbers = [0i16; 16];
    let mut card = [0u16; 16];
    let numbers = words.list(&mut numbers);
    let card = words.list(&mut card);
    print::outcome(out, cable::symbols(numbers, card));
    print::list(out, card);
}

pub(crate) fn receive(out: &impl Print, words: &mut Words) {
    let mut samples = [0i16; 48];
    let mut card = [0u16; 16];
    let samples = words.list(&mut samples);
    let card = words.list(&mut card);
    print::outcome(out, cable::receive(samples, card));
    print::list(out, card);
}
