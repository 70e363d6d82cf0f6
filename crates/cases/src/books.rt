// Calls of the writer, read from a line and run. Of tune numbers and counts the first 16 are taken, of strikes the first 96 numbers, of a
// book the first 4,096 bytes. No contract can say what is written.
use crate::parse::Words;
use crate::print;

pub(crate) fn write_book(out: &impl Print, words: &mut Words) {
    let mut numbers = [0u16; 16];
    let mut counts = [0u16; 16];
    let mut strikes = [0u16; 96];
    let mut book = [0u8; 4096];
    let numbers = words.list(&mut numbers);
    let counts = words.list(&mut counts);
    let strikes = words.list(&mut strikes);
    let book = words.list(&mut book);
    print::outcome(out, writer::write_book(numbers, counts, strikes, book));
    print::list(out, book);
}

pub(crate) fn book_size(out: &impl Print, words: &mut Words) {
    let mut counts = [0u16; 16];
    let counts = words.list(&mut counts);
    print::answer(out, writer::book_size(counts).map(|size| [size]));
}
