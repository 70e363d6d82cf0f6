// Calls of the operations of the code, read from a line and run. What is lent to be filled is printed as it is left.
// Of a list the first 16 values are taken: the longest that is right has 10.
// No contract can say what is written.
use crate::parse::Words;
use crate::print;

pub(crate) fn encode(out: &impl Print, words: &mut Words) {
    let mut message = [0u16; 16];
    let mut word = [0u16; 16];
    let k = words.number();
    let message = words.list(&mut message);
    let word = words.list(&mut word);
    print::outcome(out, codec::encode(k, message, word));
    print::list(out, word);
}

pub(crate) fn weigh(out: &impl Print, words: &mut Words) {
    let mut symbols = [0u16; 16];
    let symbols = words.list(&mut symbols);
    print::answer(out, rank::weigh(symbols).map(|weight| [weight.rank]));
}

pub(crate) fn syndrome(out: &impl Print, words: &mut Words) {
    let mut received = [0u16; 16];
    let mut values = [0u16; 16];
    let k = words.number();
    let received = words.list(&mut received);
    let values = words.list(&mut values);
    print::outcome(out, codec::syndrome(k, received, values));
    print::list(out, values);
}

pub(crate) fn decode(out: &impl Print, words: &mut Words) {
    let mut received = [0u16; 16];
    let mut word = [0u16; 16];
    let mut message = [0u16; 16];
    let k = words.number();
    let received = words.list(&mut received);
    let word = words.list(&mut word);
    let message = words.list(&mut message);
    let damage = decoder::decode(k, received, word, message);
    print::answer(out, damage.map(|weight| [weight.rank]));
    print::list(out, word);
    print::list(out, message);
}

pub(crate) fn decode_dead(out: &impl Print, words: &mut Words) {
    let mut received = [0u16; 16];
    let mut word = [0u16; 16];
    let mut message = [0u16; 16];
    let k = words.number();
    let rows = words.number();
    let columns = words.number();
    let received = words.list(&mut received);
    let word = words.list(&mut word);
    let message = words.list(&mut message);
    let damage = dead_decoder::decode_dead(k, received, rows, columns, word, message);
    print::answer(out, damage.map(|rank| [rank]));
    print::list(out, word);
    print::list(out, message);
}
