// Says of each tune of a book where wear gathers (SPECIFICATION 10.4): the book is in the file that the argument names, or on standard input.
// No contract can say which bytes are read or written.
#![tactic(auto)]

use report::Kind;

fn main(rt: HostRuntime) {
    print_report::run(&rt, Kind::Wear, b"usage: wear_book [FILE]\n");
}
