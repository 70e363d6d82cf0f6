// Lists a tune book, tune by tune and card by card (SPECIFICATION 10.1): the book is in the file that the argument names, or on standard input.
// No contract can say which bytes are read or written.
#![tactic(auto)]

use report::Kind;

fn main(rt: HostRuntime) {
    print_report::run(&rt, Kind::Listing, b"usage: list_book [FILE]\n");
}
