// Presses a tune book from a text of tunes (SPECIFICATION 10.2): the text is in the file that the argument names, or on standard input. The book
// goes to standard output, or a line to standard error that says why there is none. What is handed over for either is proved to be that.
// No contract can say which bytes are read or written.
#![tactic(auto)]

ghost use Rattle.std.specs.Prelude.{◌≡◌, ◌<◌, length};
ghost use Rattle.tune_text.specs.Reading.{longest_text};
ghost use Rattle.streams.specs.Inputs.{Within};
ghost use Rattle.pressing.specs.Pressing.{said, pressed};

// Prints the book of a text, which has no bytes if something is said. The text is taken for the premise alone: a caller can hand over no other
// book. That this book is what is printed stands in the one line below, as no contract can say what is written.
fn print_book(rt: &HostRuntime, text: &[u8], book: &[u8])
    requires { book.now ≡ pressed text.now }
{
    streams::print(rt, book);
}

// Says the line of a text, in the same way.
fn say_line(rt: &HostRuntime, text: &[u8], line: &[u8])
    requires { line.now ≡ said text.now }
{
    let _ = rt.stderr().write_all(line);
}

// Presses a text: its book is printed and its line said. Of no bytes nothing is written.
fn press(rt: &HostRuntime, text: &[u8]) {
    let mut numbers = [0u16; 131072];
    let mut counts = [0u16; 131072];
    let mut strikes = [0u16; 131072];
    let mut book = [0u8; 65536];
    let mut line = [0u8; 64];
    let lengths = pressing::press(
        text,
        &mut numbers,
        &mut counts,
        &mut strikes,
        &mut book,
        &mut line,
    );
    if let Ok(lengths) = lengths {
        print_book(rt, text, &book[..lengths.book]);
        say_line(rt, text, &line[..lengths.line]);
    }
}

// Reads a text: all of the input, or one byte more than a text may have at least, by which it is too long.
fn read_text(rt: &HostRuntime, buffer: &mut [u8]) -> Option<usize>
    requires { longest_text < length buffer.old }
    ensures { Within result buffer.new }
{
    streams::read_input(rt, b"usage: press_book [FILE]\n", buffer)
}

fn main(rt: HostRuntime) {
    let mut text = [0u8; 131073];
    if let Some(n) = read_text(&rt, &mut text) {
        press(&rt, &text[..n]);
    }
}
