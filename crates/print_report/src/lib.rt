// What the programs do that print a report (SPECIFICATION 10.1 and 10.4): they read a book, from the file that the argument names or from
// standard input, and print its report. What is handed over to be printed is proved to be the report.
// No contract can say which bytes are read or written.
#![tactic(auto)]

ghost use Rattle.std.specs.Prelude.{◌≡◌, ◌≤◌, length};
ghost use Rattle.report.specs.Reports.{report, longest};

use report::Kind;

// Prints the report on a book, and answers how many of its bytes were taken. The book is taken for the premise alone: a caller can hand over no
// other text. That this text is what is printed stands in the one line below, as no contract can say what is written.
fn print_text(rt: &HostRuntime, kind: Kind, book: &[u8], text: &[u8]) -> usize
    requires { text.now ≡ report kind book.now }
    ensures { result ≤ length (report kind book.now) }
{
    streams::print(rt, text)
}

// Reports on a book, and answers the same. The text is lent for the report.
#[tactic(auto, using(report::specs::Answers::answer_within, report::specs::Answers::answer_reported, std::proofs::lemmas::Grind::common_steps))]
fn print(rt: &HostRuntime, kind: Kind, book: &[u8], text: &mut [u8]) -> usize
    requires { longest ≤ length text.old }
    ensures { result ≤ length (report kind book.now) }
{
    match report::write_report(kind, book, text) {
        Err(_) => 0,
        Ok(size) => print_text(rt, kind, book, &text[..size as usize]),
    }
}

// Reads a book and prints its report: how many bytes were taken, 0 if it could not be read. A book has at most 65,536 bytes: one byte more
// says that there is more.
#[tactic(auto, using(report::specs::Sizes::report_within))]
pub fn run(rt: &HostRuntime, kind: Kind, usage: &[u8]) -> usize
    ensures { result ≤ longest }
{
    let mut buffer = [0u8; 65537];
    let mut text = [0u8; 131072];
    match streams::read_book(rt, usage, &mut buffer) {
        None => 0,
        Some(n) => print(rt, kind, &buffer[..n], &mut text),
    }
}
