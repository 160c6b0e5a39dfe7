// Reads a book from the file that is named, or from standard input, and prints how many values each of its definitions has, or its refusal: a line
// for each name that has one, ascending, as `"flag" 2`, or `"a" many` where there are more than 4,294,967,295 or no end of them. A book without
// definitions prints nothing. What is printed is proved; a read or a write that fails is told on standard error.
#![tactic(auto)]

ghost use Rattle.std.specs.Prelude.{◌≤◌, ◌<◌, ◌≡◌, length};
ghost use Rattle.format.specs.Within.{full};
ghost use Rattle.format.specs.Admission.{◌under◌};
ghost use Rattle.passed.specs.Checked.{book_of};
ghost use Rattle.print.specs.Laid.{Lays, LaysWithin};
ghost use Rattle.values.specs.Printed.{number, line, lines, counted, printed};

use book::tables::NameIndex;
use format::Limits;
use inhabitants::counting::NodeValues;
use passed::CheckedBook;
use print::Text;
use refusals::Count;
use stdio::Program;

// How many there are.
fn number(count: Count, text: &mut Text)
    ensures { Lays (number count) text.old text.new }
{
    match count {
        Count::Exactly(n) => text.decimal(n as u64),
        Count::Many => text.bytes(b"many"),
    }
}

// The line of a name.
fn line(name: &[u8], count: Count, text: &mut Text)
    ensures { Lays (line name.now count) text.old text.new }
{
    text.quoted(name);
    text.byte(b' ');
    number(count, text);
    text.byte(b'\n');
}

// The lines of all names that have a definition, which are counted once.
fn lines(book: &CheckedBook, text: &mut Text)
    ensures { Lays (lines book.now.book.bytes.now (counted (book_of book.now))) text.old text.new }
{
    let names = NameIndex::of(book.book);
    let mut numbers = NodeValues::new();
    book.count_values(&mut numbers);
    for n in 0..book.book.contents.names {
        if let Ok(count) = book.values_in(&numbers, n as u16) {
            line(names.name(n), count, text);
        }
    }
}

// All that is printed for the bytes of a book.
fn print_book(book: &[u8], text: &mut Text)
    ensures { LaysWithin 409600 (printed book.now) text.old text.new }
{
    match CheckedBook::pass(book, Limits::full()) {
        Ok(passed) => lines(&passed, text),
        Err(why) => text.refusal(why, book),
    }
}

// The same in a buffer, which has room for it.
fn print<'a>(book: &[u8], out: &'a mut [u8]) -> &'a [u8]
    requires { 409600 ≤ length out.old }
    ensures { (result.now ≡ printed book.now) × (length result.now < 409600) }
{
    let mut text = Text::new(out);
    print_book(book, &mut text);
    text.into_laid()
}

// More bytes than are ever printed.
const ROOM_FOR_PRINT: usize = 409600;

fn main(rt: HostRuntime) {
    let values = Program {
        rt: &rt,
        name: b"values",
    };
    let mut input = [0; Limits::ROOM];
    let Some(book) = values.read(&mut input) else {
        return;
    };
    let mut out = [0; ROOM_FOR_PRINT];
    values.write(print(book, &mut out));
}
