// Reads a book from the file that is named first, or from standard input for `-`, and prints which methods change with the definitions of the names
// after it, or its refusal: a line for each method, in the order of their positions, with its name, as `"put"`. A name that the book has not changes
// none. What is printed is proved; a read or a write that fails is told on standard error.
#![tactic(auto)]

ghost use Rattle.std.specs.Prelude.{◌≡◌, ◌≤◌, ◌<◌, length, map};
ghost use Rattle.std.specs.List.{All};
ghost use Rattle.format.specs.Within.{full};
ghost use Rattle.format.specs.Admission.{◌under◌};
ghost use Rattle.passed.specs.Checked.{book_of};
ghost use Rattle.passed.specs.Stages.{BookPassed};
ghost use Rattle.print.specs.Laid.{Lays, LaysWithin};
ghost use Rattle.methods.specs.Asked.{ended};
ghost use Rattle.methods.specs.Printed.{name_at, line, lines, changed, text_of, printed};

mod asked;

use crate::asked::asked_numbers;
use book::tables::NameIndex;
use format::Limits;
use passed::CheckedBook;
use print::Text;
use stdio::Program;

// The line of a method.
fn line(name: &[u8], text: &mut Text)
    ensures { Lays (line name.now) text.old text.new }
{
    text.quoted(name);
    text.byte(b'\n');
}

// The lines of the methods at these positions.
fn lines(names: &NameIndex, offered: &[u16], positions: &[u16], text: &mut Text)
    requires { All (λ p. p < length offered.now) positions.now }
    ensures { Lays (lines names.now.book.bytes.now (map (name_at offered.now) positions.now)) text.old text.new }
{
    for p in positions {
        line(names.name(offered[*p as usize] as usize), text);
    }
}

// All that is printed of a book that passed.
fn print_passed(book: &CheckedBook, asked: &[u8], text: &mut Text)
    requires { BookPassed (book.now.book.bytes.now under full) book.now }
    ensures { LaysWithin 787201 (text_of book.now.book.bytes.now (changed (ended asked.now) (book_of book.now))) text.old text.new }
{
    let names = NameIndex::of(book.book);
    let mut positions = [0; Limits::NODES];
    match book.methods(asked_numbers(&names, asked).as_slice(), &mut positions) {
        Ok(count) => lines(
            &names,
            book.method_names().as_slice(),
            &positions[..count],
            text,
        ),
        Err(why) => text.refusal(why, book.book.bytes),
    }
}

// All that is printed for the bytes of a book and the names that are asked.
fn print_book(book: &[u8], asked: &[u8], text: &mut Text)
    ensures { LaysWithin 787201 (printed book.now asked.now) text.old text.new }
{
    match CheckedBook::pass(book, Limits::full()) {
        Ok(passed) => print_passed(&passed, asked, text),
        Err(why) => text.refusal(why, book),
    }
}

// The same in a buffer, which has room for it.
fn print<'a>(book: &[u8], asked: &[u8], out: &'a mut [u8]) -> &'a [u8]
    requires { 787201 ≤ length out.old }
    ensures { (result.now ≡ printed book.now asked.now) × (length result.now < 787201) }
{
    let mut text = Text::new(out);
    print_book(book, asked, &mut text);
    text.into_laid()
}

// As many names as a book has at most, with the most bytes that a name has, and the byte that ends each.
const ROOM_FOR_NAMES: usize = Limits::NAMES * 256;

// More bytes than are ever printed: at most 1,025 lines, which have at most 768 each.
const ROOM_FOR_PRINT: usize = 787201;

// Made apart, since a proof counts the places of an array where it is made.
fn room_for_print() -> [u8; ROOM_FOR_PRINT] {
    [0; ROOM_FOR_PRINT]
}

fn main(rt: HostRuntime) {
    let methods = Program {
        rt: &rt,
        name: b"methods",
    };
    let mut names = [0; ROOM_FOR_NAMES];
    let Some(asked) = methods.names(&mut names) else {
        return;
    };
    let mut input = [0; Limits::ROOM];
    let Some(book) = methods.read_before_names(&mut input) else {
        return;
    };
    let mut out = room_for_print();
    methods.write(print(book, asked, &mut out));
}
