// The names that the program is asked about, as one buffer has them, and which of a book's names they are.
ghost use Rattle.std.specs.Prelude.{◌≡◌};
ghost use Rattle.methods.specs.Asked.{is_among, numbers_from, ended};
ghost use Rattle.format.specs.Layout.{read};

use analysis::hand::Names;
use book::tables::NameIndex;

// Names one after another, each ended by a zero byte.
#[derive(Clone, Copy)]
pub struct Asked<'a> {
    pub rest: &'a [u8],
}

impl<'a> Iterator for Asked<'a> {
    type Item = &'a [u8];

    ghost use Rattle.std.specs.Iterator.{YieldsFirstBy, item_count};
    ghost use Rattle.methods.specs.Left.{names_left};

    ghost next_gives = { YieldsFirstBy (λ name. name.now) names_left };

    ghost remaining = { item_count names_left };

    fn next(&mut self) -> Option<&'a [u8]> {
        let size = self.rest.iter().position(|b| *b == 0)?;
        let name = &self.rest[..size];
        self.rest = &self.rest[size + 1..];
        Some(name)
    }
}

// Whether a name is asked.
fn is_asked(name: &[u8], asked: &[u8]) -> bool
    ensures { result ≡ is_among name.now (ended asked.now) }
{
    for one in (Asked { rest: asked }) {
        if one == name {
            return true;
        }
    }
    false
}

// The numbers of the book's names that are asked, ascending. A name that the book has not is none of them, and it does not matter how often one is
// asked.
pub fn asked_numbers(names: &NameIndex, asked: &[u8]) -> Names
    ensures { result.items ≡ numbers_from 0 (read names.now.book.bytes.now).names (ended asked.now) }
{
    let mut numbers = Names::new();
    for n in 0..names.book.contents.names {
        if is_asked(names.name(n), asked) {
            numbers.push(n as u16);
        }
    }
    numbers
}
