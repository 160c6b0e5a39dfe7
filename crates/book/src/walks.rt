// What stands side by side in a book, one after another: trees, entries, names; and what waits while a walk is in the definition of a name.
ghost use Rattle.format.specs.Whole.{Whole};
ghost use Rattle.book.specs.Reading.{EntryWithin};
ghost use Rattle.book.specs.Props.{Whole-prop, EntryWithin-prop};

use crate::read::{Entry, Node};

// The trees from node `at` up to node `until`: for each the number of its root, and the root itself.
#[derive(Clone, Copy)]
pub struct Siblings<'a> {
    pub rows: &'a [u8],
    pub at: usize,
    pub until: usize,
    pub ghost whole: { Whole rows.now at until } by { Whole-prop rows.now at until },
}

impl<'a> Siblings<'a> {
    ghost use Rattle.std.specs.Prelude.{◌≡◌};
    ghost use Rattle.book.specs.Walks.{Over};

    pub fn new(rows: &'a [u8], at: usize, until: usize) -> Siblings<'a>
        requires { Whole rows.now at until }
        ensures over { Over rows.now until result }
        ensures at { result.at ≡ at }
    {
        Siblings { rows, at, until }
    }
}

impl<'a> Iterator for Siblings<'a> {
    type Item = (usize, Node);

    ghost use Rattle.std.specs.Prelude.{◌-◌};
    ghost use Rattle.std.specs.Iterator.{at_most};
    ghost use Rattle.book.specs.Walks.{Walks};

    ghost next_gives = { Walks };

    ghost remaining = { λ s. at_most (s.until - s.at) };

    fn next(&mut self) -> Option<(usize, Node)> {
        if self.at == self.until {
            return None;
        }
        let at = self.at;
        let node = Node::at(self.rows, at);
        self.at = at + node.size;
        Some((at, node))
    }
}

// The entries from number `at` up to number `until` of the definitions' or the files' bytes.
#[derive(Clone, Copy)]
pub struct Entries<'a> {
    pub bytes: &'a [u8],
    pub at: usize,
    pub until: usize,
    pub ghost within: { EntryWithin bytes.now until } by { EntryWithin-prop bytes.now until },
}

impl<'a> Entries<'a> {
    ghost use Rattle.std.specs.Prelude.{◌≡◌};
    ghost use Rattle.book.specs.Walks.{OverEntries};

    pub fn new(bytes: &'a [u8], at: usize, until: usize) -> Entries<'a>
        requires { EntryWithin bytes.now until }
        ensures over { OverEntries bytes.now until result }
        ensures at { result.at ≡ at }
    {
        Entries { bytes, at, until }
    }
}

impl<'a> Iterator for Entries<'a> {
    type Item = Entry;

    ghost use Rattle.std.specs.Prelude.{◌-◌};
    ghost use Rattle.std.specs.Iterator.{at_most};
    ghost use Rattle.book.specs.Walks.{WalksEntries};

    ghost next_gives = { WalksEntries };

    ghost remaining = { λ s. at_most (s.until - s.at) };

    fn next(&mut self) -> Option<Entry> {
        if self.at >= self.until {
            return None;
        }
        let e = Entry::at(self.bytes, self.at);
        self.at += 1;
        Some(e)
    }
}

// A name whose definition is gone into: its row, and the end of the rows that are gone on with after it.
#[derive(Clone, Copy, Default)]
pub struct Waiting {
    pub row: u16,
    pub end: u16,
}

// The names that bytes are, from the first one on; one that the bytes cut short ends with them.
#[derive(Clone, Copy)]
pub struct Names<'a> {
    pub rest: &'a [u8],
}

impl<'a> Iterator for Names<'a> {
    type Item = &'a [u8];

    ghost use Rattle.std.specs.Iterator.{YieldsFirstBy, item_count};
    ghost use Rattle.book.specs.Walks.{names_left};

    ghost next_gives = { YieldsFirstBy (λ name. name.now) names_left };

    ghost remaining = { item_count names_left };

    fn next(&mut self) -> Option<&'a [u8]> {
        let (size, after) = self.rest.split_first()?;
        let (name, rest) = after.split_at((*size as usize).min(after.len()));
        self.rest = rest;
        Some(name)
    }
}
