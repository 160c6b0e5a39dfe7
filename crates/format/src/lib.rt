// The declaration book: what it holds, how it is laid out in bytes, which bytes are a book, and how much of one a terminal model takes.
// Definitions and theorems; the code that reads a book is the crate `book`.
#![tactic(auto)]

ghost use Rattle.std.specs.Prelude.{◌≡◌};
ghost use Rattle.format.specs.Within.{full, within};

// Where a node stands: a root; a child of a record or a variant; a method; any other child.
#[derive(Clone, Copy, PartialEq, Eq, Debug)]
pub enum Place {
    Root,
    Field,
    Method,
    Inner,
}

// The most that a terminal model takes of a book. A limit above document 01's figure counts as that figure.
#[derive(Clone, Copy, PartialEq, Eq, Debug)]
pub struct Limits {
    pub names: u32,
    pub nodes: u32,
    pub definitions: u32,
}

impl Limits {
    // Document 01's figures, the most that any book holds.
    pub const BYTES: usize = 65536;

    pub const NAMES: usize = 1024;

    pub const NODES: usize = 4096;

    pub const DEFINITIONS: usize = 512;

    pub const FILES: usize = 16;

    // Room for an input: one byte more, so that a longer one is refused and never cut.
    pub const ROOM: usize = Limits::BYTES + 1;

    // The limits of a model that takes every book.
    pub fn full() -> Limits
        ensures { result ≡ full }
    {
        Limits {
            names: Limits::NAMES as u32,
            nodes: Limits::NODES as u32,
            definitions: Limits::DEFINITIONS as u32,
        }
    }

    // Whether none is more than the other's. No derived order: that would compare the names first, and the others where they are equal.
    #[tactic(auto, unfolding(crate::specs::Within::within))]
    pub fn within(self, other: Limits) -> bool
        ensures { result ≡ within self other }
    {
        self.names <= other.names
            && self.nodes <= other.nodes
            && self.definitions <= other.definitions
    }
}
