// Readers of numbers, rows, entries and names. Those of rows, entries and a name at a place are public for the crates above, which walk books that were
// admitted: each asks that what is read lies within the bytes, as it does there (format, specs/Whole.antt).
ghost use Rattle.std.specs.Prelude.{◌≡◌, ◌+◌, ◌*◌, ◌≤◌, ◌<◌, [], length, get_or};
ghost use Rattle.format.specs.Layout.{le16, le32, part, label_of, row_at, entry_at, names_of};
ghost use Rattle.format.specs.Whole.{Within};
ghost use Rattle.book.specs.Reading.{as_row, label_or, as_entry, EntryWithin, stored_root};

use crate::walks::Names;
use labels::{Label, LabelKind};

// The number in the two bytes from place `at` on.
#[tactic(auto, unfolding(format::specs::Layout::le16))]
fn half(bytes: &[u8], at: usize) -> u16
    requires { at + 2 ≤ length bytes.now }
    ensures { result ≡ le16 bytes.now at }
{
    u16::from_le_bytes([bytes[at], bytes[at + 1]])
}

// The number in the four bytes from place `at` on.
#[tactic(auto, unfolding(format::specs::Layout::le32))]
pub(crate) fn word(bytes: &[u8], at: usize) -> u32
    requires { at + 4 ≤ length bytes.now }
    ensures { result ≡ le32 bytes.now at }
{
    u32::from_le_bytes([bytes[at], bytes[at + 1], bytes[at + 2], bytes[at + 3]])
}

// A stored node. Kind and label kind are the bytes that are stored, not a Kind and a LabelKind: the layout reads nodes of which it has yet to find out
// whether those bytes are any. Code compares them with `Kind::Var as u8` and its like.
#[derive(Clone, Copy, PartialEq, Eq, Debug)]
pub struct Node {
    pub kind: u8,
    pub label_kind: u8,
    pub size: usize,
    pub value: u32,
    pub label: u32,
}

impl Node {
    // The bytes of a node.
    pub const SIZE: usize = 12;

    // A function's value: its argument count below HALF, its modes from there on.
    pub const HALF: u32 = 65536;

    // The most modes that a function has room for.
    pub const MODES: usize = 8;

    // Node n of the nodes' bytes.
    #[tactic(auto, unfolding(format::specs::Layout::row_at))]
    pub fn at(rows: &[u8], n: usize) -> Node
        requires { Within rows.now (n + 1) }
        ensures { as_row result ≡ row_at rows.now n }
    {
        let at = n * Node::SIZE;
        Node {
            kind: rows[at],
            label_kind: rows[at + 1],
            size: half(rows, at + 2) as usize,
            value: word(rows, at + 4),
            label: word(rows, at + 8),
        }
    }

    // Its label. One without a label has the number that stands for none, so that labels compare by number wherever they stand.
    #[tactic(auto, unfolding(format::specs::Layout::label_of))]
    pub fn label(self) -> Label
        ensures { result ≡ label_or self.label (label_of self.label_kind self.label) }
    {
        if self.label_kind == LabelKind::Named as u8 {
            Label::Named(self.label)
        } else if self.label_kind >= LabelKind::Unnamed as u8 {
            Label::Unnamed(self.label)
        } else {
            Label::Id(self.label)
        }
    }
}

// A stored definition or file. `owner` is a definition's file and a file's role, the number that is stored and no Role: one type reads both, and the
// layout has yet to find out whether it is one.
#[derive(Clone, Copy, PartialEq, Eq, Debug)]
pub struct Entry {
    pub name: u16,
    pub owner: u16,
    pub root: u16,
    pub reserved: u16,
}

impl Entry {
    // The bytes of an entry.
    pub const SIZE: usize = 8;

    // The root of a file without a tree: a number and no Option, since books store it, and tables of roots, whose memory is fixed, keep it.
    pub const NO_ROOT: u16 = 65535;

    // Entry n of the definitions' or the files' bytes.
    #[tactic(auto, unfolding(format::specs::Layout::entry_at))]
    pub fn at(entries: &[u8], n: usize) -> Entry
        requires { EntryWithin entries.now (n + 1) }
        ensures { as_entry result ≡ entry_at entries.now n }
    {
        let at = n * Entry::SIZE;
        Entry {
            name: half(entries, at),
            owner: half(entries, at + 2),
            root: half(entries, at + 4),
            reserved: half(entries, at + 6),
        }
    }

    // The root of its tree, if it has one.
    pub fn tree(self) -> Option<usize>
        ensures { result ≡ stored_root self.root }
    {
        stored_root(self.root)
    }
}

// The node that a stored root is, in an entry or in a table of roots; none for the number that stands for no tree.
#[tactic(auto, unfolding(crate::specs::Reading::stored_root))]
pub fn stored_root(root: u16) -> Option<usize>
    ensures { result ≡ stored_root root }
{
    if root == Entry::NO_ROOT {
        None
    } else {
        Some(root as usize)
    }
}

// The name whose length byte stands at a place of the bytes.
pub fn name_from(bytes: &[u8], at: usize) -> &[u8]
    requires { at + 1 + get_or bytes.now at 0 ≤ length bytes.now }
    ensures { result.now ≡ part (at + 1) (at + 1 + get_or bytes.now at 0) bytes.now }
{
    let from = at + 1;
    let end = from + bytes[at] as usize;
    &bytes[from..end]
}

// Name `number` of the names' bytes; an empty part where there are fewer, as `book::name` has it.
pub(crate) fn name_at(names: &[u8], number: usize) -> &[u8]
    ensures { result.now ≡ get_or (names_of (length names.now) names.now) number [] }
{
    Names { rest: names }.nth(number).unwrap_or(&[])
}
