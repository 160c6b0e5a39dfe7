// The tests that `layout` is made of: the rules of format, specs/Rules.antt, on rows, entries and names. Private to the crate.
ghost use Rattle.std.specs.Prelude.{◌≡◌, IfSome, true, ◌+◌, ◌≤◌, ◌<◌, length, eqb};
ghost use Rattle.std.specs.Bool.{beq};
ghost use Rattle.format.specs.Fits.{before};
ghost use Rattle.format.specs.Rules.{good_modes, good_kind, good_place, good_label, good_row, good_role, good_files, Names};
ghost use Rattle.format.specs.Layout.{part, run, entry_at, row_trees};
ghost use Rattle.format.specs.Whole.{Within, Whole};
ghost use Rattle.book.specs.Reading.{as_row, as_entry, EntryWithin};
ghost use Rattle.book.specs.Walks.{Over, place_of};
ghost use Rattle.book.specs.Steps.{Tells, rises_to, TreesAs, definition_fine, DefinitionAs, DefinitionsAs, file_fine, FileAs};

use crate::kinds::{Contents, Kind, Mode, Role};
use crate::read::{Entry, Node};
use crate::walks::{Entries, Siblings};
use format::Place;
use labels::LabelKind;

// Whether the digits of `modes` are modes, of which none follows a 0.
#[tactic(auto, using(crate::proofs::Tests::modes_none, crate::proofs::Tests::modes_stop, crate::proofs::Tests::modes_on))]
fn modes_fine(modes: u32) -> bool
    ensures { result ≡ good_modes 8 modes }
{
    let mut m = modes;
    for _ in 0..Node::MODES {
        if m % Mode::BASE == Mode::None as u32 {
            return m == 0;
        }
        m /= Mode::BASE;
    }
    m == 0
}

// Whether a node of this kind may have this value and this many children.
#[tactic(auto, unfolding(format::specs::Rules::good_kind))]
fn kind_fine(names: usize, kind: u8, value: u32, kids: usize) -> bool
    ensures { result ≡ good_kind names kind value kids }
{
    if kind == Kind::Var as u8 {
        return (value as usize) < names && kids == 0;
    }
    if kind == Kind::Func as u8 {
        let arguments = (value % Node::HALF) as usize;
        return arguments <= kids && modes_fine(value / Node::HALF);
    }
    if kind > Kind::Init as u8 || value != 0 {
        return false;
    }
    if kind < Kind::Var as u8 {
        kids == 0
    } else if kind <= Kind::Vec as u8 {
        kids == 1
    } else {
        kind != Kind::Class as u8 || 0 < kids
    }
}

// Whether a node of this kind may stand at this place.
#[tactic(auto, unfolding(format::specs::Rules::good_place))]
fn place_fine(place: Place, kind: u8) -> bool
    ensures { result ≡ good_place place kind }
{
    place == Place::Root || kind != Kind::Init as u8
}

// Whether a node at this place may have this label.
#[tactic(auto, unfolding(format::specs::Rules::good_label))]
fn label_fine(names: usize, place: Place, kind: u8, label: u32) -> bool
    ensures { result ≡ good_label names place kind label }
{
    match place {
        Place::Root | Place::Inner => kind == LabelKind::None as u8 && label == 0,
        Place::Method => kind == LabelKind::Named as u8 && (label as usize) < names,
        Place::Field if kind == LabelKind::Named as u8 => (label as usize) < names,
        Place::Field => kind == LabelKind::Id as u8 || kind == LabelKind::Unnamed as u8,
    }
}

// Whether a node with this many children may stand at this place.
#[tactic(auto, unfolding(format::specs::Rules::good_row))]
fn node_fine(names: usize, place: Place, node: Node, kids: usize) -> bool
    ensures { result ≡ good_row names place (as_row node) kids }
{
    kind_fine(names, node.kind, node.value, kids)
        && place_fine(place, node.kind)
        && label_fine(names, place, node.label_kind, node.label)
}

// How many trees there are from node `from` up to node `until`, all of which stand at `place`; none where they are not whole or break a rule.
pub(crate) fn trees(
    rows: &[u8],
    names: usize,
    place: Place,
    from: usize,
    until: usize,
) -> Option<usize>
    requires { (from ≤ until) × Within rows.now until }
    ensures { TreesAs names place rows.now from until result }
{
    let mut i = from;
    let mut count: usize = 0;
    // No walk of Siblings: whether these trees are whole, which it stands on, is only found out here.
    while i < until {
        let node = Node::at(rows, i);
        let size = node.size;
        if size == 0 {
            return None;
        }
        if until - i < size {
            return None;
        }
        let kids = trees(rows, names, Kind::place_below(node.kind), i + 1, i + size)?;
        if !node_fine(names, place, node, kids) {
            return None;
        }
        count += 1;
        i += size;
    }
    Some(count)
}

// Whether the name a stands before the name b: by their first difference, or as its beginning. That is a < b, but the library's `<` makes an Ordering
// at each byte, with which the layout takes a fifth to a third longer.
fn before(a: &[u8], b: &[u8]) -> bool
    ensures { result ≡ before a.now b.now }
{
    for (x, y) in a.iter().zip(b) {
        if x != y {
            return x < y;
        }
    }
    a.len() < b.len()
}

// Whether a name may stand after the name `last`, or first.
fn rises(last: Option<&[u8]>, name: &[u8]) -> bool
    ensures { result ≡ rises_to last.entry name.now }
{
    last.is_none_or(|last| before(last, name))
}

// Whether the bytes are `count` names, ascending. No walk of Names, which ends with a name that the bytes cut short: here that one is told.
pub(crate) fn names_fine(bytes: &[u8], count: usize) -> bool
    ensures { Tells result (Names count bytes.now) }
{
    let mut rest = bytes;
    let mut last = None;
    let mut seen = 0;
    while let Some((size, after)) = rest.split_first() {
        let Some((name, next)) = after.split_at_checked(*size as usize) else {
            return false;
        };
        if !rises(last, name) {
            return false;
        }
        last = Some(name);
        rest = next;
        seen += 1;
    }
    seen == count
}

// Whether a file may have this role: main first, init arguments last. `main` and `last` say where the file stands; each file takes the same
// steps. They are two, as in `good_role`: one file may be first and last.
#[tactic(auto, unfolding(format::specs::Rules::good_role))]
fn role_fine(main: bool, last: bool, role: u16) -> bool
    ensures { result ≡ good_role main last role }
{
    if main {
        return role == Role::Main as u16;
    }
    role == Role::TypeImport as u16
        || role == Role::ServiceImport as u16
        || last && role == Role::Init as u16
}

// Whether a tree whose root has this kind may be that of a file in this role: init arguments have both, or neither.
fn init_fine(kind: u8, role: u16) -> bool
    ensures { result ≡ beq (eqb kind 26) (eqb role 3) }
{
    (kind == Kind::Init as u8) == (role == Role::Init as u16)
}

// What the entries of a book with this table of contents have to keep.
impl Contents {
    // Whether an entry may be a definition's, apart from its tree, whose file is at least `file` and whose root is node `next`.
    #[tactic(auto, unfolding(crate::specs::Steps::definition_fine))]
    fn definition_fine(self, file: u16, next: usize, e: Entry) -> bool
        ensures { result ≡ definition_fine self.names self.files file next (as_entry e) }
    {
        (e.name as usize) < self.names
            && (e.owner as usize) < self.files
            && file <= e.owner
            && e.root as usize == next
            && e.reserved == 0
    }

    // The entry of a definition, whose file is at least `file` and whose tree is the first of these: the trees that are left after it.
    fn definition<'a>(self, file: u16, e: Entry, trees: Siblings<'a>) -> Option<Siblings<'a>>
        ensures goes { IfSome result (Over trees.entry.rows.now trees.entry.until) }
        ensures finds { DefinitionAs self.names self.files trees.entry.rows.now trees.entry.until file trees.entry.at (as_entry e) (place_of result) }
    {
        if !self.definition_fine(file, trees.at, e) {
            return None;
        }
        let mut after = trees;
        let (_, root) = after.next()?;
        if root.kind == Kind::Init as u8 {
            return None;
        }
        Some(after)
    }

    // Whether an entry may be a file's, apart from its tree.
    #[tactic(auto, unfolding(crate::specs::Steps::file_fine))]
    fn file_fine(self, main: bool, last: bool, e: Entry) -> bool
        ensures { result ≡ file_fine self.names main last (as_entry e) }
    {
        (e.name as usize) < self.names
            && role_fine(main, last, e.owner)
            && e.reserved == 0
            && (e.root != Entry::NO_ROOT || e.owner != Role::Init as u16)
    }

    // The entry of a file, whose tree, if it has one, is the first of these: the trees that are left after it.
    fn file<'a>(self, main: bool, last: bool, e: Entry, trees: Siblings<'a>) -> Option<Siblings<'a>>
        ensures goes { IfSome result (Over trees.entry.rows.now trees.entry.until) }
        ensures finds { FileAs self.names trees.entry.rows.now trees.entry.until main last trees.entry.at (as_entry e) (place_of result) }
    {
        if !self.file_fine(main, last, e) {
            return None;
        }
        if e.root == Entry::NO_ROOT {
            return Some(trees);
        }
        let mut after = trees;
        let (n, root) = after.next()?;
        if e.root as usize != n || !init_fine(root.kind, e.owner) {
            return None;
        }
        Some(after)
    }

    // The definitions' entries, whose trees are the first of these: the trees that are left after them.
    pub(crate) fn all_definitions<'a>(
        self,
        entries: &[u8],
        trees: Siblings<'a>,
    ) -> Option<Siblings<'a>>
        requires { EntryWithin entries.now self.definitions × (trees.at ≡ 0) }
        ensures goes { IfSome result (Over trees.entry.rows.now trees.entry.until) }
        ensures finds { DefinitionsAs self.names self.files entries.now self.definitions trees.entry.rows.now trees.entry.until (place_of result) }
    {
        let mut file = 0;
        let mut left = trees;
        for e in Entries::new(entries, 0, self.definitions) {
            left = self.definition(file, e, left)?;
            file = e.owner;
        }
        Some(left)
    }

    // Whether the files' entries are good, and their trees are all of these.
    pub(crate) fn all_files(self, entries: &[u8], trees: Siblings) -> bool
        requires { EntryWithin entries.now self.files }
        ensures { result ≡ good_files self.names true trees.entry.at (run (entry_at entries.now) 0 self.files) (row_trees trees.entry.rows.now trees.entry.at trees.entry.until) }
    {
        let mut left = trees;
        for (f, e) in Entries::new(entries, 0, self.files).enumerate() {
            let Some(after) = self.file(f == 0, f + 1 == self.files, e, left) else {
                return false;
            };
            left = after;
        }
        left.at == left.until
    }
}
