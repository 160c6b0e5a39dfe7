// The labels of fields, cases and methods, and the numbers that they stand for (Candid: `idl_hash`, `Label`).
// Every function is total: none asks anything of its caller.
#![tactic(auto)]

ghost use Rattle.std.specs.Prelude.{◌≡◌, ◌==◌};
ghost use Rattle.labels.specs.Number.{label_number};
ghost use Rattle.labels.specs.Label.{label_kind_of, label_kind_number, value_of, id_by};

// The number of the name `id`: for each byte, times 223 plus the byte, modulo 2^32.
pub fn idl_hash(id: &[u8]) -> u32
    ensures { result ≡ label_number id.now }
{
    id.iter().fold(0u32, |hash, byte| {
        hash.wrapping_mul(223).wrapping_add(u32::from(*byte))
    })
}

// The kinds of label that a book writes, by their number there.
#[derive(Clone, Copy, PartialEq, Eq, Debug)]
pub enum LabelKind {
    // Of a node without a label.
    None,
    // A number.
    Id,
    // A name number.
    Named,
    // The number of a field that the text leaves without a label.
    Unnamed,
}

// What labels a field, a case or a method. A `Named` label holds a name number, a place in the book's table of names, as a book
// stores it; the label number of the name is handed over beside the label where its own is asked for.
#[derive(Clone, Copy, Debug)]
pub enum Label {
    Id(u32),
    Named(u32),
    Unnamed(u32),
}

impl Label {
    // The label kind that a book writes for it.
    pub fn kind(self) -> LabelKind
        ensures { label_kind_number result ≡ label_kind_of self }
    {
        match self {
            Label::Id(_) => LabelKind::Id,
            Label::Named(_) => LabelKind::Named,
            Label::Unnamed(_) => LabelKind::Unnamed,
        }
    }

    // The number that a book writes for it: a name number for a name.
    pub fn value(self) -> u32
        ensures { result ≡ value_of self }
    {
        match self {
            Label::Id(n) | Label::Named(n) | Label::Unnamed(n) => n,
        }
    }

    // The label's number, where `hash` is that of its name. Only a `Named` label reads it.
    pub fn get_id(self, hash: u32) -> u32
        ensures { result ≡ id_by self hash }
    {
        match self {
            Label::Named(_) => hash,
            Label::Id(n) | Label::Unnamed(n) => n,
        }
    }

    // Whether two labels are equal: their numbers are. A derived `==` would tell a name from the number that it stands for.
    pub fn same(self, hash: u32, other: Label, other_hash: u32) -> bool
        ensures { result ≡ (id_by self hash == id_by other other_hash) }
    {
        self.get_id(hash) == other.get_id(other_hash)
    }
}
