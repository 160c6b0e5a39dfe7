// The kinds, roles and modes of document 01 in the order of their numbers there, and the table of contents.
ghost use Rattle.std.specs.Prelude.{◌≡◌};
ghost use Rattle.format.specs.Rules.{below_kind};

use format::Place;

// A node's kind, as documented: its number is that of the variant. Kinds below Var hold no other type and no name.
#[derive(Clone, Copy, PartialEq, Eq, Debug)]
pub enum Kind {
    Null,
    Bool,
    Nat,
    Int,
    Nat8,
    Nat16,
    Nat32,
    Nat64,
    Int8,
    Int16,
    Int32,
    Int64,
    Float32,
    Float64,
    Text,
    Reserved,
    Empty,
    Principal,
    Var,
    Opt,
    Vec,
    Record,
    Variant,
    Func,
    Service,
    Class,
    Init,
}

impl Kind {
    // Where the children of a node of this kind stand.
    #[tactic(auto, unfolding(format::specs::Rules::below_kind))]
    pub fn place_below(kind: u8) -> Place
        ensures { result ≡ below_kind kind }
    {
        if kind == Kind::Record as u8 || kind == Kind::Variant as u8 {
            Place::Field
        } else if kind == Kind::Service as u8 {
            Place::Method
        } else {
            Place::Inner
        }
    }
}

// A file's role.
#[derive(Clone, Copy, PartialEq, Eq, Debug)]
pub enum Role {
    Main,
    TypeImport,
    ServiceImport,
    Init,
}

// Where the bodies of a book lie, and how much each holds: its table of contents. The names begin after the table, at `Contents::SIZE`.
#[derive(Clone, Copy, PartialEq, Eq, Debug)]
pub struct Contents {
    pub names: usize,
    pub nodes_at: usize,
    pub nodes: usize,
    pub definitions_at: usize,
    pub definitions: usize,
    pub files_at: usize,
    pub files: usize,
}

impl Contents {
    // The bytes of the table itself.
    pub const SIZE: usize = 32;
}

// A function's mode, a digit in base 4 of its value's upper half.
#[derive(Clone, Copy, PartialEq, Eq, Debug)]
pub enum Mode {
    None,
    Oneway,
    Query,
    CompositeQuery,
}

impl Mode {
    // How many digits there are, each below BASE.
    pub const BASE: u32 = 4;
}
