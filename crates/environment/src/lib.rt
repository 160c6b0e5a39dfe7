// What names stand for: type_env.rs. A table from name number to definition is made once a call, and so is one of alias ends, with the length of
// each chain; both are lent by the caller, from fixed memory, so that a number in them stands for nothing: Entry::NO_ROOT, and chain_end::NONE.
// What an admitted book gives is in a Scope; functions without one ask it of their caller: nodes that are whole trees with numbers in range
// (specs/Tables.antt).
#![tactic(auto)]

ghost use Rattle.std.specs.Prelude.{◌≡◌, List, ℕ, ◌+◌, ◌-◌, ◌/◌, ◌≤◌, ◌<◌, length, get_or, IfNone, IfSome};
ghost use Rattle.format.specs.Layout.{definitions_part};
ghost use Rattle.book.specs.Tables.{blank_table, zero_table};
ghost use Rattle.environment.specs.Tables.{Entries, DefinesAs, end_of, crossed_in, Ended, ReachedAs, LookupAs};

pub mod chain_end;
pub mod merge;
pub mod scope;

use book::admitted::AdmittedBook;
use book::kinds::Kind;
use book::read::{Entry, Node, stored_root};
use book::walks;
use format::Limits;
use refusals::{Refusal, Verdict};

// Enters the definitions of a book's entries `from` up to `to`.
pub fn enter(book: AdmittedBook, from: usize, to: usize, roots: &mut [u16]) -> Verdict
    requires ordered { from ≤ to }
    requires within { to ≤ book.contents.definitions }
    requires empty { roots.old ≡ blank_table }
    ensures { DefinesAs (definitions_part book.entry.bytes.now) book.entry.contents.nodes from to roots.new result }
{
    let c = book.contents;
    enter_entries(book.definitions(), c.names, c.nodes, from, to, roots)
}

// Enters the definitions of entries `from` up to `to` in a table that has nothing: 2 with the first name defined twice. Then the table has
// nothing, as it was lent. What is asked is said of the entries alone, which may be of no book; names and nodes are numbers
// of the contract alone, parameters still so that callers stay as they are.
pub fn enter_entries(
    entries: &[u8],
    names: usize,
    nodes: usize,
    from: usize,
    to: usize,
    roots: &mut [u16],
) -> Verdict
    requires { Entries entries.now names nodes from to × (names ≤ 1024) × (nodes ≤ 4096) × (roots.old ≡ blank_table) }
    ensures { DefinesAs entries.now nodes from to roots.new result }
{
    for e in walks::Entries::new(entries, from, to) {
        let n = e.name as usize;
        if root_of(roots, n).is_some() {
            roots.fill(Entry::NO_ROOT);
            return Err(Refusal::Twice(e.name));
        }
        roots[n] = e.root;
    }
    Ok(())
}

// The root of a name's definition by a table of roots, where it has one.
#[tactic(auto, unfolding(book::specs::Reading::stored_root))]
pub fn root_of(roots: &[u16], n: usize) -> Option<usize>
    ensures none { IfNone result (get_or roots.now n 65535 ≡ 65535) }
    ensures some { IfSome result (λ root. (root ≡ get_or roots.now n 65535) × (root ≡ 65535 → ⊥)) }
{
    stored_root(*roots.get(n)?)
}

// One link of an alias chain: where the definition of a name stands, and the name that it is.
#[derive(Clone, Copy)]
pub struct Link {
    pub root: usize,
    pub next: Option<usize>,
}

// Where an alias chain ends: at a name without definition, never, or at a node that is no name.
#[derive(Clone, Copy)]
pub enum End {
    Unbound(u16),
    Circle,
    Ends(usize),
}

// The end of an alias chain, and how many names it crosses.
#[derive(Clone, Copy)]
pub struct Alias {
    pub crossed: usize,
    pub end: End,
}

// The node at which a chain ends, and how many names it crosses.
#[derive(Clone, Copy)]
pub struct Reached {
    pub node: Option<u16>,
    pub crossed: u16,
}

// The end of the chain from a node, by the table of alias ends. Rows and ends are no struct: its facts would need the numbers of names and nodes,
// which nothing here reads.
pub fn end_of(rows: &[u8], ends: &[u32], node: usize) -> Reached
    requires { Ended rows.now ends.now node }
    ensures { ReachedAs rows.now ends.now node result.node result.crossed }
{
    let t = Node::at(rows, node);
    if t.kind != Kind::Var as u8 {
        return Reached {
            node: Some(node as u16),
            crossed: 0,
        };
    }
    let end = ends[t.value as usize];
    Reached {
        node: chain_end::node(end),
        crossed: chain_end::crossed(end),
    }
}

// How many names the chain of a name crosses, itself among them, by the table of alias ends.
pub fn names_crossed(ends: &[u32], n: usize) -> u16
    requires { (length ends.now ≡ 1024) × (n < 1024) }
    ensures { result ≡ crossed_in ends.now n }
{
    chain_end::crossed(ends[n])
}

// What a lookup finds: the end of a chain, `Ok` where that is of the kind that is looked for. As that of `binary_search`, its `Err` is no error: how
// many names were crossed is counted of what was not found too (document 02, request 3).
pub type Lookup = Result<Reached, Reached>;

// Looks for a type of this kind at the end of the chain from a node. The kind is a number, as a node stores it: no contract reads `as u8` of a `Kind`,
// so that one would need a definition that numbers all 27.
fn look_up(rows: &[u8], ends: &[u32], node: usize, kind: u8) -> Lookup
    requires { Ended rows.now ends.now node }
    ensures { LookupAs kind rows.now ends.now node result }
{
    let reached = end_of(rows, ends, node);
    let found = reached
        .node
        .is_some_and(|e| Node::at(rows, e as usize).kind == kind);
    if found { Ok(reached) } else { Err(reached) }
}

// Whether the chain from a node ends at a function: `as_func`, by the table of alias ends. It and `as_service`, which differ by the kind, are names of
// type_env.rs.
pub fn as_func(rows: &[u8], ends: &[u32], node: usize) -> Lookup
    requires { Ended rows.now ends.now node }
    ensures { LookupAs 23 rows.now ends.now node result }
{
    look_up(rows, ends, node, Kind::Func as u8)
}

// Whether it ends at a service: `as_service`, of what stands below a class's top. A class adds nothing to the names that are crossed.
pub fn as_service(rows: &[u8], ends: &[u32], node: usize) -> Lookup
    requires { Ended rows.now ends.now node }
    ensures { LookupAs 24 rows.now ends.now node result }
{
    look_up(rows, ends, node, Kind::Service as u8)
}
