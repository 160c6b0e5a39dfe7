// `chase_type`, `chase_types` and `chase_actor` of bindings/analysis.rs: the names that types lead to, each after those that its definition
// leads to. The rows of a type are scanned in order, and only a name that is new is gone into.
ghost use Rattle.std.specs.Prelude.{◌≡◌, ◌+◌, ◌≤◌, ◌<◌};
ghost use Rattle.format.specs.Layout.{siblings};
ghost use Rattle.format.specs.Whole.{Whole, tree_at};
ghost use Rattle.syntax.specs.Interfaces.{interface_tree};
ghost use Rattle.analysis.specs.Walking.{Started, ChasedAs, is_new, Scanned, NextNew, Counted, NothingMet, WalkedAs, InterfaceIn};

use arrayvec::ArrayVec;
use book::kinds::Kind;
use book::read::Node;
use book::tables::Flags;
use book::walks::Waiting;
use environment::scope::BookScope;
use format::Limits;
use refusals::Refusal;
use syntax::interface::{Actor, Interface};

// How far a walk has come: a mark for each name seen, and the names listed so far, of which there are no more than definitions.
#[derive(Clone, Drop)]
pub struct Walk {
    pub seen: Flags,
    pub listed: ArrayVec<u16, { Limits::DEFINITIONS }>,
}

impl Walk {
    // It has met nothing.
    #[tactic(auto, unfolding(book::specs::Tables::no_flags))]
    fn new() -> Walk
        ensures { NothingMet result }
    {
        Walk {
            seen: [0; Limits::NAMES],
            listed: ArrayVec::new(),
        }
    }
}

// Whether a node is a name that was not seen.
fn is_new(rows: &[u8], seen: &[u8], n: usize) -> bool
    requires { Scanned rows.now seen.now (n + 1) }
    ensures { result ≡ is_new rows.now seen.now n }
{
    let t = Node::at(rows, n);
    t.kind == Kind::Var as u8 && seen[t.value as usize] != 1
}

// The first node from `from` on, before `until`, that is a name not seen.
fn next_new(rows: &[u8], seen: &[u8], from: usize, until: usize) -> Option<usize>
    requires { Scanned rows.now seen.now until × (from ≤ until) }
    ensures { NextNew rows.now seen.now from until result }
{
    (from..until).find(|n| is_new(rows, seen, *n))
}

// The names of the nodes from `from` up to `until`, from left to right. Nothing recurses, so that the walk is moved once and not for each
// name: a name that is gone into waits, and is listed when no new name is left below it. No index is counted in the loop: where it goes on is
// where a name's definition stands, or after the name that waits last. `from` and `until` are no Siblings: that has rows of its own, of which
// the clauses would have to say that they are the scope's.
fn chase(book: BookScope, from: usize, until: usize, walk: Walk) -> Result<Walk, Refusal>
    requires { Whole book.scope.rows.now from until × (until ≤ book.scope.nodes) × Started book.scope.rows.now book.scope.roots.now walk }
    ensures { ChasedAs book.entry.scope.rows.now book.entry.scope.roots.now from until walk result }
{
    let rows = book.scope.rows;
    let roots = book.scope.roots;
    let Walk {
        mut seen,
        mut listed,
    } = walk;
    let mut waiting: ArrayVec<Waiting, { Limits::DEFINITIONS }> = ArrayVec::new();
    let mut at = from;
    let mut end = until;
    loop {
        if let Some(row) = next_new(rows, &seen, at, end) {
            let t = Node::at(rows, row);
            let name = t.value as usize;
            let root = environment::root_of(roots, name).ok_or(Refusal::Unbound(t.value as u16))?;
            seen[name] = 1;
            waiting.push(Waiting {
                row: row as u16,
                end: end as u16,
            });
            at = root;
            let u = Node::at(rows, at);
            end = at + u.size;
        } else if let Some(last) = waiting.pop() {
            let row = last.row as usize;
            let t = Node::at(rows, row);
            listed.push(t.value as u16);
            at = row + 1;
            end = last.end as usize;
        } else {
            return Ok(Walk { seen, listed });
        }
    }
}

// `chase_types`: the trees from node `from` up to node `until`. Who walks shows that the table is of no more than 512 definitions, which is what
// there is room for: a scope may have any table.
pub fn chase_types(book: BookScope, from: usize, until: usize) -> Result<Walk, Refusal>
    requires { Whole book.scope.rows.now from until × (until ≤ book.scope.nodes) × Counted book.scope.rows.now book.scope.roots.now }
    ensures { WalkedAs book.entry.scope.rows.now book.entry.scope.roots.now (siblings book.entry.scope.rows.now from until) result }
{
    chase(book, from, until, Walk::new())
}

// An actor as written. A second caller, as the draft list would be, would keep the compiler from inlining this function, and the list pay a copy of
// the walk.
fn chase_written(book: BookScope, root: usize) -> Result<Walk, Refusal>
    requires { (root < book.scope.nodes) × Counted book.scope.rows.now book.scope.roots.now }
    ensures { WalkedAs book.entry.scope.rows.now book.entry.scope.roots.now (tree_at book.entry.scope.rows.now root) result }
{
    let t = Node::at(book.scope.rows, root);
    chase_types(book, root, root + t.size)
}

// `chase_actor`. A merged actor: main's arguments, and then the methods of each service.
pub fn chase_actor(book: BookScope, interface: Interface) -> Result<Walk, Refusal>
    requires { InterfaceIn book.scope.rows.now book.scope.nodes interface × Counted book.scope.rows.now book.scope.roots.now }
    ensures { WalkedAs book.entry.scope.rows.now book.entry.scope.roots.now (interface_tree book.entry.scope.rows.now interface) result }
{
    match interface.actor {
        Actor::Absent => return Ok(Walk::new()),
        Actor::Written(root) => return chase_written(book, root),
        Actor::Merged(_) => {}
    }
    let mut walk = chase_types(book, interface.from, interface.until)?;
    for s in interface.services.as_slice() {
        let service = *s as usize;
        let t = Node::at(book.scope.rows, service);
        walk = chase(book, service + 1, service + t.size, walk)?;
    }
    Ok(walk)
}
