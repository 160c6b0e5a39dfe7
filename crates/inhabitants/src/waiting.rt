// Which nodes settle, where each waits for others: for all types within it, for one of them, for the definition of the name that it is, for nothing or
// for ever. What a node waits for is given where it is entered (`filling`, `counting`); one that settles tells those that wait for it, each of which
// has one less to wait for. Each does so once, so that the work is linear in nodes and references. The tables are by node, since most of what waits
// is no definition.
ghost use Rattle.std.specs.Prelude.{◌≡◌, ◌≤◌, ◌<◌, eqb, get_or, length, IfSome};
ghost use Rattle.inhabitants.specs.Waiting.{places_in, IsNew, Room, ToldAs, HeldAs, NameAs, LeftAs, EnteredAs, CanTell, TurnedAs};

use arrayvec::ArrayVec;
use book::read::Node;
use book::walks::Siblings;
use environment::root_of;
use environment::scope::Scope;
use format::Limits;

// A number for each node: how many it waits for, or a link, one more than a node, 0 for none: an Option would take twice the memory, of which there
// is a fixed amount.
type ByNode = [u16; Limits::NODES];

// What a node waits for.
#[derive(Clone, Copy)]
pub(crate) enum Wait {
    Nothing,
    Ever,
    // All types within it; one of them.
    All,
    One,
    // The definition of the name that it is; for ever, if there is none.
    Definition,
}

// What waits for what.
#[derive(Drop)]
pub(crate) struct Waiting {
    // For how many more a node waits, once it is entered: in the end for none exactly if it settles.
    left: ByNode,
    // The node that it is to tell, within which it is.
    holder: ByNode,
    // The first row that waits for it as the definition of the name that the row is,
    first: ByNode,
    // and the next row that is the same name.
    next: ByNode,
    // The nodes that settle while others wait for them, in the order in which that was found.
    ready: ArrayVec<u16, { Limits::NODES }>,
}

// Of the types within a node, how many wait, and whether one has settled.
#[derive(Clone, Copy)]
struct Held {
    open: u16,
    settles: bool,
}

impl Waiting {
    // No node is entered.
    #[inline(always)]
    pub(crate) fn new() -> Waiting
        ensures { IsNew result }
    {
        Waiting {
            left: [0; Limits::NODES],
            holder: [0; Limits::NODES],
            first: [0; Limits::NODES],
            next: [0; Limits::NODES],
            ready: ArrayVec::new(),
        }
    }

    // The node that a link is has one less to wait for.
    fn tell(&mut self, link: u16)
        requires link { link ≤ 4096 }
        requires room { Room self.old }
        ensures { ToldAs link self.old self.new }
    {
        let Some(n) = (link as usize).checked_sub(1) else {
            return;
        };
        if self.left[n] == 0 {
            return;
        }
        self.left[n] -= 1;
        if self.left[n] == 0 {
            self.ready.push(n as u16);
        }
    }

    // Of these types within node n, those that wait are held by it.
    fn hold(&mut self, n: usize, types: Siblings) -> Held
        requires { (n < 4096) × (types.until ≤ 4096) }
        ensures { HeldAs n (places_in types.entry.rows.now types.entry.at types.entry.until) self.old self.new result }
    {
        let mut held = Held {
            open: 0,
            settles: false,
        };
        for (c, _) in types {
            if self.left[c] == 0 {
                held.settles = true;
            } else {
                self.holder[c] = (n + 1) as u16;
                held.open += 1;
            }
        }
        held
    }

    // For how many row n waits. It is a name whose definition has this root, for which it waits unless that is entered and has settled; without one
    // it waits for ever.
    #[tactic(auto, unfolding(crate::specs::Waiting::open_root))]
    fn link(&mut self, n: usize, root: Option<usize>) -> u16
        requires { (n < 4096) × IfSome root (λ r. r < 4096) }
        ensures { NameAs n root self.old self.new result }
    {
        let Some(root) = root else {
            return 1;
        };
        if root > n && self.left[root] == 0 {
            return 0;
        }
        self.next[n] = self.first[root];
        self.first[root] = (n + 1) as u16;
        1
    }

    // For how many node n waits. Those after it are entered, so that what has settled is not waited for.
    fn waits(&mut self, scope: Scope, n: usize, wait: Wait) -> u16
        requires { n < scope.nodes }
        ensures { LeftAs scope.entry.rows.now scope.entry.roots.now n wait self.old self.new result }
    {
        let t = Node::at(scope.rows, n);
        match wait {
            Wait::Nothing => 0,
            Wait::Ever => 1,
            Wait::All => {
                self.hold(n, Siblings::new(scope.rows, n + 1, n + t.size))
                    .open
            }
            Wait::One => {
                let held = self.hold(n, Siblings::new(scope.rows, n + 1, n + t.size));
                !held.settles as u16
            }
            Wait::Definition => self.link(n, root_of(scope.roots, t.value as usize)),
        }
    }

    // Node n is entered, after those behind it.
    pub(crate) fn enter(&mut self, scope: Scope, n: usize, wait: Wait)
        requires { (n < scope.nodes) × (length self.old.ready.items < 4096) }
        ensures { EnteredAs scope.entry.rows.now scope.entry.roots.now n wait self.old self.new }
    {
        self.left[n] = self.waits(scope, n, wait);
        if self.left[n] == 0 && self.first[n] != 0 {
            self.ready.push(n as u16);
        }
    }

    // Node n has settled, and tells all that wait for it. Each link goes before it is told, so that none is told twice.
    pub(crate) fn tell_all(&mut self, n: usize)
        requires { (n < 4096) × CanTell n self.old }
        ensures { TurnedAs n self.old self.new }
    {
        let holder = self.holder[n];
        self.holder[n] = 0;
        self.tell(holder);
        let first = self.first[n];
        self.first[n] = 0;
        self.tell(first);
        let next = self.next[n];
        self.next[n] = 0;
        self.tell(next);
    }

    // How many nodes have settled while others waited for them; and which was the k-th.
    pub(crate) fn ready(&self) -> usize
        ensures { result ≡ length self.now.ready.items }
    {
        self.ready.len()
    }

    pub(crate) fn ready_at(&self, k: usize) -> usize
        requires { k < length self.now.ready.items }
        ensures { result ≡ get_or self.now.ready.items k 0 }
    {
        self.ready.as_slice()[k] as usize
    }

    // Whether a node waits for none.
    pub(crate) fn settled(&self, n: usize) -> bool
        requires { n < 4096 }
        ensures { result ≡ eqb (get_or self.now.left n 0) 0 }
    {
        self.left[n] == 0
    }
}
