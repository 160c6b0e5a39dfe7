// Which names reach one of some names by references, and which rows tell one that does. The rows that are a name are linked once, each to the one
// before it, so that the definitions that refer to a name are found without going through all rows again.
// find_nearest takes an admitted book; the others take its parts, read once, and ask what it gives (specs/Reaching.antt). Tables of rows are
// lent, since a copy of one costs more than all else does on a small book.
ghost use Rattle.std.specs.Prelude.{◌≡◌, ◌↔◌, ◌+◌, ◌≤◌, ◌<◌, ℕ, IsTrue};
ghost use Rattle.format.specs.Layout.{nodes_part, definitions_part};
ghost use Rattle.environment.specs.Tables.{Nodes, definitions_in};
ghost use Rattle.environment.specs.Props.{props};
ghost use Rattle.book.specs.Tables.{zero_table};
ghost use Rattle.analysis.specs.Reaching.{ReachAs, Hit, NearAs, Defining, OwnersAs, no_rows, no_places, LinksAs, KeptFrom, KeptElse, Linked, NearestAs};

use arrayvec::ArrayVec;
use book::admitted::AdmittedBook;
use book::kinds::Kind;
use book::read::Node;
use book::tables::{ByName, Flags};
use book::walks::Entries;
use format::Limits;

// For each row the first row from it on that tells; the number of rows where there is none, so that one comparison says whether trees tell.
pub type Near = [u16; Limits::NODES + 1];

// Links in the table that is lent for the first rows: for each row one more than the row before it that is the same name, or 0 for none, as in
// `ByRow`.
type Links = [u16; Limits::NODES + 1];

// A number for each row, one more than a name, or 0 for none: an Option would take twice the memory, of which there is a fixed amount, and zeros are
// made fastest.
type ByRow = [u16; Limits::NODES];

// The rows of a book, and how many there are.
#[derive(Clone, Copy)]
struct BookRows<'a> {
    rows: &'a [u8],
    nodes: usize,
    ghost known: { Nodes rows.now 1024 nodes } by { Prim.hlevel props },
}

impl BookRows<'_> {
    // Whether row i is a name with its flag set.
    fn tells(self, flags: &Flags, i: usize) -> bool
        requires { i < self.nodes }
        ensures { IsTrue result ↔ Hit self.entry.rows.now flags.now i }
    {
        let t = Node::at(self.rows, i);
        t.kind == Kind::Var as u8 && flags[t.value as usize] == 1
    }

    // Writes for each row the first row from it on that is a name with its flag set; the number of rows where there is none.
    fn nearest(self, flags: &Flags, near: &mut Near)
        ensures { NearAs self.entry.rows.now flags.now self.entry.nodes near.new × KeptFrom (self.entry.nodes + 1) near.old near.new }
    {
        let mut last = self.nodes as u16;
        near[self.nodes] = last;
        for i in (0..self.nodes).rev() {
            if self.tells(flags, i) {
                last = i as u16;
            }
            near[i] = last;
        }
    }

    // Links rows that are the same name in one pass, from the last one to the first. `head` has nothing before, and what `next` has is not read.
    fn link(self, head: &mut ByName, next: &mut Links)
        requires { head.old ≡ zero_table }
        ensures { LinksAs self.entry.rows.now self.entry.nodes head.new next.new × KeptElse self.entry.rows.now self.entry.nodes next.old next.new }
    {
        for j in 0..self.nodes {
            let t = Node::at(self.rows, j);
            if t.kind == Kind::Var as u8 {
                let v = t.value as usize;
                next[j] = head[v];
                head[v] = (j + 1) as u16;
            }
        }
    }
}

// Writes for each row one more than the name whose definition it lies in, in a table that has nothing; 0 where it lies in none.
fn owners(entries: &[u8], rows: &[u8], definitions: usize, owner: &mut ByRow)
    requires { ((names nodes : ℕ) × Defining rows.now entries.now names nodes definitions) × (owner.old ≡ no_rows) }
    ensures { OwnersAs rows.now entries.now definitions owner.new }
{
    for e in Entries::new(entries, 0, definitions) {
        let root = e.root as usize;
        let until = root + Node::at(rows, root).size;
        owner[root..until].fill(e.name + 1);
    }
}

// Sets the flag of each name that is a wanted one or from which one is reached by references. The names that are flagged wait until the
// definitions that refer to them are flagged too. A wanted number that is no name's flags nothing.
fn reaching(owner: &ByRow, head: &ByName, next: &Links, wanted: &[u16]) -> Flags
    requires { Linked owner.now head.now next.now }
    ensures { (x : Linked owner.now head.now next.now) →
        ReachAs (definitions_in x.rows x.entries 0 x.definitions) wanted.now result }
{
    let mut flagged = [0; Limits::NAMES];
    let mut waiting = ArrayVec::<u16, { Limits::NAMES }>::new();
    'wanted: for w in wanted {
        let i = *w as usize;
        if Limits::NAMES <= i {
            continue;
        }
        if flagged[i] == 1 {
            continue;
        }
        flagged[i] = 1;
        waiting.push(*w);
    }
    'names: while let Some(m) = waiting.pop() {
        let mut link = head[m as usize];
        'rows: while let Some(row) = link.checked_sub(1) {
            link = next[row as usize];
            let Some(n) = owner[row as usize].checked_sub(1) else {
                continue;
            };
            if flagged[n as usize] == 1 {
                continue;
            }
            flagged[n as usize] = 1;
            waiting.push(n);
        }
    }
    flagged
}

// Finds for each row of a book the first row from it on that is a name which is a wanted one or reaches one by references of main's definitions. As
// many names may be wanted as there are numbers, and each as often: they are looked for at once.
pub fn find_nearest(book: AdmittedBook<'_>, main: usize, wanted: &[u16], near: &mut Near)
    requires { (main ≤ book.contents.definitions) × (near.old ≡ no_places) }
    ensures { NearestAs (nodes_part book.entry.bytes.now) (definitions_part book.entry.bytes.now) book.entry.contents.nodes main wanted.now near.new }
{
    let nodes = book.contents.nodes;
    find_nearest_in(book.definitions(), book.nodes(), nodes, main, wanted, near);
}

// The same of rows and entries, which may be of no book: `nodes` is written where no row tells. The table is lent with nothing in it, and has the
// links of the rows before.
pub fn find_nearest_in(
    entries: &[u8],
    rows: &[u8],
    nodes: usize,
    definitions: usize,
    wanted: &[u16],
    near: &mut Near,
)
    requires { ((names : ℕ) × Defining rows.now entries.now names nodes definitions) × (near.old ≡ no_places) }
    ensures { NearestAs rows.now entries.now nodes definitions wanted.now near.new }
{
    let mut owner = [0; Limits::NODES];
    owners(entries, rows, definitions, &mut owner);
    let mut head = [0; Limits::NAMES];
    let book = BookRows { rows, nodes };
    book.link(&mut head, near);
    let flags = reaching(&owner, &head, near, wanted);
    book.nearest(&flags, near);
}
