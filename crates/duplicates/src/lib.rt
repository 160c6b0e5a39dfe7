// The first duplicate in a list of numbers.
// Numbers that ascend have none, and few are compared in pairs. Others go through a digital search tree, in which a number lies at most 32 links
// deep, one for each of its bits: no choice of numbers makes that slow, as it may make buckets of hashes.
#![tactic(auto)]

ghost use Rattle.std.specs.Prelude.{◌+◌, ◌*◌, ◌≤◌, ◌<◌, length, IsTrue, MatchBool, MatchOption};
ghost use Rattle.format.specs.Distinct.{Distinct};
ghost use Rattle.duplicates.specs.Duplicate.{FirstDuplicate, StandsBefore};
ghost use Rattle.duplicates.specs.Tree.{Tree};

use format::Limits;

// How many numbers are compared in pairs: below that the links cost more than they spare.
const SMALL: usize = 32;

// Up to how many numbers a small table of links is enough, so that no more than 64 bytes are cleared for a number.
const FEW: usize = 256;

// Two links for each place.
const FEW_LINKS: usize = 2 * FEW;

const LINKS: usize = 2 * Limits::NODES;

// Whether each number is greater than the one before, so that none stands twice.
fn ascends(keys: &[u32]) -> bool
    ensures { IsTrue result → Distinct keys.now }
{
    keys.is_sorted_by(|before, key| before < key)
}

// The first duplicate, each number compared with all before it.
fn by_pairs(keys: &[u32]) -> Option<usize>
    ensures { MatchOption result (Distinct keys.now) (λ r. FirstDuplicate keys.now r) }
{
    (0..keys.len()).find(|n| keys[..*n].contains(&keys[*n]))
}

// Looks for the number at place n among those before it, by its bits from the lowest on; where it is not there, links place n in.
fn meet(keys: &[u32], links: &mut [u16], n: usize) -> bool
    requires inside { n < length keys.now }
    requires few { length keys.now ≤ 4096 }
    requires tree { Tree keys.now links.old n }
    ensures { MatchBool result (StandsBefore keys.now n) (¬ StandsBefore keys.now n × Tree keys.now links.new (n + 1)) }
{
    let key = keys[n];
    let mut at = 0;
    let mut rest = key;
    loop {
        if keys[at] == key {
            return true;
        }
        let place = 2 * at + (rest % 2) as usize;
        let next = links[place] as usize;
        if next == 0 {
            links[place] = n as u16;
            return false;
        }
        at = next;
        rest /= 2;
    }
}

// The first duplicate, each number looked for in the tree of those before it, over N links. A place is linked from another by its
// number; 0 is none, since nothing leads to the root, place 0: an Option would take twice the memory, of which there is a
// fixed amount.
fn by_tree<const N: usize>(keys: &[u32]) -> Option<usize>
    requires few { length keys.now ≤ 4096 }
    requires room { 2 * length keys.now ≤ N }
    requires small { N ≤ 8192 }
    ensures { MatchOption result (Distinct keys.now) (λ r. FirstDuplicate keys.now r) }
{
    let mut links = [0; N];
    // No `find`: its closure would change the links, and what `meet` asks and says would have to be written at it once more.
    for n in 1..keys.len() {
        if meet(keys, &mut links, n) {
            return Some(n);
        }
    }
    None
}

// The first place whose number stands before it.
pub fn first_duplicate(keys: &[u32]) -> Option<usize>
    requires { length keys.now ≤ 4096 }
    ensures { MatchOption result (Distinct keys.now) (λ r. FirstDuplicate keys.now r) }
{
    if ascends(keys) {
        return None;
    }
    match keys.len() {
        ..=SMALL => by_pairs(keys),
        ..=FEW => by_tree::<FEW_LINKS>(keys),
        _ => by_tree::<LINKS>(keys),
    }
}
