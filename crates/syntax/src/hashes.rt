// The hashes of the methods of a merged actor, which have to differ: `resolve_actor` of syntax/mod.rs.
ghost use Rattle.std.specs.Prelude.{◌≡◌, List, [], map, ℕ, ◌≤◌, ◌<◌, length, get_or, All};
ghost use Rattle.judgement.specs.Check.{hashes_verdict};
ghost use Rattle.book.specs.Tables.{HashesAgree};
ghost use Rattle.syntax.specs.Interfaces.{methods_in};
ghost use Rattle.syntax.specs.Hashed.{ServicesIn, labels_of};
ghost use Rattle.syntax.specs.Gathering.{GathersAs};

use arrayvec::ArrayVec;
use book::read::Node;
use book::walks::Siblings;
use duplicates::first_duplicate;
use format::Limits;
use refusals::{Refusal, Verdict};

// How many methods are looked at: one more than a book has names, so that among as many two have one name, and one hash.
const MOST: usize = Limits::NAMES + 1;

// The names that label the methods of the services in order, as far as they are looked at.
fn method_names(rows: &[u8], services: &[u16]) -> ArrayVec<u16, MOST>
    requires { ServicesIn rows.now services.now }
    ensures { GathersAs (labels_of (methods_in rows.now services.now)) result.items }
{
    let mut names = ArrayVec::new();
    for s in services {
        let n = *s as usize;
        let until = n + Node::at(rows, n).size;
        for (_, m) in Siblings::new(rows, n + 1, until) {
            if names.is_full() {
                return names;
            }
            names.push(m.label as u16);
        }
    }
    names
}

// The hash of each of these names, by the table.
fn hashes_of(table: &[u32], names: &[u16]) -> ArrayVec<u32, MOST>
    requires { (length table.now ≡ 1024) × (length names.now ≤ 1025) × All (λ v. v < 1024) names.now }
    ensures { result.items ≡ map (λ v. get_or table.now v 0) names.now }
{
    let mut hashes = ArrayVec::new();
    // Nothing is cut short: there is room for each.
    let _ = hashes.extend(names.iter().map(|n| table[*n as usize]));
    hashes
}

// 14: a method whose hash an earlier one has, of the services in order.
pub(crate) fn hashes(rows: &[u8], table: &[u32], services: &[u16]) -> Verdict
    requires { ServicesIn rows.now services.now × (length table.now ≡ 1024) × ((names : List (List ℕ)) × HashesAgree table.now names) }
    ensures { (names : List (List ℕ)) → HashesAgree table.now names →
        result ≡ hashes_verdict names [] (methods_in rows.now services.now) }
{
    let names = method_names(rows, services);
    let hashes = hashes_of(table, names.as_slice());
    match first_duplicate(hashes.as_slice()) {
        None => Ok(()),
        Some(n) => Err(Refusal::SameHash(names.as_slice()[n])),
    }
}
