// `project_methods` of analysis.rs: methods take their names from the asked ones, in order. The asked names are kept as counts, since
// their order does not matter. Functions ask of their caller what a book gives (specs/Projecting.antt).
ghost use Rattle.std.specs.Prelude.{◌≡◌, List, ℕ, ◌-◌, ◌<◌, get_or};
ghost use Rattle.format.specs.Layout.{siblings};
ghost use Rattle.environment.specs.Trees.{Methods};
ghost use Rattle.syntax.specs.Interfaces.{methods_in};
ghost use Rattle.listing.specs.Project.{times, project_from, projected};
ghost use Rattle.refusals.specs.Handed.{HandedAs};
ghost use Rattle.analysis.specs.Projecting.{AskedBy, LowestFar, FirstLeft, way, Room, MethodTaken, MethodsTaken, Services, AllProjected};

use crate::places::Places;
use book::read::Node;
use book::walks::Siblings;
use format::Limits;
use refusals::{Answer, Refusal};

// How often each of the 1,024 names is asked for.
type Counts = [usize; Limits::NAMES];

// The asked numbers of a list, as counts.
fn count_asked(list: &[u16]) -> Counts
    ensures { (n : ℕ) → n < 1024 → get_or result n 0 ≡ times n list.now }
{
    let mut left = [0; Limits::NAMES];
    for n in list {
        let i = *n as usize;
        if i < Limits::NAMES {
            left[i] += 1;
        }
    }
    left
}

// The lowest number of a list that is no name of any book.
fn lowest_far(list: &[u16]) -> Option<u16>
    ensures { LowestFar result list.now }
{
    list.iter()
        .copied()
        .filter(|n| Limits::NAMES <= *n as usize)
        .min()
}

// The first name still asked for.
fn first_left(left: &Counts) -> Option<u16>
    ensures { FirstLeft left.now result }
{
    left.iter().position(|often| *often != 0).map(|n| n as u16)
}

// A projection on its way: the next position, and the names left over. The positions taken are lent beside it: with both in one struct no proof was
// found of what the lent list has when the walk is over.
#[derive(Drop)]
struct Taking<'a> {
    at: usize,
    left: &'a mut Counts,
}

impl Taking<'_> {
    // The method at the next position, with name n: it takes the position where that is still asked for.
    fn take(&mut self, n: usize, taken: &mut Places<'_>)
        requires { Room 1 (way self.old taken.old) × (n < 1024) }
        ensures left { self.new.left.ghost_name ≡ self.old.left.ghost_name }
        ensures out { taken.new.out.ghost_name ≡ taken.old.out.ghost_name }
        ensures taken { MethodTaken n (way self.old taken.old) (way self.new taken.new) }
    {
        if self.left[n] != 0 {
            self.left[n] -= 1;
            taken.put(&[self.at as u16]);
        }
        self.at += 1;
    }

    // Methods that stand beside each other.
    fn take_methods(&mut self, methods: Siblings<'_>, taken: &mut Places<'_>)
        requires { ((roots ends : List ℕ) × Methods methods.rows.now roots ends methods.at methods.until) ×
            Room (methods.until - methods.at) (way self.old taken.old) }
        ensures left { self.new.left.ghost_name ≡ self.old.left.ghost_name }
        ensures out { taken.new.out.ghost_name ≡ taken.old.out.ghost_name }
        ensures taken { MethodsTaken (methods.entry.until - methods.entry.at) (siblings methods.entry.rows.now methods.entry.at methods.entry.until)
            (way self.old taken.old) (way self.new taken.new) }
    {
        for (_, t) in methods {
            self.take(t.label as usize, taken);
        }
    }
}

// All methods of the services: how many positions are taken, what is left of the asked names, and those positions written that have a place.
fn project_methods(rows: &[u8], services: &[u16], left: &mut Counts, out: &mut [u16]) -> usize
    requires { Services rows.now services.now × AskedBy left.old }
    ensures { AllProjected (methods_in rows.now services.now) left.old out.old left.new out.new result }
{
    let mut taking = Taking { at: 0, left };
    let mut taken = Places { out, count: 0 };
    for s in services {
        let s = *s as usize;
        let t = Node::at(rows, s);
        taking.take_methods(Siblings::new(rows, s + 1, s + t.size), &mut taken);
    }
    taken.count
}

// The positions of the methods of the services that take the asked names. 15: the lowest name left over; 16: the lent list is too short. A
// refusal leaves the lent list as it is: positions are counted, with no list, before they are written. A list of its own would take
// 128 KiB: a book has at most 4,096 methods, but what is asked here allows each of 16 services as many.
pub fn project(rows: &[u8], services: &[u16], list: &[u16], out: &mut [u16]) -> Answer
    requires { Services rows.now services.now }
    ensures { HandedAs (projected (project_from 0 (methods_in rows.now services.now) list.now)) out.old out.new result }
{
    let asked = count_asked(list);
    let far = lowest_far(list);
    let mut left = asked;
    let taken = project_methods(rows, services, &mut left, &mut []);
    if let Some(n) = first_left(&left).or(far) {
        return Err(Refusal::Absent(n));
    }
    if out.len() < taken {
        return Err(Refusal::Short(taken as u32));
    }
    left = asked;
    Ok(project_methods(rows, services, &mut left, out))
}
