// The names that are empty: those with a definition that does not fill. What an admitted book gives is in a scope.
ghost use Rattle.inhabitants.specs.Empty.{EmptiedAs};

use crate::filling::fill;
use crate::waiting::Waiting;
use book::tables::Flags;
use environment::root_of;
use environment::scope::Scope;
use format::Limits;

pub fn empty_names(scope: Scope) -> Flags
    ensures { EmptiedAs scope.entry.rows.now scope.entry.roots.now scope.entry.names result }
{
    let mut filling = Waiting::new();
    fill(&mut filling, scope);
    let mut flags = [0; Limits::NAMES];
    for n in 0..scope.names {
        if let Some(root) = root_of(scope.roots, n) {
            flags[n] = !filling.settled(root) as u8;
        }
    }
    flags
}
