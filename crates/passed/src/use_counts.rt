// How many uses each listed definition has, and all together: lengths of the rows of `chase_def_use`. Who wants a row itself asks `uses` of the same
// book.
ghost use Rattle.std.specs.Prelude.{◌≡◌, ◌≤◌, ◌<◌, length};
ghost use Rattle.refusals.specs.Handed.{UseCountsAs};
ghost use Rattle.listing.specs.UseCounts.{use_counts};
ghost use Rattle.passed.specs.UseCounts.{SmallNames, CountsHanded};

use crate::CheckedBook;
use analysis::use_counts::Counts;
use environment::scope::BookScope;
use format::Limits;
use refusals::{Refusal, UseCounts, UseCountsAnswer};

// Hands the counts of these names over, in their order, into a list that has the places.
fn hand_counts(listed: &[u16], counts: &Counts, out: &mut [u32]) -> UseCounts
    requires names { SmallNames listed.now × (length listed.now ≤ 512) }
    requires places { length listed.now ≤ length out.old }
    ensures { CountsHanded listed.now counts.now out.old out.new result }
{
    let mut total = 0u64;
    for (i, name) in listed.iter().enumerate() {
        let count = counts[*name as usize];
        out[i] = count;
        total += u64::from(count);
    }
    UseCounts {
        listed: listed.len(),
        total,
    }
}

impl CheckedBook<'_> {
    ghost use Rattle.passed.specs.Checked.{book_of};

    pub fn use_counts(&self, out: &mut [u32]) -> UseCountsAnswer
        ensures { UseCountsAs (use_counts (book_of self.now)) out.old out.new result }
    {
        let actor = self.actor()?;
        let scope = BookScope::of(self.book, &self.tables.roots);
        let w = analysis::chase::chase_actor(scope, *actor)?;
        let listed = w.listed.as_slice();
        if out.len() < listed.len() {
            return Err(Refusal::Short(listed.len() as u32));
        }
        let mut counts = [0; Limits::NAMES];
        analysis::use_counts::count_uses(scope, &self.tables.ends, actor, &mut counts);
        Ok(hand_counts(listed, &counts, out))
    }
}
