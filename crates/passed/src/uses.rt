// The uses of a name: a row of `chase_def_use`. A number outside the table is used nowhere.
ghost use Rattle.std.specs.Prelude.{◌≡◌, length};
ghost use Rattle.refusals.specs.Handed.{UsesAs};
ghost use Rattle.listing.specs.Uses.{uses};
ghost use Rattle.analysis.specs.Entries.{Offered};
ghost use Rattle.passed.specs.Uses.{UsesHanded};

use crate::CheckedBook;
use analysis::def_use::Searched;
use analysis::reaching::Near;
use format::Limits;
use refusals::{Answer, Refusal};
use syntax::interface::Interface;

// The entries of an interface: counted first, with no places, and written where there are places for all. There may be millions of them, for which
// fixed memory has no room.
fn hand_uses(searched: &Searched<'_>, offer: &Interface, out: &mut [u16]) -> Answer
    requires { Offered searched.now.rows.now searched.now.ends.now searched.now.near.now offer.now.from offer.now.until offer.now.services }
    ensures { UsesHanded searched.now.rows.now searched.now.ends.now searched.now.near.now offer.now out.old out.new result }
{
    let needed = searched.put_uses(offer, &mut []);
    if out.len() / 3 < needed {
        return Err(Refusal::Short(needed as u32));
    }
    Ok(searched.put_uses(offer, out))
}

impl CheckedBook<'_> {
    ghost use Rattle.passed.specs.Checked.{book_of};

    pub fn uses(&self, name: u16, out: &mut [u16]) -> Answer
        ensures { UsesAs (uses (book_of self.now) name) out.old out.new result }
    {
        let actor = self.actor()?;
        if Limits::NAMES <= name as usize {
            return Ok(0);
        }
        let mut near: Near = [0; Limits::NODES + 1];
        analysis::reaching::find_nearest(self.book, self.main, &[name], &mut near);
        let searched = Searched {
            rows: self.book.nodes(),
            ends: &self.tables.ends,
            near: &near,
        };
        hand_uses(&searched, actor, out)
    }
}
