// What a question hands over: names ascending by their flags. Assumes nothing of a book.
ghost use Rattle.std.specs.Prelude.{◌≡◌, ◌≤◌, length};
ghost use Rattle.book.specs.Tables.{flagged};

use arrayvec::ArrayVec;
use format::Limits;

// Name numbers, of which there are no more than names.
pub type Names = ArrayVec<u16, { Limits::NAMES }>;

// The names below `names` whose flag is set, ascending. Any bytes are flags: a bool for each name would ask more of who has bytes.
pub fn names_of(flags: &[u8], names: usize) -> Names
    requires { (length flags.now ≡ 1024) × (names ≤ 1024) }
    ensures { result.items ≡ flagged flags.now 0 names }
{
    let mut list = ArrayVec::new();
    // Nothing is cut short: there is room for each name.
    let _ = list.extend((0..names).filter(|n| flags[*n] == 1).map(|n| n as u16));
    list
}
