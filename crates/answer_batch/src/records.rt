// The records of a batch, from standard input: a byte, and as many of a source's name; three limits and a book's length, of four bytes each;
// the book.
use crate::asking::Asking;
use crate::lines::Lines;
use crate::tally::Tally;
use format::Limits;
use std::io::Read;

// As many bytes as a source's name has at most: one byte tells its length.
const ROOM_FOR_SOURCE: usize = 255;

// Just so many bytes of standard input at the front of a buffer, if they come and it has room for them.
fn read_exactly<'a>(rt: &HostRuntime, buffer: &'a mut [u8], size: usize) -> Option<&'a [u8]> {
    let part = buffer.get_mut(..size)?;
    rt.stdin().read_exact(part).ok()?;
    Some(part)
}

// A number in four bytes, the lowest first.
fn read_number(rt: &HostRuntime) -> Option<u32> {
    let mut bytes = [0; 4];
    rt.stdin().read_exact(&mut bytes).ok()?;
    Some(u32::from_le_bytes(bytes))
}

// Replays the rest of a record, whose source's name has so many bytes. Answers whether it was there.
fn replayed_rest(rt: &HostRuntime, source_size: usize, tally: &mut Tally) -> Option<()> {
    let mut source_room = [0; ROOM_FOR_SOURCE];
    let source = read_exactly(rt, &mut source_room, source_size)?;
    let limits = Limits {
        names: read_number(rt)?,
        nodes: read_number(rt)?,
        definitions: read_number(rt)?,
    };
    let size = read_number(rt)?;
    let mut book_room = [0; Limits::ROOM];
    let book = read_exactly(rt, &mut book_room, size as usize)?;
    let mut asking = Asking {
        lines: Lines { rt },
        source,
        book,
        limits,
        tally,
    };
    asking.replay();
    Some(())
}

// Replays the next record. Answers whether there was one.
fn replayed(rt: &HostRuntime, tally: &mut Tally) -> bool {
    let mut head = [0; 1];
    if rt.stdin().read_exact(&mut head).is_err() {
        return false;
    }
    let was_whole = replayed_rest(rt, head[0] as usize, tally).is_some();
    if !was_whole {
        Lines { rt }.write(b"the batch is cut\n");
    }
    was_whole
}

// All records. A proved loop has to end, and nothing says that the input does: so many turns no run uses up.
pub(crate) fn replay_all(rt: &HostRuntime, tally: &mut Tally) {
    for _ in 0..u64::MAX {
        if !replayed(rt, tally) {
            return;
        }
    }
}
