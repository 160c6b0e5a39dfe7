// What is put into a lent list, entry after entry, each of as many numbers. Assumes nothing of a book.
ghost use Rattle.std.specs.Prelude.{◌≡◌, ◌+◌, ◌*◌, ◌<◌, ◌^◌, length};
ghost use Rattle.analysis.specs.Places.{put_at};

// The entries so far: each is counted, and written where there is a place for it. So a list without places is what they are counted with.
#[derive(Drop)]
pub(crate) struct Places<'a> {
    pub(crate) out: &'a mut [u16],
    pub(crate) count: usize,
}

impl Places<'_> {
    // One entry more. Its place is tested and sliced, since of `get_mut` std says nothing of what the list ends as.
    pub(crate) fn put(&mut self, entry: &[u16])
        requires room { length entry.now * self.old.count + length entry.now < 2 ^ 64 }
        requires few { self.old.count + 1 < 2 ^ 64 }
        ensures same { self.new.out.ghost_name ≡ self.old.out.ghost_name }
        ensures count { self.new.count ≡ self.old.count + 1 }
        ensures put { self.new.out.now ≡ put_at self.old.count entry.now self.old.out.now }
    {
        let at = entry.len() * self.count;
        let until = at + entry.len();
        if until <= self.out.len() {
            self.out[at..until].copy_from_slice(entry);
        }
        self.count += 1;
    }
}
