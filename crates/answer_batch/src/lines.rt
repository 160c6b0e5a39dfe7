// The pieces of which lines are made, each written at once, so that no buffer limits a line.
use book::kinds::Contents;
use print::Text;
use refusals::Refusal;
use std::io::Print;

// More bytes than any piece has: a name with each byte as three, and some words.
const ROOM_FOR_PIECE: usize = 1050;

// What lines are written by.
#[derive(Clone, Copy)]
pub(crate) struct Lines<'a> {
    pub(crate) rt: &'a HostRuntime,
}

impl Lines<'_> {
    pub(crate) fn write(self, text: &[u8]) {
        let _ = self.rt.write_all(text);
    }

    // A piece, as it is laid.
    fn piece<F: FnOnce(&mut Text)>(self, lay: F)
        requires { F.IsAlwaysCallable lay }
    {
        let mut out = [0; ROOM_FOR_PIECE];
        let mut text = Text::new(&mut out);
        lay(&mut text);
        self.write(text.laid());
    }

    // Words one after another.
    pub(crate) fn words(self, words: &[&[u8]]) {
        self.piece(|text| {
            for word in words {
                text.bytes(word);
            }
        });
    }

    // A word and a number.
    pub(crate) fn count(self, word: &[u8], count: usize) {
        self.piece(|text| {
            text.bytes(word);
            text.decimal(count as u64);
        });
    }

    // A name in quotes between two words.
    pub(crate) fn name(self, before: &[u8], name: &[u8], after: &[u8]) {
        self.piece(|text| {
            text.bytes(before);
            text.quoted(name);
            text.bytes(after);
        });
    }

    // The counts of a book that is whole, which end the line.
    pub(crate) fn whole(self, c: Contents) {
        self.count(b"whole ", c.names);
        self.count(b" ", c.nodes);
        self.count(b" ", c.definitions);
        self.count(b" ", c.files);
        self.write(b"\n");
    }

    // A refusal of a book, which ends the line.
    pub(crate) fn refusal(self, why: Refusal, book: &[u8]) {
        self.piece(|text| text.refusal(why, book));
    }
}
