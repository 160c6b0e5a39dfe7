// Counts of what was printed: refusals at their numbers, then the questions that passed or gave entries.
use crate::lines::Lines;
use refusals::Refusal;

// What is counted where it is given.
#[derive(Clone, Copy)]
pub(crate) enum Given {
    Layout,
    Name,
    Check,
    InitCheck,
    List,
    Marks,
    InitList,
    DraftList,
    Emptiness,
    Values,
    UseCounts,
    Methods,
    Chains,
    Lookups,
    Uses,
    Alias,
    Projection,
}

impl Given {
    const COUNT: usize = 17;

    // Each with its word, in the order in which they are printed.
    const ALL: [(Given, &'static [u8]); Given::COUNT] = [
        (Given::Layout, b"layout"),
        (Given::Name, b"name"),
        (Given::Check, b"check"),
        (Given::InitCheck, b"init-check"),
        (Given::List, b"list"),
        (Given::Marks, b"marks"),
        (Given::InitList, b"init"),
        (Given::DraftList, b"draft"),
        (Given::Emptiness, b"empty"),
        (Given::Values, b"values"),
        (Given::UseCounts, b"use-counts"),
        (Given::Methods, b"methods"),
        (Given::Chains, b"chains"),
        (Given::Lookups, b"lookups"),
        (Given::Uses, b"uses"),
        (Given::Alias, b"alias"),
        (Given::Projection, b"project"),
    ];
}

// More than the highest number of a refusal.
const NUMBERS: usize = 25;

#[derive(Drop)]
pub(crate) struct Tally {
    refused: [u32; NUMBERS],
    given: [u32; Given::COUNT],
}

impl Tally {
    pub(crate) fn new() -> Tally {
        Tally {
            refused: [0; NUMBERS],
            given: [0; Given::COUNT],
        }
    }

    pub(crate) fn refuse(&mut self, why: Refusal) {
        if let Some(count) = self.refused.get_mut(why.number() as usize) {
            *count = count.saturating_add(1);
        }
    }

    pub(crate) fn give(&mut self, what: Given) {
        let place = what as usize;
        self.given[place] = self.given[place].saturating_add(1);
    }

    // An answer with so many entries, which counts if there are any.
    pub(crate) fn give_entries(&mut self, what: Given, entries: usize) {
        if 0 < entries {
            self.give(what);
        }
    }

    // All counts, and whether none of them is 0: 19 to 23 are no refusals yet.
    pub(crate) fn print(self, lines: Lines) {
        let mut is_complete = true;
        for (number, count) in self.refused.iter().enumerate() {
            if (0 < number && number < 19) || 23 < number {
                lines.count(b"tally refused ", number);
                lines.count(b" ", *count as usize);
                lines.write(b"\n");
                is_complete &= 0 < *count;
            }
        }
        for (what, word) in Given::ALL {
            let count = self.given[what as usize];
            lines.words(&[b"tally given ", word]);
            lines.count(b" ", count as usize);
            lines.write(b"\n");
            is_complete &= 0 < count;
        }
        if is_complete {
            lines.write(b"tally complete\n");
        } else {
            lines.write(b"tally incomplete\n");
        }
    }
}
