// Asks every question of each book of a batch from standard input, as tools/mkbatch.py makes it, and prints a line for each answer; after
// the last book come counts of all that was printed. tools/answers.py tells the lines, docs/TESTING.md the batch that is stored.
// Proved is that the program is safe and ends: what it prints is compared with what is stored. It counts on no promise of the libraries
// that it tests, so a length that they answer is tested before a list is cut by it; but for inner, which asks functions that ask for a book.
#![tactic(auto)]

mod asked;
mod asking;
mod inner;
mod lines;
mod records;
mod tally;

fn main(rt: HostRuntime) {
    let mut tally = tally::Tally::new();
    records::replay_all(&rt, &mut tally);
    tally.print(lines::Lines { rt: &rt });
}
