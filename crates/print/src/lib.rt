// What the programs print, laid into a lent buffer: bytes, numbers, quoted names and the line of a refusal. Where the buffer ends first the
// text is cut there: a buffer that is longer than the text has all of it.
// Every function that is public is total: none asks anything of its caller.
#![tactic(auto)]

ghost use Rattle.std.specs.Prelude.{◌≡◌, ◌≤◌, [], ◌∷◌, length, take, is_some, unwrap_or};
ghost use Rattle.print.specs.Quoted.{plain, escape, quoted};
ghost use Rattle.print.specs.Decimal.{decimal};
ghost use Rattle.print.specs.Refused.{in_table, name_or_number, named_or_dash, refusal_of};

use refusals::Refusal;

// Whether a byte of a name prints as it stands.
#[tactic(auto, unfolding(crate::specs::Quoted::plain))]
fn is_plain(b: u8) -> bool
    ensures { result ≡ plain b }
{
    b != b'"' && b != b'\\' && b' ' <= b && b <= b'~'
}

// Whether a number is that of a name of the book.
fn is_in_table(book: &[u8], number: u16) -> bool
    ensures { result ≡ in_table book.now number }
{
    book::layout(book).is_some_and(|c| (number as usize) < c.names)
}

// A buffer and the place where the next text is laid; each method lays one and moves the place behind it. Lines are laid in pieces and not by
// `write!`, since std promises what a format writes where it succeeds, and not that it does.
#[derive(Drop)]
pub struct Text<'a> {
    out: &'a mut [u8],
    end: usize,
    ghost within: { end ≤ length out.now },
}

impl<'a> Text<'a> {
    ghost use Rattle.print.specs.Laid.{Lays, LaysWithin};

    // Nothing is laid yet: the place is the buffer's front.
    pub fn new(out: &'a mut [u8]) -> Text<'a>
        ensures front { result.end ≡ 0 }
        ensures out { result.out.now ≡ out.old }
        ensures same { result.out.ghost_name ≡ out.entry.ghost_name }
    {
        Text { out, end: 0 }
    }

    // One byte.
    pub fn byte(&mut self, b: u8)
        ensures { Lays (b ∷ []) self.old self.new }
    {
        if self.end < self.out.len() {
            self.out[self.end] = b;
            self.end += 1;
        }
    }

    // Bytes as they stand.
    pub fn bytes(&mut self, line: &[u8])
        ensures { Lays line.now self.old self.new }
    {
        for b in line {
            self.byte(*b);
        }
    }

    // A byte of a name, as it stands or as `\` and two digits.
    fn escape(&mut self, b: u8)
        ensures { Lays (escape b) self.old self.new }
    {
        if is_plain(b) {
            self.byte(b);
            return;
        }
        let mut digits = [0; 2];
        let _ = hex::encode_to_slice([b], &mut digits);
        self.byte(b'\\');
        self.bytes(&digits);
    }

    // A name in quotes.
    pub fn quoted(&mut self, name: &[u8])
        ensures { Lays (quoted name.now) self.old self.new }
    {
        self.byte(b'"');
        for b in name {
            self.escape(*b);
        }
        self.byte(b'"');
    }

    // A number in decimal, with no zeros in front.
    pub fn decimal(&mut self, n: u64)
        ensures { Lays (decimal n) self.old self.new }
    {
        let mut digits = itoa::Buffer::new();
        self.bytes(digits.format(n).as_bytes());
    }

    // The book's name of this number in quotes, or the number where there is none.
    fn name_or_number(&mut self, book: &[u8], number: u16)
        ensures { LaysWithin 768 (name_or_number book.now number) self.old self.new }
    {
        if is_in_table(book, number) {
            self.quoted(book::name(book, number));
        } else {
            self.decimal(number as u64);
        }
    }

    // What is named, or a dash where nothing is.
    fn named_or_dash(&mut self, named: Option<u16>, book: &[u8])
        ensures { LaysWithin 768 (named_or_dash (is_some named) book.now (unwrap_or named 65535)) self.old self.new }
    {
        match named {
            Some(number) => self.name_or_number(book, number),
            None => self.byte(b'-'),
        }
    }

    // The line of a refusal of this book: fewer than 780 bytes.
    pub fn refusal(&mut self, why: Refusal, book: &[u8])
        ensures { LaysWithin 780 (refusal_of book.now why) self.old self.new }
    {
        self.bytes(b"refused ");
        self.decimal(why.number() as u64);
        self.byte(b' ');
        self.named_or_dash(why.named(), book);
        self.byte(b'\n');
    }

    // What was laid.
    pub fn laid(&self) -> &[u8]
        ensures { result.now ≡ take self.now.end self.now.out.now }
    {
        &self.out[..self.end]
    }

    // The same for as long as the buffer is lent.
    pub fn into_laid(self) -> &'a [u8]
        ensures { result.now ≡ take self.entry.end self.entry.out.now }
    {
        let Text { out, end } = self;
        &out[..end]
    }
}
