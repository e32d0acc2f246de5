// Numbers and lines as text, written into a buffer.
#![tactic(auto)]

ghost use Rattle.std.specs.Prelude.{◌≡◌, ℕ, ◌+◌, ◌*◌, ◌^◌, ◌≤◌, ◌<◌, [], ◌∷◌, map, length};
ghost use Rattle.model.specs.Numbers.{digits};
ghost use Rattle.model.specs.Lines.{fields_text, number_line_of};
ghost use Rattle.base_lists.specs.Written.{Wrote};
ghost use Rattle.text_writing.specs.Writes.{HasRoom, Writes};

// kept: a division for each digit. Tried: `x.max(1).ilog10() + 1`, which proves, but takes a fifth more time for numbers below 1,000
pub fn digit_count(x: u32) -> usize
    ensures { result ≡ length (digits x) }
{
    let mut n = 1;
    let mut left = x;
    while 10 <= left {
        left /= 10;
        n += 1;
    }
    n
}

// The length of a line: a word, a separator in front of each number, and the line feed.
pub fn line_length(word: &[u8], numbers: &[u32]) -> usize
    requires { length word.now + 11 * length numbers.now + 1 < 2 ^ 64 }
    ensures by_index { (separator : ℕ) → result ≡ length (number_line_of word.now separator numbers.now) }
    ensures upper_bound { result ≤ length word.now + 11 * length numbers.now + 1 }
{
    let mut total = word.len() + 1;
    for &x in numbers {
        total += digit_count(x) + 1;
    }
    total
}

// kept: functions on a place, which the methods call. Tried: methods that call each other, with which a listing takes twice as long

// Writes a byte at a place, and returns the next place.
fn write_byte(buf: &mut [u8], at: usize, b: u8) -> usize
    requires { at + 1 ≤ length buf.old }
    ensures { Wrote buf.old buf.new at result (b ∷ []) }
{
    buf[at] = b;
    at + 1
}

// Writes the decimal text of a number of any size at a place, and returns the place after it.
fn write_digits(buf: &mut [u8], at: usize, x: u64) -> usize
    requires { at + length (digits x) ≤ length buf.old }
    ensures { Wrote buf.old buf.new at result (digits x) }
{
    if x < 10 {
        return write_byte(buf, at, b'0' + x as u8);
    }
    let i = write_digits(buf, at, x / 10);
    write_byte(buf, i, b'0' + (x % 10) as u8)
}

// The same for a number of one or two digits.
fn write_below_100(buf: &mut [u8], at: usize, x: u32) -> usize
    requires { (x < 100) × (at + length (digits x) ≤ length buf.old) }
    ensures { Wrote buf.old buf.new at result (digits x) }
{
    if x < 10 {
        return write_byte(buf, at, b'0' + x as u8);
    }
    let i = write_byte(buf, at, b'0' + (x / 10) as u8);
    write_byte(buf, i, b'0' + (x % 10) as u8)
}

// The same for a number of at most three digits.
fn write_below_1000(buf: &mut [u8], at: usize, x: u32) -> usize
    requires { (x < 1000) × (at + length (digits x) ≤ length buf.old) }
    ensures { Wrote buf.old buf.new at result (digits x) }
{
    if x < 100 {
        return write_below_100(buf, at, x);
    }
    let i = write_below_100(buf, at, x / 10);
    write_byte(buf, i, b'0' + (x % 10) as u8)
}

// Writes the decimal text of a number at a place, and returns the place after it. Nearly all nodes are below 1,000.
// kept: two functions without recursion beside `write_digits`, since only these does the compiler put into the caller's loop
fn write_number(buf: &mut [u8], at: usize, x: u32) -> usize
    requires { at + length (digits x) ≤ length buf.old }
    ensures { Wrote buf.old buf.new at result (digits x) }
{
    if x < 1000 {
        return write_below_1000(buf, at, x);
    }
    write_digits(buf, at, x as u64)
}

// Writes a separator and a number at a place, and returns the place after them.
fn write_field(buf: &mut [u8], at: usize, separator: u8, x: u32) -> usize
    requires { at + length (separator ∷ digits x) ≤ length buf.old }
    ensures { Wrote buf.old buf.new at result (separator ∷ digits x) }
{
    let i = write_byte(buf, at, separator);
    write_number(buf, i, x)
}

// Writes numbers at a place, a separator in front of each, then the line feed, and returns the place after it.
fn write_fields(buf: &mut [u8], at: usize, separator: u8, numbers: &[u32]) -> usize
    requires { at + length (fields_text separator (map digits numbers.now)) ≤ length buf.old }
    ensures { Wrote buf.old buf.new at result (fields_text separator (map digits numbers.now)) }
{
    let mut pos = at;
    for &x in numbers {
        pos = write_field(buf, pos, separator, x);
    }
    write_byte(buf, pos, b'\n')
}

// Text that is written into a lent buffer: the buffer, and the place behind what was written.
#[derive(Drop)]
pub struct Writer<'a> {
    pub buf: &'a mut [u8],
    pub at: usize,
}

impl Writer<'_> {
    // Writes a byte.
    pub fn byte(&mut self, b: u8)
        requires { HasRoom self.old (b ∷ []) }
        ensures { Writes self.old self.new (b ∷ []) }
    {
        self.at = write_byte(self.buf, self.at, b);
    }

    // Writes a text.
    pub fn text(&mut self, text: &[u8])
        requires { HasRoom self.old text.now }
        ensures { Writes self.old self.new text.now }
    {
        base_lists::copy(text, self.buf, self.at);
        self.at += text.len();
    }

    // Writes the decimal text of a number of any size.
    pub fn digits(&mut self, x: u64)
        requires { HasRoom self.old (digits x) }
        ensures { Writes self.old self.new (digits x) }
    {
        self.at = write_digits(self.buf, self.at, x);
    }

    // The same for a number of 32 bits, and sooner for one below 1,000.
    pub fn number(&mut self, x: u32)
        requires { HasRoom self.old (digits x) }
        ensures { Writes self.old self.new (digits x) }
    {
        self.at = write_number(self.buf, self.at, x);
    }

    // Writes a separator and a number.
    pub fn field(&mut self, separator: u8, x: u32)
        requires { HasRoom self.old (separator ∷ digits x) }
        ensures { Writes self.old self.new (separator ∷ digits x) }
    {
        self.at = write_field(self.buf, self.at, separator, x);
    }

    // Writes a line: a word, a separator in front of each number, and the line feed.
    pub fn line(&mut self, word: &[u8], separator: u8, numbers: &[u32])
        requires { HasRoom self.old (number_line_of word.now separator numbers.now) }
        ensures { Writes self.old self.new (number_line_of word.now separator numbers.now) }
    {
        self.text(word);
        self.at = write_fields(self.buf, self.at, separator, numbers);
    }
}
