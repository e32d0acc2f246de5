// Numbers and lines, read from a text. A line has a shape: a first word, a separator in front of each number, and a count of numbers.
#![tactic(auto)]

ghost use Rattle.std.specs.Prelude.{◌≡◌, ◌≤◌, T, length, drop};
ghost use Rattle.model.specs.Numbers.{value_of};
ghost use Rattle.model.specs.Lines.{number_line};
ghost use Rattle.text_reading.specs.Scan.{run, number_at, has_byte, LineEnd, begins, field_first, numbers_first, is_shape, line_by, pair_by};
ghost use Rattle.text_reading.specs.Scan.{found_number, found_numbers, found};

// A number and the place after it.
#[derive(Clone, Copy)]
pub struct Number {
    pub value: u64,
    pub end: usize,
}

// The value of some digits, and their count.
#[derive(Clone, Copy)]
struct Digits {
    value: u64,
    count: usize,
}

// The last three of some numbers, and the place after them. Where there are fewer, the first of the three say nothing.
// kept: the last three and no array of N, since a shape has its count as a value
#[derive(Clone, Copy)]
pub struct Numbers {
    pub third_last: u64,
    pub second_last: u64,
    pub last: u64,
    pub end: usize,
}

// The two numbers of a line and the place after its line feed.
#[derive(Clone, Copy)]
pub struct Pair<T> {
    pub a: T,
    pub b: T,
    pub end: usize,
}

// The digits that at most eleven bytes begin with: their value and their count.
fn leading_digits(part: &[u8]) -> Digits
    requires { length part.now ≤ 11 }
    ensures { (result.value ≡ value_of (run part.now)) × (result.count ≡ length (run part.now)) }
{
    let mut value = 0;
    for (count, b) in part.iter().enumerate() {
        if !b.is_ascii_digit() {
            return Digits { value, count };
        }
        value = value * 10 + (b - b'0') as u64;
    }
    Digits {
        value,
        count: part.len(),
    }
}

// The number at a place: one to ten digits without a leading zero, 0 itself excepted.
pub fn parse_number(text: &[u8], at: usize) -> Option<Number>
    ensures { result ≡ number_at text.now at }
{
    let rest = text.get(at..)?;
    let digits = leading_digits(&rest[..rest.len().min(11)]);
    if digits.count == 0 {
        return None;
    }
    if 10 < digits.count {
        return None;
    }
    if 1 < digits.count && has_byte(text, at, b'0') {
        return None;
    }
    Some(Number {
        value: digits.value,
        end: at + digits.count,
    })
}

// Whether byte b stands at a place.
pub fn has_byte(text: &[u8], at: usize, b: u8) -> bool
    ensures { result ≡ has_byte text.now at b }
{
    text.get(at) == Some(&b)
}

// The place of the first line feed from a place on, or the end of the text.
pub fn line_end(text: &[u8], at: usize) -> usize
    ensures { LineEnd text.now at result }
{
    for i in at..text.len() {
        if text[i] == b'\n' {
            return i;
        }
    }
    at.max(text.len())
}

// Whether a word stands at a place.
pub fn has_word(text: &[u8], at: usize, word: &[u8]) -> bool
    ensures { result ≡ begins word.now (drop at text.now) }
{
    text[at.min(text.len())..].starts_with(word)
}

// The separator at a place, and the number after it.
fn field_at(text: &[u8], at: usize, separator: u8) -> Option<Number>
    ensures { found_number text.now result ≡ field_first separator (drop at text.now) }
{
    if !has_byte(text, at, separator) {
        return None;
    }
    parse_number(text, at + 1)
}

// The numbers from a place on, at most three, each after the separator.
fn numbers_at(text: &[u8], at: usize, separator: u8, count: usize) -> Option<Numbers>
    requires { count ≤ 3 }
    ensures { found_numbers text.now count result ≡ numbers_first separator count (drop at text.now) }
{
    let mut numbers = Numbers {
        third_last: 0,
        second_last: 0,
        last: 0,
        end: at,
    };
    for _ in 0..count {
        let number = field_at(text, numbers.end, separator)?;
        numbers = Numbers {
            third_last: numbers.second_last,
            second_last: numbers.last,
            last: number.value,
            end: number.end,
        };
    }
    Some(numbers)
}

// The shape of a line: its first word, the separator in front of each number, and the count of numbers.
#[derive(Clone, Copy)]
pub struct Shape<'a> {
    pub word: &'a [u8],
    pub separator: u8,
    pub count: usize,
}

impl<'a> Shape<'a> {
    // Whether a line may have it: a word of one line, a separator below the digits that is no line feed, and at most three numbers.
    fn is_possible(&self) -> bool
        ensures { result ≡ is_shape self.now.word.now self.now.separator self.now.count }
    {
        !self.word.contains(&b'\n')
            & (self.separator < b'0')
            & (self.separator != b'\n')
            & (self.count <= 3)
    }

    // The line at a place: the numbers, and the place after the line feed.
    fn parse(&self, text: &[u8], at: usize) -> Option<Numbers>
        requires { T (is_shape self.now.word.now self.now.separator self.now.count) }
        ensures { found_numbers text.now self.now.count result
            ≡ number_line self.now.word.now self.now.separator self.now.count (drop at text.now) }
    {
        if !has_word(text, at, self.word) {
            return None;
        }
        let numbers = numbers_at(text, at + self.word.len(), self.separator, self.count)?;
        if !has_byte(text, numbers.end, b'\n') {
            return None;
        }
        Some(Numbers {
            end: numbers.end + 1,
            ..numbers
        })
    }
}

// The line reader: the text, and the start of the next line.
#[derive(Clone, Copy)]
pub struct LineReader<'a> {
    pub text: &'a [u8],
    pub at: usize,
}

impl<'a> LineReader<'a> {
    // A reader of the lines from a place on.
    pub fn at(text: &'a [u8], at: usize) -> Self
        ensures { (result.text ≡ text.entry) × (result.at ≡ at) }
    {
        LineReader { text, at }
    }

    // The next line, by its shape. A shape that no line may have finds none.
    pub fn next_line(&self, shape: &Shape<'_>) -> Option<Numbers>
        ensures { found_numbers self.now.text.now shape.now.count result
            ≡ line_by shape.now.word.now shape.now.separator shape.now.count (drop self.now.at self.now.text.now) }
    {
        if !shape.is_possible() {
            return None;
        }
        shape.parse(self.text, self.at)
    }
}

// The line of two numbers at a place.
// kept: text and place and no reader, since the place is what a line gives for the next one, and a reader would be made of it at each turn
pub fn pair_at(text: &[u8], at: usize, word: &[u8], separator: u8) -> Option<Pair<u64>>
    ensures { found text.now result ≡ pair_by word.now separator (drop at text.now) }
{
    let shape = Shape {
        word,
        separator,
        count: 2,
    };
    let Numbers {
        second_last: a,
        last: b,
        end,
        ..
    } = LineReader::at(text, at).next_line(&shape)?;
    Some(Pair { a, b, end })
}
