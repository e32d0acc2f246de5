// Scripts of calls: what the programs that run them share.
// A line of a script is a letter and two numbers. A call prints one line: its letter, 0 or the refusal's number, the answer's
// numbers (those of routes and verdicts as C gets them: crate `base_answer_codes`), and a sum over each list that it may write to.
#![tactic(auto)]

ghost use Rattle.std.specs.Prelude.{◌≡◌, ℕ, ◌%◌, min, length, take};
ghost use Rattle.model.specs.Reading.{read_returned};
ghost use Rattle.test_scripts.specs.Commands.{line_at, command_line, IsLine, read_by};
ghost use Rattle.test_scripts.specs.Sums.{SumsTo, replaced};

use base_answer_codes::{hub_number, route_number, verdict_number};
use model::{Answer, Refusal, Size, TestResult};
use std::io;

// A line of the script: its letter, its numbers and the place after it.
#[derive(Clone, Copy)]
pub struct Command {
    pub letter: u8,
    pub x: u64,
    pub y: u64,
    pub next: usize,
}

// The line at a place, if there is one.
#[tactic(auto, using(std::proofs::lemmas::Bool::Decides::nat_tests))]
pub fn read_command(script: &[u8], at: usize) -> Option<Command>
    ensures { command_line script.now result ≡ line_at script.now at }
{
    let letter = *script.get(at)?;
    if letter == 0 {
        return None;
    }
    let pair = text_reading::pair_at(script, at, &[letter], b',')?;
    Some(Command {
        letter,
        x: pair.a,
        y: pair.b,
        next: pair.end,
    })
}

// The line after that of a command, which says more of it; zeros where there is none.
pub fn line_after(script: &[u8], c: Command) -> Command
    ensures { IsLine script.now (line_at script.now c.next) result }
{
    match read_command(script, c.next) {
        Some(line) => line,
        None => Command {
            letter: 0,
            x: 0,
            y: 0,
            next: script.len(),
        },
    }
}

// A number, but no more than the limit.
pub fn at_most(x: u64, limit: usize) -> usize
    ensures { result ≡ min x limit }
{
    x.min(limit as u64) as usize
}

// The first k entries of a list, or all where there are fewer.
pub fn front<T>(list: &[T], k: u64) -> &[T]
    ensures { result.now ≡ take k list.now }
{
    &list[..at_most(k, list.len())]
}

// The same, to be written to.
pub fn front_mut<T>(list: &mut [T], k: u64) -> &mut [T]
    ensures { result.now ≡ take k list.old }
{
    let end = at_most(k, list.len());
    &mut list[..end]
}

// An entry that a script sets: of a number of 64 bits it takes the low ones.
pub trait Entry: Copy {
    ghost low_bits: { ℕ → Self };

    fn low_bits(x: u64) -> Self
        ensures { result ≡ low_bits x };
}

impl Entry for u16 {
    ghost low_bits = { λ x. x % 65536 };

    fn low_bits(x: u64) -> u16 {
        (x % 65536) as u16
    }
}

impl Entry for u32 {
    ghost low_bits = { λ x. x % 4294967296 };

    fn low_bits(x: u64) -> u32 {
        (x % 4294967296) as u32
    }
}

impl Entry for u64 {
    ghost low_bits = { λ x. x };

    fn low_bits(x: u64) -> u64 {
        x
    }
}

// A sum that depends on every entry and on its place.
pub fn checksum<T: Copy + Into<u32>>(list: &[T]) -> u64
    ensures { SumsTo T.converts list.now result }
{
    let mut sum: u64 = 0;
    for &entry in list {
        let number: u32 = entry.into();
        sum = (sum * 31 + number as u64) % 1000000007;
    }
    sum
}

// Entry c.x of the list becomes c.y, as far as it has room for it.
pub fn replace<T: Entry>(c: Command, list: &mut [T])
    ensures { list.new ≡ replaced list.old c.x (T.low_bits c.y) }
{
    if c.x < list.len() as u64 {
        list[c.x as usize] = T::low_bits(c.y);
    }
}

// Prints what a call answered: its letter, 0 and the answer's numbers, or a refusal's number and as many zeros, and then the sums.
pub fn print_outcome<const N: usize>(
    rt: &impl Print,
    letter: u8,
    answer: Result<[u64; N], Refusal>,
    sums: &[u64],
) -> io::Result<()> {
    let (code, numbers) = match answer {
        Ok(numbers) => (0, numbers),
        Err(refusal) => (refusal as u32, [0; N]),
    };
    rt.write_all(&[letter])?;
    print!(rt; ",{code}")?;
    for number in numbers.iter().chain(sums) {
        print!(rt; ",{number}")?;
    }
    println!(rt; "")
}

// Prints a letter and the first k entries of a list, or all where there are fewer, separated by commas.
pub fn print_entries(rt: &impl Print, letter: u8, list: &[u16], k: u64) -> io::Result<()> {
    rt.write_all(&[letter])?;
    for entry in front(list, k) {
        print!(rt; ",{entry}")?;
    }
    println!(rt; "")
}

pub fn print_read(
    rt: &impl Print,
    letter: u8,
    answer: Result<Size, Refusal>,
    starts: &[u32],
    neighbours: &[u16],
) -> io::Result<()> {
    let sums = [checksum(starts), checksum(neighbours)];
    print_outcome(
        rt,
        letter,
        answer.map(|size| [size.nodes as u64, size.links as u64]),
        &sums,
    )
}

pub fn print_built(
    rt: &impl Print,
    answer: Result<usize, Refusal>,
    full: &[u16],
    low: &[u16],
    report: &[u16],
    hubs: &[u16],
) -> io::Result<()> {
    let sums = [
        checksum(full),
        checksum(low),
        checksum(report),
        checksum(hubs),
    ];
    print_outcome(rt, b'B', answer.map(|count| [count as u64]), &sums)
}

// Prints the answer of asking or walking: report, route and hub. Its last number is a sum of the list that the call may write to.
pub fn print_answer(
    rt: &impl Print,
    letter: u8,
    answer: Result<Answer, Refusal>,
    sum: u64,
) -> io::Result<()> {
    let numbers = answer.map(|x| [x.report as u64, route_number(x.route), hub_number(x.route)]);
    print_outcome(rt, letter, numbers, &[sum])
}

pub fn print_tested(rt: &impl Print, answer: Result<TestResult, Refusal>) -> io::Result<()> {
    let numbers = answer.map(|x| [verdict_number(x.verdict), x.searches as u64]);
    print_outcome(rt, b'T', numbers, &[])
}

// Reads a text, or, by the letter I, a file.
fn read_by(
    letter: u8,
    text: &[u8],
    starts: &mut [u32],
    neighbours: &mut [u16],
) -> Result<Size, Refusal>
    ensures { read_returned result starts.new neighbours.new
        ≡ read_by letter text.now (length starts.old) (length neighbours.old) }
{
    match letter {
        b'I' => survey_importing::import_survey(text, starts, neighbours),
        _ => survey_reading::read_survey(text, starts, neighbours),
    }
}

// Reads a text or a file into the first c.x starts and c.y neighbours. The next line says the text's length, and the text follows it.
// Returns the place after the text.
pub fn run_read(
    rt: &impl Print,
    script: &[u8],
    c: Command,
    starts: &mut [u32],
    neighbours: &mut [u16],
) -> io::Result<usize> {
    let line = line_after(script, c);
    let start = line.next.min(script.len());
    let end = start + at_most(line.x, script.len() - start);
    let answer = read_by(
        c.letter,
        &script[start..end],
        front_mut(starts, c.x),
        front_mut(neighbours, c.y),
    );
    print_read(rt, c.letter, answer, starts, neighbours)?;
    Ok(end)
}
