// Answers a question about the survey or the edge file on standard input: puxerdau COMMAND [WORDS ..] < TEXT. docs/COMMANDS.md says what is
// asked and what is answered.
#![tactic(auto)]

ghost use Rattle.std.specs.Prelude.{◌≡◌, ◌≤◌, length};

use desk_commands::Asked;
use desk_usage::Fault;
use desk_words::{Command, Question, WordFault};
use std::env::{Env, FillError};
use std::io;

// A longer word is neither a command nor an option nor a number; `read_word` gives it as an empty one, which is none of these either.
const WORD: usize = 16;

// These bytes of a text decide what is said of it (`said_front` of crates/desk_commands/proofs/CommandFront.antt).
const TEXT: usize = 524288;

const STARTS: usize = 1025;

const NEIGHBOURS: usize = 32768;

const OUT: usize = 200000;

// How many words there are, the program's name among them.
fn word_count(rt: &impl Env) -> usize {
    for i in 0..usize::MAX {
        if let Err(FillError::NotPresent) = rt.arg(i, &mut []) {
            return i;
        }
    }
    usize::MAX
}

// The word i, at the front of a buffer; none of it where it does not fit.
fn read_word<'a>(rt: &impl Env, i: usize, word: &'a mut [u8; WORD]) -> &'a [u8]
    ensures { length result.now ≤ length word.old }
{
    let k = rt.arg(i, word).unwrap_or(0);
    &word[..k]
}

// What word i makes of a question.
fn take_word(
    rt: &impl Env,
    command: Command,
    q: Question,
    i: usize,
) -> Result<Question, WordFault> {
    let mut word = [0u8; WORD];
    let said = desk_words::word_of(read_word(rt, i, &mut word));
    q.take_word(command, said)
}

// What the words after the command ask. There are `count` words, the program's name among them.
fn understand(rt: &impl Env, command: Command, count: usize) -> Result<Question, Fault> {
    let mut q = Question::default();
    for i in 2..count {
        let place = i as u64 - 1;
        q = take_word(rt, command, q, i).map_err(|fault| Fault::Word(place, fault))?;
    }
    if !q.is_whole(command) {
        return Err(Fault::Missing);
    }
    Ok(q)
}

// What is asked by words that are understood.
fn asked(command: Command, q: Question) -> Asked
    ensures { result ≡ record { command = command; t = q.threshold; a = q.a; b = q.b } }
{
    Asked {
        command,
        t: q.threshold as usize,
        a: q.a as usize,
        b: q.b as usize,
    }
}

// The text, at the front of a buffer, if the command needs one. A read that fails ends it.
fn read_text<'a>(rt: &impl Input, command: Command, text: &'a mut [u8; TEXT]) -> &'a [u8]
    ensures { length result.now ≤ length text.old }
{
    if !command.reads_text() {
        return &[];
    }
    let (Ok(length) | Err(length)) = base_input::read_front(&mut rt.reader(), text);
    &text[..length]
}

// Reads the text, if the command needs one, and prints the answer.
// kept: a function of its own, to which the arrays are lent whole, so that the check does not look at their entries
fn answer_in(
    rt: &(impl Input + Print),
    asked: Asked,
    text: &mut [u8; TEXT],
    starts: &mut [u32; STARTS],
    neighbours: &mut [u16; NEIGHBOURS],
    out: &mut [u8; OUT],
) -> io::Result<()> {
    let text = read_text(rt, asked.command, text);
    let r = desk_commands::say(asked, text, starts, neighbours, out);
    rt.write_all(&out[..r])
}

// The same with lists of its own.
fn answer(rt: &(impl Input + Print), asked: Asked) -> io::Result<()> {
    let mut text = [0u8; TEXT];
    let mut starts = [0u32; STARTS];
    let mut neighbours = [0u16; NEIGHBOURS];
    let mut out = [0u8; OUT];
    answer_in(rt, asked, &mut text, &mut starts, &mut neighbours, &mut out)
}

// Prints what is wrong with the words behind a command.
fn print_fault(rt: &impl Print, command: Command, wrong: Fault) -> io::Result<()> {
    let mut line = [0u8; 200];
    let k = desk_usage::say_fault(wrong, command, &mut line);
    rt.write_all(&line[..k])
}

fn print_no_command(rt: &impl Print) -> io::Result<()> {
    let mut line = [0u8; 170];
    let k = desk_usage::say_no_command(&mut line);
    rt.write_all(&line[..k])
}

// The command that the first word names; without words, `help`.
fn first_word(rt: &impl Env, count: usize) -> Option<Command> {
    if count < 2 {
        return Some(Command::Help);
    }
    let mut word = [0u8; WORD];
    desk_words::command_of(read_word(rt, 1, &mut word))
}

fn main(rt: HostRuntime) -> io::Result<()> {
    let count = word_count(&rt);
    let Some(command) = first_word(&rt, count) else {
        return print_no_command(&rt);
    };
    match understand(&rt, command, count) {
        Ok(q) => answer(&rt, asked(command, q)),
        Err(fault) => print_fault(&rt, command, fault),
    }
}
