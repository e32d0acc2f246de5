// How the commands are used: the help page, and what is said where words are not understood or a file is too long.
#![tactic(auto)]

ghost use Rattle.std.specs.Prelude.{◌+◌, ◌≤◌, length};
ghost use Rattle.base_lists.specs.Written.{Wrote};
ghost use Rattle.text_writing.specs.Writes.{Writes};
ghost use Rattle.desk_usage.specs.Usage.{no_command, usage, fault, fault_line, help};

use desk_words::{Command, WordFault};
use text_writing::Writer;

// What is wrong: word k, and why; a word is missing; or the file is too long.
#[derive(Clone, Copy, PartialEq, Eq)]
pub enum Fault {
    Word(u64, WordFault),
    Missing,
    TooLong,
}

// Says that the first word is not a command, from the first byte on.
#[tactic(auto, unfolding(crate::specs::Usage::no_command, model::specs::Basics::bytes))]
pub fn say_no_command(out: &mut [u8]) -> usize
    requires { 170 ≤ length out.old }
    ensures { Wrote out.old out.new 0 result no_command }
{
    let mut writer = Writer { buf: out, at: 0 };
    writer.text(
        b"not understood: the first word is not a command; usage: puxerdau COMMAND [WORDS ..] < survey.txt; commands: pair walk test hubs reports check write export import help\n",
    );
    writer.at
}

// Writes how a command is used.
#[tactic(auto, unfolding(crate::specs::Usage::usage, model::specs::Basics::bytes))]
fn write_usage(writer: &mut Writer<'_>, command: Command)
    requires { writer.old.at + 60 ≤ length writer.old.buf.now }
    ensures wrote { Writes writer.old writer.new (usage command) }
    ensures upper_bound { writer.new.at ≤ writer.old.at + 60 }
{
    match command {
        Command::Pair => writer.text(b"pair A B [--threshold T] < survey.txt\n"),
        Command::Walk => writer.text(b"walk A B [--threshold T] < survey.txt\n"),
        Command::Test => writer.text(b"test [--threshold T] < survey.txt\n"),
        Command::Hubs => writer.text(b"hubs [--threshold T] < survey.txt\n"),
        Command::Reports => writer.text(b"reports [--threshold T] < survey.txt\n"),
        Command::Check => writer.text(b"check < survey.txt\n"),
        Command::Write => writer.text(b"write < survey.txt\n"),
        Command::Export => writer.text(b"export < survey.txt\n"),
        Command::Import => writer.text(b"import < edges.col\n"),
        Command::Help => writer.text(b"help\n"),
    }
}

// Writes what is wrong.
#[tactic(auto, unfolding(crate::specs::Usage::fault, model::specs::Basics::bytes))]
fn write_wrong(writer: &mut Writer<'_>, wrong: Fault)
    requires { writer.old.at + 140 ≤ length writer.old.buf.now }
    ensures wrote { Writes writer.old writer.new (fault wrong) }
    ensures upper_bound { writer.new.at ≤ writer.old.at + 140 }
{
    match wrong {
        Fault::Word(k, WordFault::NoNumber) => desk_sentences::write_sentence(
            writer,
            b"not understood: word # after the command is not a number (one to ten digits, no leading zero); usage: puxerdau ",
            &[k],
        ),
        Fault::Word(k, WordFault::TooMany) => desk_sentences::write_sentence(
            writer,
            b"not understood: word # after the command is one too many; usage: puxerdau ",
            &[k],
        ),
        Fault::Missing => { writer.text(b"not understood: a word is missing; usage: puxerdau ") }
        Fault::TooLong => writer.text(
            b"not taken: the file has more than 524287 bytes (leave out comments); usage: puxerdau ",
        ),
    }
}

// Says what is wrong and how the command is used, from the first byte on.
pub fn say_fault(wrong: Fault, command: Command, out: &mut [u8]) -> usize
    requires { 200 ≤ length out.old }
    ensures wrote { Wrote out.old out.new 0 result (fault_line wrong command) }
    ensures upper_bound { result ≤ 200 }
{
    let mut writer = Writer { buf: out, at: 0 };
    write_wrong(&mut writer, wrong);
    write_usage(&mut writer, command);
    writer.at
}

// Says what `help` says, from the first byte on.
#[tactic(auto, unfolding(crate::specs::Usage::help, model::specs::Basics::bytes))]
pub fn say_help(out: &mut [u8]) -> usize
    requires { 2000 ≤ length out.old }
    ensures { Wrote out.old out.new 0 result help }
{
    let mut writer = Writer { buf: out, at: 0 };
    writer.text(
        b"puxerdau: how many links a message needs between two nodes of a survey\n\
            usage: puxerdau COMMAND [WORDS ..] < survey.txt\n\
            \n\
            pair A B  the report of two nodes         puxerdau pair 1 3 < survey.txt\n\
            walk A B  the same, and the nodes between puxerdau walk 1 3 < survey.txt\n\
            test      are all nodes near each other?  puxerdau test < survey.txt\n\
            hubs      hubs, and how many high nodes   puxerdau hubs < survey.txt\n\
            reports   a line for each two nodes       puxerdau reports < survey.txt\n\
            check     is the survey accepted?         puxerdau check < survey.txt\n\
            write     the survey, its lines in order  puxerdau write < survey.txt\n\
            export    the survey as an edge file      puxerdau export < survey.txt > edges.col\n\
            import    an edge file as a survey        puxerdau import < edges.col > survey.txt\n\
            help      this page                       puxerdau help\n\
            \n\
            --threshold T after pair, walk, test, hubs or reports: nodes with T or more\n\
            neighbours are high, as in: puxerdau test --threshold 3 < survey.txt\n\
            Without it a stored table says how many neighbours that takes.\n\
            A survey is a line S,n,m and then m lines L,a,b: n nodes, numbered from 0, and\n\
            m links, at most 1024 and 16384 (reports: 128 and 2048). Each line ends in a\n\
            line feed. An edge file is in DIMACS form.\n\
            A report is never below the fewest links, and at most two above them.\n\
            What is refused is said in one line: refused, a number, the place, and why.\n",
    );
    writer.at
}
