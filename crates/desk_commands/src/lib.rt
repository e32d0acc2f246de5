// The commands of the desk: a text is read, and what is said of it is written into a buffer.
#![tactic(auto)]

ghost use Rattle.std.specs.Prelude.{◌≡◌, false, ◌≤◌, length};
ghost use Rattle.model.specs.Answers.{number};
ghost use Rattle.model.specs.Threshold.{bad_threshold};
ghost use Rattle.model.specs.Reading.{read_returned};
ghost use Rattle.model.specs.Writing.{text_of};
ghost use Rattle.model.specs.Dimacs.{export_of};
ghost use Rattle.base_lists.specs.Written.{Wrote};
ghost use Rattle.desk_refusals.specs.Reasons.{text_refused};
ghost use Rattle.desk_commands.specs.Commands.{source_of, most_nodes_of, most_of, too_long, read_as, text_stop, file_stop, stop_of};
ghost use Rattle.desk_commands.specs.Commands.{said_of, survey_said, read_said, command_said};

use desk_refusals::{Source, Stop};
use desk_usage::Fault;
use desk_words::Command;
use model::{Refusal, Size};
use survey_neighbours::Survey;
use text_writing::Writer;

// What is asked: a command, the threshold, 0 where there is none, and the nodes.
// kept: 0 and no Option, since `command_said`, which docs/GUARANTEES.md names, takes numbers
#[derive(Clone, Copy, PartialEq, Eq)]
pub struct Asked {
    pub command: Command,
    pub t: usize,
    pub a: usize,
    pub b: usize,
}

// What a command reads.
fn source_of(command: Command) -> Source
    ensures { result ≡ source_of command }
{
    match command {
        Command::Reports => Source::Listing,
        Command::Import => Source::File,
        _ => Source::Survey,
    }
}

// The most nodes and links of what is read.
fn most_of(source: Source) -> Size
    ensures { result ≡ most_of source }
{
    match source {
        Source::Listing => Size {
            nodes: 128,
            links: 2048,
        },
        Source::Survey | Source::File => Size {
            nodes: 1024,
            links: 16384,
        },
    }
}

// Whether a text is longer than is taken.
#[tactic(auto, unfolding(crate::specs::Commands::too_long))]
fn too_long(source: Source, text: &[u8]) -> bool
    ensures { result ≡ too_long source text.now }
{
    source == Source::File && 524287 < text.len()
}

// Where reading a survey text stops.
fn text_stop(source: Source, text: &[u8]) -> Stop
    ensures { result ≡ text_stop source text.now }
{
    let most = most_of(source);
    let place = survey_stops::reading_stops(text, most.nodes, most.links);
    Stop {
        source,
        line: place.line,
        first: 0,
        last: place.nodes.saturating_sub(1),
        most,
    }
}

// Where importing a file stops.
fn file_stop(text: &[u8]) -> Stop
    ensures { result ≡ file_stop text.now }
{
    let place = survey_stops::importing_stops(text);
    Stop {
        source: Source::File,
        line: place.line,
        first: 1,
        last: place.nodes,
        most: most_of(Source::File),
    }
}

// Where reading a text stops.
fn stop_of(source: Source, text: &[u8]) -> Stop
    ensures { result ≡ stop_of source text.now }
{
    match source {
        Source::Survey | Source::Listing => text_stop(source, text),
        Source::File => file_stop(text),
    }
}

// Says why a text is refused, and at which line, from the first byte on.
// kept: a bound and no array, since `say` asks no more than that many bytes
fn refuse_text(source: Source, text: &[u8], refusal: Refusal, out: &mut [u8]) -> usize
    requires { 200000 ≤ length out.old }
    ensures { Wrote out.old out.new 0 result (text_refused (number refusal) (stop_of source text.now)) }
{
    let stop = stop_of(source, text);
    let mut writer = Writer { buf: out, at: 0 };
    desk_refusals::write_text_refused(&mut writer, refusal, stop);
    writer.at
}

// Reads a text into the two lists.
fn read_as(
    source: Source,
    text: &[u8],
    starts: &mut [u32; 1025],
    neighbours: &mut [u16; 32768],
) -> Result<Size, Refusal>
    ensures { read_returned result starts.new neighbours.new ≡ read_as source text.now }
{
    let most = most_of(source);
    match source {
        Source::Survey | Source::Listing => {
            survey_reading::read_within(text, most.nodes, most.links, starts, neighbours)
        }
        Source::File => survey_importing::import_survey(text, starts, neighbours),
    }
}

// What a survey has as text, from the first byte on.
fn survey_text(survey: &Survey<'_>, out: &mut [u8]) -> usize
    requires { 200000 ≤ length out.old }
    ensures { Wrote out.old out.new 0 result (text_of survey.now.n survey.now.starts.now survey.now.neighbours.now) }
{
    survey_writing::write_survey(survey.n, survey.starts, survey.neighbours, out).unwrap()
}

// The same as an edge file.
// kept: the two are one call each; one function with that call as a parameter is no plainer.
fn survey_file(survey: &Survey<'_>, out: &mut [u8]) -> usize
    requires { 200000 ≤ length out.old }
    ensures { Wrote out.old out.new 0 result (export_of survey.now.n survey.now.starts.now survey.now.neighbours.now) }
{
    survey_writing::export_survey(survey.n, survey.starts, survey.neighbours, out).unwrap()
}

// Says what a command says of a survey, whose count of links is given, from the first byte on.
#[tactic(auto, unfolding(crate::specs::Commands::said_of))]
fn say_of(asked: Asked, survey: &Survey<'_>, links: usize, out: &mut [u8]) -> usize
    requires { (survey.now.n ≤ most_nodes_of (source_of asked.command)) × (bad_threshold asked.t ≡ false) × (200000 ≤ length out.old) }
    ensures { Wrote out.old out.new 0 result
        (said_of asked.command asked.t asked.a asked.b (record { nodes = survey.now.n; links = links }) survey.now.starts.now survey.now.neighbours.now) }
{
    let Asked { command, t, a, b } = asked;
    let n = survey.n;
    match command {
        Command::Pair => desk_tables::say_nodes::<desk_tables::Pair>(survey, t, a, b, out),
        Command::Walk => desk_tables::say_nodes::<desk_tables::Walk>(survey, t, a, b, out),
        Command::Test => desk_answers::say_test(n, t, survey.starts, survey.neighbours, out),
        Command::Hubs => desk_answers::say_hubs(survey, base_threshold::in_force(n, t), out),
        Command::Reports => {
            listing_writing::list_survey(survey, base_threshold::in_force(n, t), out)
        }
        Command::Check => {
            let mut writer = Writer { buf: out, at: 0 };
            desk_sentences::write_accepted(&mut writer, n as u64, links as u64);
            writer.at
        }
        Command::Write | Command::Import => survey_text(survey, out),
        Command::Export => survey_file(survey, out),
        Command::Help => desk_usage::say_help(out),
    }
}

// The same, if the threshold is not refused.
#[tactic(auto, unfolding(crate::specs::Commands::survey_said))]
fn say_survey(asked: Asked, survey: &Survey<'_>, links: usize, out: &mut [u8]) -> usize
    requires { (survey.now.n ≤ most_nodes_of (source_of asked.command)) × (200000 ≤ length out.old) }
    ensures { Wrote out.old out.new 0 result
        (survey_said asked.command asked.t asked.a asked.b (record { nodes = survey.now.n; links = links }) survey.now.starts.now survey.now.neighbours.now) }
{
    if base_refusals::bad_threshold(asked.t) {
        let mut writer = Writer { buf: out, at: 0 };
        desk_refusals::write_threshold_refused(&mut writer, asked.t as u64);
        return writer.at;
    }
    say_of(asked, survey, links, out)
}

// Reads a text and says what a command says of it, or why it is refused.
fn say_text(
    asked: Asked,
    text: &[u8],
    starts: &mut [u32; 1025],
    neighbours: &mut [u16; 32768],
    out: &mut [u8],
) -> usize
    requires { 200000 ≤ length out.old }
    ensures { Wrote out.old out.new 0 result
        (read_said asked.command asked.t asked.a asked.b text.now (read_as (source_of asked.command) text.now)) }
{
    let source = source_of(asked.command);
    match read_as(source, text, starts, neighbours) {
        Ok(size) => {
            let survey = Survey {
                n: size.nodes,
                starts,
                neighbours,
            };
            say_survey(asked, &survey, size.links, out)
        }
        Err(refusal) => refuse_text(source, text, refusal, out),
    }
}

// Says what a command answers to a text, from the first byte on.
#[tactic(auto, unfolding(crate::specs::Commands::command_said))]
pub fn say(
    asked: Asked,
    text: &[u8],
    starts: &mut [u32; 1025],
    neighbours: &mut [u16; 32768],
    out: &mut [u8],
) -> usize
    requires { 200000 ≤ length out.old }
    ensures { Wrote out.old out.new 0 result (command_said asked.command asked.t asked.a asked.b text.now) }
{
    if !asked.command.reads_text() {
        return desk_usage::say_help(out);
    }
    if too_long(source_of(asked.command), text) {
        return desk_usage::say_fault(Fault::TooLong, asked.command, out);
    }
    say_text(asked, text, starts, neighbours, out)
}
