// Writing a survey as text: back as a survey text, or as a DIMACS edge file.
#![tactic(auto)]

ghost use Rattle.std.specs.Prelude.{List, ◌≡◌, ℕ, ◌*◌, ◌<◌, ◌≤◌, length};
ghost use Rattle.model.specs.Survey.{accepting};
ghost use Rattle.model.specs.SurveyText.{line_of};
ghost use Rattle.model.specs.Writing.{writing, writing_of, write_returned};
ghost use Rattle.model.specs.Dimacs.{head_line, edge_line, exporting, ExportRight};
ghost use Rattle.model.specs.Demand.{WriteRight};
ghost use Rattle.text_writing.specs.Writes.{HasRoom, Writes};
ghost use Rattle.survey_writing.specs.LinkLines.{lines_of, text_as};

use model::Refusal;
use survey_neighbours::Survey;
use text_writing::Writer;

// A form of text: its first line, of n nodes and m links, and its line of a link a-b, which is written at its smaller node a.
trait Form {
    ghost first_line: { ℕ → ℕ → List ℕ };

    ghost link_line: { ℕ → ℕ → List ℕ };

    fn first_length(n: u32, m: u32) -> usize
        ensures { (result ≡ length (first_line n m)) × (result ≤ 29) };

    fn link_length(a: u32, b: u32) -> usize
        requires { (a < 1024) × (b < 65536) }
        ensures { (result ≡ length (link_line a b)) × (result ≤ 24) };

    // Writes the first line.
    fn write_first(n: u32, m: u32, writer: &mut Writer<'_>)
        requires { HasRoom writer.old (first_line n m) }
        ensures { Writes writer.old writer.new (first_line n m) };

    // Writes the line of a link.
    fn write_link(a: u32, b: u32, writer: &mut Writer<'_>)
        requires { (a < 1024) × (b < 65536) × HasRoom writer.old (link_line a b) }
        ensures { Writes writer.old writer.new (link_line a b) };
}

// A survey text.
struct SurveyText;

#[tactic(auto, unfolding(model::specs::SurveyText::line_of))]
impl Form for SurveyText {
    ghost first_line = { line_of 83 };

    ghost link_line = { line_of 76 };

    fn first_length(n: u32, m: u32) -> usize {
        text_writing::line_length(b"S", &[n, m])
    }

    fn link_length(a: u32, b: u32) -> usize {
        text_writing::line_length(b"L", &[a, b])
    }

    fn write_first(n: u32, m: u32, writer: &mut Writer<'_>) {
        writer.line(b"S", b',', &[n, m]);
    }

    fn write_link(a: u32, b: u32, writer: &mut Writer<'_>) {
        writer.line(b"L", b',', &[a, b]);
    }
}

// A DIMACS edge file, whose nodes are numbered from 1.
struct EdgeFile;

#[tactic(auto, unfolding(model::specs::Dimacs::head_line, model::specs::Dimacs::edge_line))]
impl Form for EdgeFile {
    ghost first_line = { head_line };

    ghost link_line = { edge_line };

    fn first_length(n: u32, m: u32) -> usize {
        text_writing::line_length(b"p edge", &[n, m])
    }

    fn link_length(a: u32, b: u32) -> usize {
        text_writing::line_length(b"e", &[a + 1, b + 1])
    }

    fn write_first(n: u32, m: u32, writer: &mut Writer<'_>) {
        writer.line(b"p edge", b' ', &[n, m]);
    }

    fn write_link(a: u32, b: u32, writer: &mut Writer<'_>) {
        writer.line(b"e", b' ', &[a + 1, b + 1]);
    }
}

// The length of the lines of a node's links to larger nodes.
fn row_length<F: Form>(a: u32, row: &[u16]) -> usize
    requires { (a < 1024) × (length row.now ≤ 32768) }
    ensures { (result ≡ length (lines_of F.link_line a row.now)) × (result ≤ 24 * length row.now) }
{
    let mut total = 0;
    for b in row {
        let b = u32::from(*b);
        if a < b {
            total += F::link_length(a, b);
        }
    }
    total
}

// The length of a survey's text.
fn text_length<F: Form>(survey: &Survey) -> usize
    ensures { result ≡ length (text_as F.first_line F.link_line survey.now.n survey.now.starts.now survey.now.neighbours.now) }
{
    let mut total = F::first_length(survey.n as u32, survey.starts[survey.n] / 2);
    for v in 0..survey.n {
        total += row_length::<F>(v as u32, survey.own(v));
    }
    total
}

// Writes the lines of a node's links to larger nodes.
fn write_row<F: Form>(a: u32, row: &[u16], writer: &mut Writer<'_>)
    requires { (a < 1024) × HasRoom writer.old (lines_of F.link_line a row.now) }
    ensures { Writes writer.old writer.new (lines_of F.link_line a row.now) }
{
    for b in row {
        let b = u32::from(*b);
        if b > a {
            F::write_link(a, b, writer);
        }
    }
}

// Writes a survey's text, for which there is room.
fn write_text<F: Form>(survey: &Survey, writer: &mut Writer<'_>)
    requires { HasRoom writer.old
        (text_as F.first_line F.link_line survey.now.n survey.now.starts.now survey.now.neighbours.now) }
    ensures { Writes writer.old writer.new
        (text_as F.first_line F.link_line survey.now.n survey.now.starts.now survey.now.neighbours.now) }
{
    F::write_first(survey.n as u32, survey.starts[survey.n] / 2, writer);
    for v in 0..survey.n {
        write_row::<F>(v as u32, survey.own(v), writer);
    }
}

// Writes a survey's text into a buffer, if the lists are accepted and there is room.
fn write_as<F: Form>(
    n: usize,
    starts: &[u32],
    neighbours: &[u16],
    buffer: &mut [u8],
) -> Result<usize, Refusal>
    ensures { write_returned result buffer.new ≡
        writing_of (accepting n starts.now neighbours.now)
        (text_as F.first_line F.link_line n starts.now neighbours.now) buffer.old }
{
    survey_acceptance::accept(n, starts, neighbours)?;
    let survey = Survey {
        n,
        starts,
        neighbours,
    };
    let length = text_length::<F>(&survey);
    if buffer.len() < length {
        return Err(Refusal::ShortBuffer);
    }
    write_text::<F>(&survey, &mut Writer { buf: buffer, at: 0 });
    Ok(length)
}

// Writes a survey's text into a buffer. What was written is read back as the same survey.
pub fn write_survey(
    n: usize,
    starts: &[u32],
    neighbours: &[u16],
    buffer: &mut [u8],
) -> Result<usize, Refusal>
    ensures buffer_after { write_returned result buffer.new ≡
        writing n starts.now neighbours.now buffer.old }
    ensures write_right { WriteRight n starts.now neighbours.now (write_returned result buffer.new) }
{
    write_as::<SurveyText>(n, starts, neighbours, buffer)
}

// Writes a survey as an edge file into a buffer. What was written is imported as the same survey.
pub fn export_survey(
    n: usize,
    starts: &[u32],
    neighbours: &[u16],
    buffer: &mut [u8],
) -> Result<usize, Refusal>
    ensures buffer_after { write_returned result buffer.new ≡
        exporting n starts.now neighbours.now buffer.old }
    ensures export_right { ExportRight n starts.now neighbours.now (write_returned result buffer.new) }
{
    write_as::<EdgeFile>(n, starts, neighbours, buffer)
}
