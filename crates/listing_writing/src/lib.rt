// The listing of a survey text: its counts of nodes and hubs, then the report and the route of each pair.
#![tactic(auto)]

ghost use Rattle.std.specs.Prelude.{◌≡◌, ◌*◌, ◌≤◌, length};
ghost use Rattle.base_lists.specs.Written.{Wrote};
ghost use Rattle.model.specs.Answers.{number, refused, answered};
ghost use Rattle.model.specs.Listing.{listing_of, listing_text, listing, writing_listing};
ghost use Rattle.model.specs.Writing.{writing_of, write_returned};
ghost use Rattle.text_writing.specs.Writes.{HasRoom, Writes};
ghost use Rattle.survey_neighbours.specs.SurveyGraph.{graph};
ghost use Rattle.listing_writing.specs.Length.{most_listing};

use answer_pair::Tables;
use model::Refusal;
use survey_neighbours::Survey;
use text_writing::Writer;

// Builds the three tables of a survey for threshold s and writes its listing.
fn list_tables(
    survey: &Survey<'_>,
    s: usize,
    full: &mut [u16],
    low: &mut [u16],
    report: &mut [u16],
    writer: &mut Writer<'_>,
)
    requires sizes { let size = survey.now.n * survey.now.n in (survey.now.n ≤ 128)
        × (length full.old ≡ size) × (length low.old ≡ size) × (length report.old ≡ size) }
    requires room { HasRoom writer.old (listing_of survey.now.n s (graph survey.now)) }
    ensures { Writes writer.old writer.new (listing_of survey.now.n s (graph survey.now)) }
{
    let n = survey.n;
    let mut hubs = [0; 128];
    let count = table_building::build_tables(survey, s, full, low, report, &mut hubs);
    let tables = Tables {
        n,
        full,
        low,
        report,
    };
    writer.line(b"R", b',', &[n as u32, count as u32]);
    listing_lines::write_pairs(&tables, writer);
}

// The same with its own lists for the tables, of a survey of at most 128 nodes, from the first byte on. Returns the listing's length.
pub fn list_survey(survey: &Survey<'_>, s: usize, lines: &mut [u8]) -> usize
    requires { (survey.now.n ≤ 128) × (most_listing ≤ length lines.old) }
    ensures { Wrote lines.old lines.new 0 result (listing_of survey.now.n s (graph survey.now)) }
{
    let size = survey.n * survey.n;
    let mut full = [0; 16384];
    let mut low = [0; 16384];
    let mut report = [0; 16384];
    let mut writer = Writer { buf: lines, at: 0 };
    list_tables(
        survey,
        s,
        &mut full[..size],
        &mut low[..size],
        &mut report[..size],
        &mut writer,
    );
    writer.at
}

// Writes the listing of a text that is refused, from the first byte on: one line with the refusal's number. Returns its length.
#[tactic(auto, unfolding(model::specs::Listing::listing_text))]
fn list_refusal(refusal: Refusal, lines: &mut [u8]) -> usize
    requires { 5 ≤ length lines.old }
    ensures { Wrote lines.old lines.new 0 result (listing_text (refused (number refusal))) }
{
    let number = base_refusals::refusal_number(refusal);
    let mut writer = Writer { buf: lines, at: 0 };
    writer.line(b"X", b',', &[number]);
    writer.at
}

// Writes the listing of a text with the stored threshold, from the first byte on. Returns its length.
fn list_text(text: &[u8], lines: &mut [u8]) -> usize
    requires { most_listing ≤ length lines.old }
    ensures wrote { Wrote lines.old lines.new 0 result (listing text.now) }
    ensures bound { length (listing text.now) ≤ most_listing }
{
    let mut starts = [0; 129];
    let mut neighbours = [0; 4096];
    match survey_reading::read_within(text, 128, 2048, &mut starts, &mut neighbours) {
        Ok(size) => {
            let survey = Survey {
                n: size.nodes,
                starts: &starts,
                neighbours: &neighbours,
            };
            let s = base_threshold::in_force(survey.n, 0);
            list_survey(&survey, s, lines)
        }
        Err(refusal) => list_refusal(refusal, lines),
    }
}

// Copies a listing into the buffer if it fits.
fn copy_listing(lines: &[u8], buffer: &mut [u8]) -> Result<usize, Refusal>
    ensures { write_returned result buffer.new ≡ writing_of (answered tt) lines.now buffer.old }
{
    if buffer.len() < lines.len() {
        return Err(Refusal::ShortBuffer);
    }
    base_lists::copy(lines, buffer, 0);
    Ok(lines.len())
}

// Writes the listing of a text into a buffer, with the stored threshold. Refused where the buffer is too short, which is then not altered;
// 146,314 bytes are always enough.
pub fn write_listing(text: &[u8], buffer: &mut [u8]) -> Result<usize, Refusal>
    ensures buffer_after { write_returned result buffer.new ≡ writing_listing text.now buffer.old }
    ensures text_len_bound { length (listing text.now) ≤ most_listing }
{
    let mut lines = [0; 146314];
    let length = list_text(text, &mut lines);
    copy_listing(&lines[..length], buffer)
}
