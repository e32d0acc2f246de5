// What is said of a survey that was read: a pair, a walk, the test and the hubs.
#![tactic(auto)]

ghost use Rattle.std.specs.Prelude.{◌≡◌, ◌≢◌, ◌+◌, ◌*◌, ◌≤◌, length};
ghost use Rattle.model.specs.Answers.{answered};
ghost use Rattle.model.specs.Basics.{none, up_to, keep};
ghost use Rattle.model.specs.Hubs.{is_high};
ghost use Rattle.base_lists.specs.Written.{Wrote};
ghost use Rattle.survey_neighbours.specs.SurveyGraph.{graph};
ghost use Rattle.text_writing.specs.Writes.{Writes};
ghost use Rattle.desk_answers.specs.Said.{far_node, pair_said, walked_said, walk_said, test_said, hubs_said};

use model::{Answer, NONE};
use survey_neighbours::Survey;
use text_writing::Writer;

// The node that is refused: a, unless it is below n.
#[tactic(auto, unfolding(crate::specs::Said::far_node))]
fn far_node(n: usize, a: usize, b: usize) -> usize
    ensures { result ≡ far_node n a b }
{
    if n <= a { a } else { b }
}

// Builds the tables of a survey for threshold s and says what they answer to nodes a and b, from the first byte on.
pub fn say_pair(
    survey: &Survey<'_>,
    s: usize,
    full: &mut [u16],
    low: &mut [u16],
    report: &mut [u16],
    a: usize,
    b: usize,
    out: &mut [u8],
) -> usize
    requires room { 300 ≤ length out.old }
    requires tables { (length full.old ≡ survey.now.n * survey.now.n) × (length low.old ≡ survey.now.n * survey.now.n)
        × (length report.old ≡ survey.now.n * survey.now.n) }
    ensures { Wrote out.old out.new 0 result (pair_said survey.now.n s (graph survey.now) a b) }
{
    let n = survey.n;
    let mut hubs = [0u16; 1024];
    table_building::build_tables(survey, s, full, low, report, &mut hubs);
    let mut writer = Writer { buf: out, at: 0 };
    match answer_pair::ask(n, full, low, report, a, b) {
        Ok(x) => desk_sentences::write_pair(&mut writer, a as u64, b as u64, x),
        Err(_) => desk_refusals::write_node_refused(
            &mut writer,
            far_node(n, a, b) as u64,
            n as u64,
        ),
    }
    writer.at
}

// Writes the answer to a pair, and the nodes of its walk.
fn write_walked(
    writer: &mut Writer<'_>,
    n: usize,
    a: usize,
    b: usize,
    x: Answer,
    walk: &[u16; 2048],
)
    requires room { writer.old.at + 20000 ≤ length writer.old.buf.now }
    requires report_in_bounds { x.report ≢ none → x.report + 1 ≤ 2048 }
    ensures { Writes writer.old writer.new (walked_said n a b (answered x) walk.now) }
{
    desk_sentences::write_pair(writer, a as u64, b as u64, x);
    if x.report != NONE {
        desk_sentences::write_walk(writer, &walk[..x.report as usize + 1]);
    }
}

// Builds the tables of a survey, for the threshold s in force where t is given, and says the walk of nodes a and b.
pub fn say_walk(
    survey: &Survey<'_>,
    t: usize,
    s: usize,
    full: &mut [u16],
    low: &mut [u16],
    report: &mut [u16],
    a: usize,
    b: usize,
    out: &mut [u8],
) -> usize
    requires room { 20000 ≤ length out.old }
    requires tables { (length full.old ≡ survey.now.n * survey.now.n) × (length low.old ≡ survey.now.n * survey.now.n)
        × (length report.old ≡ survey.now.n * survey.now.n) }
    ensures { Wrote out.old out.new 0 result
        (walk_said survey.now.n t s survey.now.starts.now survey.now.neighbours.now a b) }
{
    let Survey {
        n,
        starts,
        neighbours,
    } = *survey;
    let mut hubs = [0u16; 1024];
    let mut walk = [0u16; 2048];
    table_building::build_tables(survey, s, full, low, report, &mut hubs);
    let mut writer = Writer { buf: out, at: 0 };
    match walk_writing::write_walk(n, t, starts, neighbours, full, low, report, a, b, &mut walk) {
        Ok(x) => write_walked(&mut writer, n, a, b, x, &walk),
        Err(_) => desk_refusals::write_node_refused(
            &mut writer,
            far_node(n, a, b) as u64,
            n as u64,
        ),
    }
    writer.at
}

// Tests a survey and says the verdict, from the first byte on.
pub fn say_test(n: usize, t: usize, starts: &[u32], neighbours: &[u16], out: &mut [u8]) -> usize
    requires { 300 ≤ length out.old }
    ensures { Wrote out.old out.new 0 result (test_said n t starts.now neighbours.now) }
{
    let mut writer = Writer { buf: out, at: 0 };
    match answer_two_or_four::test(n, t, starts, neighbours) {
        Ok(x) => desk_sentences::write_verdict(&mut writer, x),
        Err(_) => desk_refusals::write_threshold_refused(&mut writer, t as u64),
    }
    writer.at
}

// How many nodes are high by threshold s.
fn high_count(survey: &Survey<'_>, s: usize) -> usize
    ensures { result ≡ length (keep (is_high s (graph survey.now)) (up_to survey.now.n)) }
{
    let mut high = [0u64; 16];
    table_degree_split::high_nodes(survey, s, &mut high);
    base_nodeset::count(&high)
}

// Says the hubs of a survey for threshold s, and how many nodes are high, from the first byte on.
pub fn say_hubs(survey: &Survey<'_>, s: usize, out: &mut [u8]) -> usize
    requires { 20000 ≤ length out.old }
    ensures { Wrote out.old out.new 0 result (hubs_said survey.now.n s (graph survey.now)) }
{
    let mut list = [0u16; 1024];
    let count = table_hubs::choose_hubs(survey, s, &mut list);
    let high = high_count(survey, s);
    let mut writer = Writer { buf: out, at: 0 };
    desk_sentences::write_hubs(&mut writer, &list[..count]);
    desk_sentences::write_high(&mut writer, high as u64, survey.n as u64, s as u64);
    writer.at
}
