// Report: for each two nodes 1 where they are linked, else the least of Low's entry and the sums of two entries of Full.
#![tactic(auto)]

ghost use Rattle.std.specs.Prelude.{◌≡◌, map, ℕ, ◌+◌, ◌*◌, ◌<◌, ◌≤◌, T, length};
ghost use Rattle.model.specs.Basics.{up_to, has, over};
ghost use Rattle.model.specs.Tables.{report_entry, report_of};
ghost use Rattle.survey_neighbours.specs.SurveyGraph.{graph};
ghost use Rattle.table_report.specs.Relaxed.{relaxed, links_set};

use survey_neighbours::Survey;

// A row becomes another one.
// kept: a loop and not `copy_from_slice`, with which the archive needs memmove, while README promises that memcpy and memset are enough
fn copy_row(from: &[u16], row: &mut [u16])
    requires { length row.old ≡ length from.now }
    ensures { row.new ≡ from.now }
{
    for (b, entry) in row.iter_mut().enumerate() {
        *entry = from[b];
    }
}

// Each entry of a row becomes the lesser of itself and x + the entry of another row. A sum that 16 bits cannot hold is none, so a sum with
// a none in it is never the lesser. The compiler adds eight entries by one instruction.
fn relax(row: &mut [u16], x: u16, other: &[u16])
    requires { length row.old ≡ length other.now }
    ensures { row.new ≡ relaxed x other.now row.old }
{
    for (b, entry) in row.iter_mut().enumerate() {
        *entry = x.saturating_add(other[b]).min(*entry);
    }
}

// The entries of a node's own neighbours become 1.
fn set_links(own: &[u16], row: &mut [u16])
    requires { (x : ℕ) → T (has x own.now) → x < length row.old }
    ensures { row.new ≡ links_set own.now row.old }
{
    for b in own {
        row[*b as usize] = 1;
    }
}

// Row a of Report: the least of Low's row and, over all hubs, the sums of two entries of Full; then 1 at a's neighbours and 0 at a itself.
// kept: a list and a clause for its length; a type of table has a count of nodes too, and needs a clause that it is the survey's
fn report_row(survey: &Survey, full: &[u16], low: &[u16], hubs: &[u16], a: usize, row: &mut [u16])
    requires tables { (survey.now.n * survey.now.n ≤ length full.now) × (survey.now.n * survey.now.n ≤ length low.now) }
    requires by_index { ((h : ℕ) → T (has h hubs.now) → h < survey.now.n) × (a < survey.now.n) × (length row.old ≡ survey.now.n) }
    ensures { row.new
        ≡ map (report_entry survey.now.n (graph survey.now) full.now low.now hubs.now a) (up_to survey.now.n) }
{
    let n = survey.n;
    let start = a * n;
    copy_row(&low[start..start + n], row);
    for hub in hubs {
        let first = *hub as usize * n;
        relax(row, full[first + a], &full[first..first + n]);
    }
    set_links(survey.own(a), row);
    row[a] = 0;
}

// Report, row by row.
pub fn fill_report(survey: &Survey, full: &[u16], low: &[u16], hubs: &[u16], report: &mut [u16])
    requires tables { (survey.now.n * survey.now.n ≤ length full.now) × (survey.now.n * survey.now.n ≤ length low.now) }
    requires by_index { ((h : ℕ) → T (has h hubs.now) → h < survey.now.n) × (survey.now.n * survey.now.n ≤ length report.old) }
    ensures { report.new
        ≡ over (report_of survey.now.n (graph survey.now) full.now low.now hubs.now) report.old }
{
    let n = survey.n;
    for a in 0..n {
        let start = a * n;
        report_row(survey, full, low, hubs, a, &mut report[start..start + n]);
    }
}
