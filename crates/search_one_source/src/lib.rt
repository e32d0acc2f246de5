// Breadth-first search over an accepted survey, linear in its nodes and links.
#![tactic(auto)]

ghost use Rattle.std.specs.Prelude.{◌≡◌, map, ◌*◌, ◌<◌, ◌≤◌, T, length};
ghost use Rattle.base_lists.specs.Written.{written};
ghost use Rattle.model.specs.Basics.{up_to};
ghost use Rattle.model.specs.Graph.{between, fewest, linked};
ghost use Rattle.survey_neighbours.specs.SurveyGraph.{graph};
ghost use Rattle.base_nodeset.specs.NodeSet.{member};
ghost use Rattle.search_queue.specs.Visiting.{unreached};
ghost use Rattle.search_one_source.specs.OpenNodes.{is_open, searched};

use base_nodeset::NodeSet;
use model::NONE;
use search_queue::{ByBranch, Visit, WithoutBranch};
use survey_neighbours::Survey;

// The search of `search_open`, by visits of one kind.
fn search_by<V: Visit>(survey: &Survey, count: usize, source: usize, row: &mut [u16])
    requires row_length { length row.old ≡ survey.now.n }
    requires source_lt_n { (source < survey.now.n) × T (is_open row.old source) × (count ≡ unreached row.old) }
    ensures { row.new ≡ searched survey.now.n (linked survey.now.n (graph survey.now)) source row.old }
{
    let survey = *survey; // a copy stays in registers, whatever is written to the row
    row[source] = 0;
    let mut queue = [0u16; 1025];
    queue[0] = source as u16;
    let mut head = 0;
    let mut tail = 1;
    // until every open node is found, or all that can be
    while head < tail && tail != count {
        let v = queue[head] as usize;
        let d = row[v] + 1;
        let own = survey.own(v);
        tail = search_queue::visit_all::<V>(own, d, count, row, &mut queue, tail);
        head += 1;
    }
}

// Breadth-first search from `source` through open nodes only: the `count` nodes whose entry in the row is none. Each gets the fewest links
// to it, or keeps none. The other nodes keep their entries.
pub fn search_open(survey: &Survey, count: usize, source: usize, row: &mut [u16])
    requires row_length { length row.old ≡ survey.now.n }
    requires source_lt_n { (source < survey.now.n) × T (is_open row.old source) × (count ≡ unreached row.old) }
    ensures { row.new ≡ searched survey.now.n (linked survey.now.n (graph survey.now)) source row.old }
{
    // at most as many links as nodes
    if survey.starts[survey.n] as usize <= 2 * survey.n {
        search_by::<ByBranch>(survey, count, source, row);
    } else {
        search_by::<WithoutBranch>(survey, count, source, row);
    }
}

// Breadth-first search from `source` through allowed nodes only. The row gets the fewest links to each node, or none.
pub fn search(survey: &Survey, allowed: &NodeSet, source: usize, row: &mut [u16])
    requires { (source < survey.now.n) × T (member allowed.now source) × (length row.old ≡ survey.now.n) }
    ensures { row.new ≡ map (fewest (between (member allowed.now)
        (linked survey.now.n (graph survey.now))) survey.now.n source) (up_to survey.now.n) }
{
    let mut closed = [0u64; 16];
    base_nodeset::insert_below(&mut closed, survey.n);
    base_nodeset::subtract(&mut closed, allowed);
    row.fill(NONE);
    // closed nodes look visited while the search runs
    base_nodeset::write_members(&closed, 0, row);
    let count = survey.n - base_nodeset::count(&closed);
    search_open(survey, count, source, row);
    base_nodeset::write_members(&closed, NONE, row);
}

// The same into row `source` of a table of n rows of n entries each.
// kept: a list and a clause for its length; a type of table has a count of nodes too, and needs a clause that it is the survey's
pub fn search_row(survey: &Survey, allowed: &NodeSet, source: usize, table: &mut [u16])
    requires { (source < survey.now.n) × T (member allowed.now source) × (survey.now.n * survey.now.n ≤ length table.old) }
    ensures { table.new ≡ written table.old (source * survey.now.n) (map (fewest (between (member allowed.now)
        (linked survey.now.n (graph survey.now))) survey.now.n source) (up_to survey.now.n)) }
{
    let a = source * survey.n;
    search(survey, allowed, source, &mut table[a..a + survey.n]);
}
