// Full and Low: the fewest links from hubs, and through low nodes.
#![tactic(auto)]

ghost use Rattle.std.specs.Prelude.{◌≡◌, map, ℕ, ◌*◌, ◌<◌, ◌≤◌, T, length};
ghost use Rattle.base_lists.specs.Written.{written};
ghost use Rattle.model.specs.Basics.{up_to, has, over};
ghost use Rattle.model.specs.Tables.{full_of, low_table};
ghost use Rattle.base_nodeset.specs.NodeSet.{member};
ghost use Rattle.search_many_sources.specs.Levels.{distance, distances};
ghost use Rattle.survey_neighbours.specs.SurveyGraph.{graph};

use base_nodeset::NodeSet;
use model::NONE;
use survey_neighbours::Survey;

// Full: row h holds the fewest links from h to each node if h is a hub; every other row is all none.
// kept: a list and a clause for its length; a type of table has a count of nodes too, and needs a clause that it is the survey's
pub fn fill_full(survey: &Survey, hubs: &[u16], full: &mut [u16])
    requires room { survey.now.n * survey.now.n ≤ length full.old }
    requires by_index { (h : ℕ) → T (has h hubs.now) → h < survey.now.n }
    ensures { full.new ≡ over (full_of survey.now.n (graph survey.now) hubs.now) full.old }
{
    let mut all = [0u64; 16];
    base_nodeset::insert_below(&mut all, survey.n);
    let size = survey.n * survey.n;
    full[..size].fill(NONE);
    for hub in hubs {
        search_one_source::search_row(survey, &all, *hub as usize, full);
    }
}

// Row a of Low: the fewest links from a through low nodes, if a is low; else all none.
fn low_row(survey: &Survey, low_nodes: &NodeSet, a: usize, low: &mut [u16])
    requires { (a < survey.now.n) × (survey.now.n * survey.now.n ≤ length low.old) }
    ensures { low.new ≡ written low.old (a * survey.now.n)
        (map (distance survey.now.n (member low_nodes.now) (graph survey.now) a) (up_to survey.now.n)) }
{
    if base_nodeset::contains(low_nodes, a) {
        search_one_source::search_row(survey, low_nodes, a, low);
    } else {
        let start = a * survey.n;
        low[start..start + survey.n].fill(NONE);
    }
}

// Low row by row, from one low node after the other.
fn low_rows(survey: &Survey, low_nodes: &NodeSet, low: &mut [u16])
    requires { survey.now.n * survey.now.n ≤ length low.old }
    ensures { low.new ≡ over (distances survey.now.n (member low_nodes.now) (graph survey.now)) low.old }
{
    for a in 0..survey.n {
        low_row(survey, low_nodes, a, low);
    }
}

// Low: the fewest links through low nodes only, from many low nodes at once, or where the search is deep from one after the other.
pub fn fill_low(survey: &Survey, s: usize, low: &mut [u16])
    requires { survey.now.n * survey.now.n ≤ length low.old }
    ensures { low.new ≡ over (low_table survey.now.n s (graph survey.now)) low.old }
{
    let mut low_nodes = [0u64; 16];
    table_degree_split::low_nodes(survey, s, &mut low_nodes);
    let size = survey.n * survey.n;
    if !search_many_sources::search_all(survey, &low_nodes, &mut low[..size]) {
        low_rows(survey, &low_nodes, low);
    }
}
