// How deep searches from some nodes go.
#![tactic(auto)]

ghost use Rattle.std.specs.Prelude.{◌≡◌, map, ℕ, ◌<◌, max, T};
ghost use Rattle.std.specs.Option.{option_map};
ghost use Rattle.model.specs.Basics.{up_to, has};
ghost use Rattle.model.specs.Graph.{fewest, linked};
ghost use Rattle.model.specs.Tables.{rows_of};
ghost use Rattle.survey_neighbours.specs.SurveyGraph.{graph};
ghost use Rattle.search_depths.specs.Depth.{greatest, depth_of};

use model::NONE;
use survey_neighbours::Survey;

// The greatest distance of a row; None where one is none.
fn row_depth(row: &[u16]) -> Option<u16>
    ensures { result ≡ depth_of (greatest row.now) }
{
    let mut most = 0;
    for entry in row {
        most = (*entry).max(most);
    }
    (most != NONE).then_some(most)
}

// The greatest distance from a node to another; None where a search from it misses a node.
pub fn depth_from(survey: &Survey, source: usize) -> Option<u16>
    requires { source < survey.now.n }
    ensures { result ≡ depth_of (greatest (map (fewest (linked survey.now.n (graph survey.now)) survey.now.n source) (up_to survey.now.n))) }
{
    let mut row = [NONE; 1024];
    search_one_source::search_open(survey, survey.n, source, &mut row[..survey.n]);
    row_depth(&row[..survey.n])
}

// The greatest of a number and the distances from the nodes of a list, as they stand there; None, and no other node is searched from, once a
// search misses a node.
pub fn greatest_depth(survey: &Survey, most: u16, sources: &[u16]) -> Option<u16>
    requires { (h : ℕ) → T (has h sources.now) → h < survey.now.n }
    ensures { result ≡ option_map (max most) (depth_of (greatest (rows_of survey.now.n (fewest (linked survey.now.n (graph survey.now))
        survey.now.n) sources.now))) }
{
    let mut depth = most;
    for source in sources {
        depth = depth.max(depth_from(survey, usize::from(*source))?);
    }
    Some(depth)
}
