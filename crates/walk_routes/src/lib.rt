// The walk of a route: by a link, over low nodes, or through a hub.
#![tactic(auto)]

ghost use Rattle.std.specs.Prelude.{◌≡◌, ◌*◌, ◌≤◌, ◌<◌, length};
ghost use Rattle.model.specs.Walk.{by_link, by_low, to_hub, join};
ghost use Rattle.model.specs.Walking.{walk_returned, fit};
ghost use Rattle.survey_neighbours.specs.SurveyGraph.{graph};
ghost use Rattle.walk_routes.specs.Blank.{IsBlank};

use model::{Answer, Refusal};
use survey_neighbours::Survey;

// Writes the walk along the link into a list that is all none: the two nodes. The link is judged before the list's length.
pub fn write_link(
    survey: &Survey<'_>,
    a: usize,
    b: usize,
    answer: Answer,
    walk: &mut [u16],
) -> Result<Answer, Refusal>
    requires nodes { (a < survey.now.n) × (b < survey.now.n) }
    requires blank { IsBlank walk.old }
    ensures { walk_returned result walk.new ≡ fit (length walk.old) answer (by_link survey.now.n (graph survey.now) a b) }
{
    let linked = survey.are_linked(a, b);
    if !linked {
        return Err(Refusal::NotAttained);
    }
    if walk.len() < 2 {
        return Err(Refusal::ShortList);
    }
    walk[0] = a as u16;
    walk[1] = b as u16;
    Ok(answer)
}

// Writes the walk over nodes that are low for threshold s into a list that is all none. The steps are judged before the list's length.
// kept: a list and a clause for its length; a type of table has a count of nodes too, and needs a clause that it is the survey's
pub fn write_low(
    survey: &Survey<'_>,
    s: usize,
    low: &[u16],
    a: usize,
    b: usize,
    answer: Answer,
    walk: &mut [u16],
) -> Result<Answer, Refusal>
    requires nodes { (survey.now.n * survey.now.n ≤ length low.now) × (a < survey.now.n) × (b < survey.now.n) }
    requires blank { IsBlank walk.old }
    ensures { walk_returned result walk.new ≡ fit (length walk.old) answer
        (by_low survey.now.n s (graph survey.now) low.now a b) }
{
    let mut nodes = [0; 1024];
    let part = walk_parts::low_part(survey, s, low, a, b, &mut nodes);
    let count = part.ok_or(Refusal::NotAttained)?;
    if walk.len() < count {
        return Err(Refusal::ShortList);
    }
    base_lists::copy_reversed(&nodes[..count], walk);
    Ok(answer)
}

// Writes the walk through hub h into a list that is all none: the part from a to h, then the one from b to h turned round, without h.
pub fn write_through(
    survey: &Survey<'_>,
    full: &[u16],
    a: usize,
    b: usize,
    h: usize,
    answer: Answer,
    walk: &mut [u16],
) -> Result<Answer, Refusal>
    requires nodes { (survey.now.n * survey.now.n ≤ length full.now) × (a < survey.now.n) × (b < survey.now.n) × (h < survey.now.n) }
    requires blank { IsBlank walk.old }
    ensures { walk_returned result walk.new ≡ fit (length walk.old) answer
        (join (to_hub survey.now.n (graph survey.now) full.now h a) (to_hub survey.now.n (graph survey.now) full.now h b)) }
{
    let mut there = [0; 1024];
    let first = walk_parts::hub_part(survey, full, h, a, &mut there);
    let i = first.ok_or(Refusal::NotAttained)?;
    let mut back = [0; 1024];
    let second = walk_parts::hub_part(survey, full, h, b, &mut back);
    let j = second.ok_or(Refusal::NotAttained)?;
    if walk.len() < i + j - 1 {
        return Err(Refusal::ShortList);
    }
    base_lists::copy_reversed(&there[..i], walk);
    base_lists::copy(&back[1..j], walk, i);
    Ok(answer)
}
