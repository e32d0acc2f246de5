// The two-or-four test: searches from a few nodes, and the verdict that they give, parted, long or short.
#![tactic(auto)]

ghost use Rattle.std.specs.Prelude.{◌≡◌, ◌<◌};
ghost use Rattle.std.specs.List.{find};
ghost use Rattle.model.specs.Answers.{outcome};
ghost use Rattle.model.specs.Basics.{up_to};
ghost use Rattle.model.specs.Hubs.{is_low, hubs, closed};
ghost use Rattle.model.specs.TwoOrFour.{test_result};
ghost use Rattle.model.specs.Testing.{testing};
ghost use Rattle.model.specs.Demand.{TestRight};
ghost use Rattle.survey_neighbours.specs.SurveyGraph.{graph};
ghost use Rattle.answer_two_or_four.specs.DepthVerdict.{of_depth, of_searches};

use model::{Refusal, TestResult, Verdict};
use survey_neighbours::Survey;

// The smallest low node.
fn smallest_low(survey: &Survey, s: usize) -> Option<usize>
    ensures { result ≡ find (is_low s (graph survey.now)) (up_to survey.now.n) }
{
    (0..survey.n).find(|v| survey.degree(*v) < s)
}

// The verdict on the greatest depth of the searches.
#[tactic(auto, unfolding(crate::specs::DepthVerdict::of_depth))]
fn verdict_on(depth: Option<u16>) -> Verdict
    ensures { result ≡ of_depth depth }
{
    match depth {
        Some(most) if most <= 2 => Verdict::Short,
        Some(_) => Verdict::Long,
        None => Verdict::Parted,
    }
}

// Searches from a node, and from its neighbours where they stand in the list.
fn test_from(survey: &Survey, v: usize) -> TestResult
    requires { v < survey.now.n }
    ensures { result ≡ of_searches survey.now.n (graph survey.now) (closed (graph survey.now) v) }
{
    let own = survey.own(v);
    // kept: with `and_then` the closure has no inferred `ensures`, and the proof does not close
    let depth = match search_depths::depth_from(survey, v) {
        Some(first) => search_depths::greatest_depth(survey, first, own),
        None => None,
    };
    TestResult {
        verdict: verdict_on(depth),
        searches: 1 + own.len(),
    }
}

// Searches from every hub.
fn test_hubs(survey: &Survey, s: usize) -> TestResult
    ensures { result ≡ of_searches survey.now.n (graph survey.now) (hubs survey.now.n s (graph survey.now)) }
{
    let mut list = [0u16; 1024];
    let searches = table_hubs::choose_hubs(survey, s, &mut list);
    let depth = search_depths::greatest_depth(survey, 0, &list[..searches]);
    let verdict = verdict_on(depth);
    TestResult { verdict, searches }
}

// The test for threshold s: from the smallest low node and its neighbours, or else from the hubs.
fn run_test(survey: &Survey, s: usize) -> TestResult
    ensures { result ≡ test_result survey.now.n s (graph survey.now) }
{
    match smallest_low(survey, s) {
        Some(v) => test_from(survey, v),
        None => test_hubs(survey, s),
    }
}

// The two-or-four test of a survey, split by the threshold t, or by the stored one where t is 0. For every accepted survey and every
// threshold that is not refused there is a verdict, and it is right.
#[tactic(auto, unfolding(model::specs::Testing::testing))]
pub fn test(n: usize, t: usize, starts: &[u32], neighbours: &[u16]) -> Result<TestResult, Refusal>
    ensures result_value { outcome result ≡ testing n t starts.now neighbours.now }
    ensures test_right { TestRight n t starts.now neighbours.now (outcome result) }
{
    if base_refusals::bad_size(n) {
        return Err(Refusal::NodeCount);
    }
    if base_refusals::bad_threshold(t) {
        return Err(Refusal::BadThreshold);
    }
    if base_refusals::short_starts(n, starts.len()) {
        return Err(Refusal::ShortList);
    }
    let survey = survey_acceptance::survey(n, starts, neighbours).ok_or(Refusal::NotSurvey)?;
    let s = base_threshold::in_force(n, t);
    Ok(run_test(&survey, s))
}
