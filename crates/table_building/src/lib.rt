// The three tables and the hub list, built from a survey.
#![tactic(auto)]

ghost use Rattle.std.specs.Prelude.{◌≡◌, ◌*◌, ◌≤◌, length};
ghost use Rattle.model.specs.Answers.{answered};
ghost use Rattle.model.specs.Building.{built, build_returned, building};
ghost use Rattle.model.specs.Demand.{BuildRight};
ghost use Rattle.survey_neighbours.specs.SurveyGraph.{graph};

use model::Refusal;
use survey_neighbours::Survey;

// The hub list and the three tables for threshold s; the count of hubs is returned.
// kept: three lists and no struct; they come apart from C, and a struct of lent lists has to promise of each that it is still that list
pub fn build_tables(
    survey: &Survey,
    s: usize,
    full: &mut [u16],
    low: &mut [u16],
    report: &mut [u16],
    hubs: &mut [u16],
) -> usize
    requires { let size = survey.now.n * survey.now.n in
        (size ≤ length full.old) × (size ≤ length low.old) × (size ≤ length report.old) × (survey.now.n ≤ length hubs.old) }
    ensures { record { answer = answered result; full = full.new; low = low.new; report = report.new; hubs = hubs.new }
        ≡ built survey.now.n s (graph survey.now) full.old low.old report.old hubs.old }
{
    let count = table_hubs::choose_hubs(survey, s, hubs);
    table_distances::fill_full(survey, &hubs[..count], full);
    table_distances::fill_low(survey, s, low);
    table_report::fill_report(survey, full, low, &hubs[..count], report);
    count
}

// Builds the three tables and the hub list of a survey, split by the threshold t, or by the stored one where t is 0; where it refuses, it
// leaves them as they were.
pub fn build(
    n: usize,
    t: usize,
    starts: &[u32],
    neighbours: &[u16],
    full: &mut [u16],
    low: &mut [u16],
    report: &mut [u16],
    hubs: &mut [u16],
) -> Result<usize, Refusal>
    ensures hubs_after { build_returned result full.new low.new report.new hubs.new
        ≡ building n t starts.now neighbours.now
        full.old low.old report.old hubs.old }
    ensures build_right { BuildRight n t starts.now neighbours.now
        (build_returned result full.new low.new report.new hubs.new) }
{
    if base_refusals::bad_size(n) {
        return Err(Refusal::NodeCount);
    }
    if base_refusals::bad_threshold(t) {
        return Err(Refusal::BadThreshold);
    }
    if base_refusals::short_starts(n, starts.len())
        || base_refusals::short_tables(n, full.len(), low.len(), report.len())
        || hubs.len() < n
    {
        return Err(Refusal::ShortList);
    }
    let Some(survey) = survey_acceptance::survey(n, starts, neighbours) else {
        return Err(Refusal::NotSurvey);
    };
    let s = base_threshold::in_force(n, t);
    Ok(build_tables(&survey, s, full, low, report, hubs))
}
