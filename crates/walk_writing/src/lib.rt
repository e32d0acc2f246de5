// Writing a walk: the nodes of a pair's route, chosen by the tables and the lists.
#![tactic(auto)]

ghost use Rattle.std.specs.Prelude.{◌≡◌, ℕ, IfOk, length};
ghost use Rattle.model.specs.Answers.{map_answer, outcome};
ghost use Rattle.model.specs.Survey.{neighbours_of};
ghost use Rattle.model.specs.Graph.{linked};
ghost use Rattle.model.specs.Threshold.{in_force};
ghost use Rattle.model.specs.Walk.{walk_nodes};
ghost use Rattle.model.specs.Walking.{walk_returned, fit, walk_of, walking};
ghost use Rattle.model.specs.Demand.{WalkSound, WalkRight};
ghost use Rattle.survey_neighbours.specs.SurveyGraph.{graph};
ghost use Rattle.walk_routes.specs.Blank.{IsBlank};
ghost use Rattle.walk_writing.specs.Ready.{Ready};

use answer_pair::Tables;
use model::{Answer, Refusal, Route};
use survey_neighbours::Survey;

// A pair of nodes that is answered, with what it is answered from.
#[derive(Clone, Copy)]
struct Pair<'a> {
    survey: Survey<'a>,
    tables: Tables<'a>,
    a: usize,
    b: usize,
    answer: Answer,
    ghost ready: { Ready survey.n tables.n a b answer },
}

impl<'a> Pair<'a> {
    ghost use Rattle.walk_writing.specs.Judged.{answer_of, IsJudged};

    // The pair with its answer, or a refusal where a test that comes before the walk's first step fails.
    #[tactic(auto, using(std::proofs::lemmas::Bool::Decides::nat_tests), unfolding(model::specs::Walking::walking, model::specs::Walking::walk_of))]
    fn judge(
        n: usize,
        t: usize,
        starts: &'a [u32],
        neighbours: &'a [u16],
        full: &'a [u16],
        low: &'a [u16],
        report: &'a [u16],
        a: usize,
        b: usize,
    ) -> Result<Pair<'a>, Refusal>
        ensures by_index { (w : ℕ)
            → walking n t starts.now neighbours.now full.now low.now report.now a b w
            ≡ walk_of w n (in_force n t) (neighbours_of starts.now neighbours.now)
            full.now low.now a b (map_answer answer_of (outcome result)) }
        ensures judged { IfOk result (λ pair. IsJudged pair n starts.now neighbours.now full.now low.now a b) }
    {
        if base_refusals::bad_size(n) {
            return Err(Refusal::NodeCount);
        }
        if base_refusals::bad_threshold(t) {
            return Err(Refusal::BadThreshold);
        }
        if base_refusals::short_starts(n, starts.len()) {
            return Err(Refusal::ShortList);
        }
        let tables = Tables::new(n, full, low, report).ok_or(Refusal::ShortList)?;
        let survey = survey_acceptance::survey(n, starts, neighbours).ok_or(Refusal::NotSurvey)?;
        if base_refusals::bad_pair(n, a, b) {
            return Err(Refusal::NoNode);
        }
        let answer = answer_pair::pair_answer(&tables, a, b)?;
        Ok(Pair {
            survey,
            tables,
            a,
            b,
            answer,
        })
    }

    // Writes the walk of the answer into a list that is all none. Nodes are low for threshold s.
    fn write(&self, s: usize, walk: &mut [u16]) -> Result<Answer, Refusal>
        requires { IsBlank walk.old }
        ensures { walk_returned result walk.new ≡ fit (length walk.old) self.now.answer
            (walk_nodes self.now.survey.n s (graph self.now.survey) self.now.tables.full.now self.now.tables.low.now
            self.now.a self.now.b self.now.answer.route) }
    {
        let Pair {
            survey,
            tables,
            a,
            b,
            answer,
        } = *self;
        match answer.route {
            Route::Itself => {
                if walk.is_empty() {
                    return Err(Refusal::ShortList);
                }
                walk[0] = a as u16;
                Ok(answer)
            }
            Route::Low => walk_routes::write_low(&survey, s, tables.low, a, b, answer, walk),
            Route::Through(h) => {
                let h = usize::from(h);
                walk_routes::write_through(&survey, tables.full, a, b, h, answer, walk)
            }
            Route::NoRoute => Ok(answer),
            Route::Link => walk_routes::write_link(&survey, a, b, answer, walk),
        }
    }
}

// Writing a walk: the answer to a pair, and its walk in the list, none behind it. t is the threshold of the tables, 0 for the stored one.
// A walk that is given out is a chain of the survey's links, whatever the tables and the threshold are; with the tables built from the
// survey with that threshold one is given out in every list that is long enough.
pub fn write_walk(
    n: usize,
    t: usize,
    starts: &[u32],
    neighbours: &[u16],
    full: &[u16],
    low: &[u16],
    report: &[u16],
    a: usize,
    b: usize,
    walk: &mut [u16],
) -> Result<Answer, Refusal>
    ensures walk_after { walk_returned result walk.new
        ≡ walking n t starts.now neighbours.now full.now low.now report.now a b
        (length walk.old) }
    ensures walk_sound { WalkSound (linked n (neighbours_of starts.now neighbours.now)) a b
        (walk_returned result walk.new) }
    ensures walk_right { WalkRight n t starts.now neighbours.now full.now low.now
        report.now a b (length walk.old) (walk_returned result walk.new) }
{
    walk.fill(model::NONE);
    let pair = Pair::judge(n, t, starts, neighbours, full, low, report, a, b)?;
    let s = base_threshold::in_force(n, t);
    pair.write(s, walk)
}
