// High and low nodes, by their degree.
#![tactic(auto)]

ghost use Rattle.std.specs.Prelude.{◌≡◌, ◌&&◌, ltb, replicate};
ghost use Rattle.model.specs.Hubs.{is_high, is_low};
ghost use Rattle.base_nodeset.specs.NodeSet.{member};
ghost use Rattle.survey_neighbours.specs.SurveyGraph.{graph};

use base_nodeset::NodeSet;
use survey_neighbours::Survey;

// The nodes with at least s neighbours, put into the empty set.
pub fn high_nodes(survey: &Survey, s: usize, words: &mut NodeSet)
    requires { words.old ≡ replicate 16 0 }
    ensures { member words.new ≡ (λ v. ltb v survey.now.n && is_high s (graph survey.now) v) }
{
    for v in 0..survey.n {
        if s <= survey.degree(v) {
            base_nodeset::insert(words, v);
        }
    }
}

// The nodes with fewer than s neighbours, put into the empty set.
pub fn low_nodes(survey: &Survey, s: usize, words: &mut NodeSet)
    requires { words.old ≡ replicate 16 0 }
    ensures { member words.new ≡ (λ v. ltb v survey.now.n && is_low s (graph survey.now) v) }
{
    let mut high = [0u64; 16];
    high_nodes(survey, s, &mut high);
    base_nodeset::insert_below(words, survey.n);
    base_nodeset::subtract(words, &high);
}
