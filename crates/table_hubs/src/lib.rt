// The hubs: a dominating set of the high nodes, chosen greedily. Sets of nodes are 64-bit words.
#![tactic(auto)]

ghost use Rattle.std.specs.Prelude.{◌≡◌, ◌<◌, ◌≤◌, length};
ghost use Rattle.model.specs.Basics.{up_to, has, keep, over};
ghost use Rattle.model.specs.Hubs.{closed, gain, best, hubs};
ghost use Rattle.model.specs.Tables.{hub_list};
ghost use Rattle.base_nodeset.specs.NodeSet.{member, intersection, difference};
ghost use Rattle.survey_neighbours.specs.SurveyGraph.{graph};
ghost use Rattle.table_hubs.specs.Bounds.{Bounded};

use base_nodeset::NodeSet;
use model::NONE;
use survey_neighbours::Survey;

// The closed neighbourhood of a node.
fn closed_set(survey: &Survey, v: usize) -> NodeSet
    requires { v < survey.now.n }
    ensures { member result ≡ (λ x. has x (closed (graph survey.now) v)) }
{
    let mut set = [0u64; 16];
    base_nodeset::insert(&mut set, v);
    let row = survey.own(v);
    for u in row {
        base_nodeset::insert(&mut set, *u as usize);
    }
    set
}

// The nodes that are newly covered if v becomes a hub: the words of its closed neighbourhood masked with those of the uncovered nodes.
fn newly_covered(survey: &Survey, v: usize, uncovered: &NodeSet) -> NodeSet
    requires { v < survey.now.n }
    ensures { member result
        ≡ intersection (λ x. has x (closed (graph survey.now) v)) (member uncovered.now) }
{
    let mut newly = [0u64; 16];
    base_nodeset::write_intersection(&closed_set(survey, v), uncovered, &mut newly);
    newly
}

// How many nodes are newly covered if v becomes a hub: the ones of that set are counted.
fn gain_of(survey: &Survey, v: usize, uncovered: &NodeSet) -> u16
    requires { v < survey.now.n }
    ensures { result ≡ gain (graph survey.now) (keep (member uncovered.now) (up_to survey.now.n)) v }
{
    base_nodeset::count(&newly_covered(survey, v, uncovered)) as u16
}

// The node that newly covers most nodes; on a tie, the one with the smallest number. A node whose bound is not above the most found so
// far cannot be that node, and its gain is not counted; else its gain becomes its bound.
fn best_node(survey: &Survey, uncovered: &NodeSet, bounds: &mut [u16; 1024]) -> usize
    requires { Bounded survey.now.n (graph survey.now) (keep (member uncovered.now) (up_to survey.now.n)) bounds.old }
    ensures value { result
        ≡ best survey.now.n (graph survey.now) (keep (member uncovered.now) (up_to survey.now.n)) }
    ensures bounded_2 { Bounded survey.now.n (graph survey.now)
        (keep (member uncovered.now) (up_to survey.now.n)) bounds.new }
{
    let mut node = 0;
    let mut most = 0;
    for v in 0..survey.n {
        if most < bounds[v] {
            let g = gain_of(survey, v, uncovered);
            bounds[v] = g;
            if most < g {
                node = v;
                most = g;
            }
        }
    }
    node
}

// Takes the nodes that v newly covers out of the uncovered nodes.
fn cover(survey: &Survey, v: usize, uncovered: &mut NodeSet)
    requires { v < survey.now.n }
    ensures { member uncovered.new
        ≡ difference (member uncovered.old) (λ x. has x (closed (graph survey.now) v)) }
{
    let newly = newly_covered(survey, v, uncovered);
    base_nodeset::subtract(uncovered, &newly);
}

// Writes the hubs for threshold s, in the order chosen, and then none into the first n entries of the list; returns the count of hubs.
pub fn choose_hubs(survey: &Survey, s: usize, list: &mut [u16]) -> usize
    requires { survey.now.n ≤ length list.old }
    ensures value { result ≡ length (hubs survey.now.n s (graph survey.now)) }
    ensures list_after { list.new ≡ over (hub_list survey.now.n s (graph survey.now)) list.old }
{
    let n = survey.n;
    let mut uncovered = [0u64; 16];
    table_degree_split::high_nodes(survey, s, &mut uncovered);
    // bounds on what the nodes gain: as uncovered nodes become fewer, no node gains more than before
    let mut bounds = [1024u16; 1024];
    let mut count = 0;
    while base_nodeset::smallest(&uncovered).is_some() {
        let hub = best_node(survey, &uncovered, &mut bounds);
        list[count] = hub as u16;
        count += 1;
        cover(survey, hub, &mut uncovered);
    }
    list[count..n].fill(NONE);
    count
}
