// One part of a walk: steps over low nodes, or from a node to a hub.
#![tactic(auto)]

ghost use Rattle.std.specs.Prelude.{◌≡◌, ◌*◌, ◌≤◌, ◌<◌, All, length};
ghost use Rattle.std.specs.List.{find};
ghost use Rattle.model.specs.Walk.{by_low, to_hub};
ghost use Rattle.survey_neighbours.specs.SurveyGraph.{graph};
ghost use Rattle.walk_parts.specs.Found.{is_found, Leaves, PartIs};
ghost use Rattle.walk_parts.specs.Inside.{Inside};

use base_nodeset::NodeSet;
use survey_neighbours::Survey;

// What is the same at each step of a part: the survey, the nodes that may be entered, the node where it ends, and a table with the links
// left from each node. The entries for node x and node x + 1 stand `stride` apart: 1 in a row of a table, n in a column.
#[derive(Clone, Copy)]
struct Part<'a> {
    survey: Survey<'a>,
    allowed: &'a NodeSet,
    goal: usize,
    table: &'a [u16],
    stride: usize,
    ghost inside: { Inside survey.n table.now stride },
}

impl Part<'_> {
    ghost use Rattle.walk_parts.specs.Parts.{left_in, leads_on, steps_in};

    // The links left from x.
    fn left(&self, x: usize) -> u16
        requires { x < self.now.survey.n }
        ensures { result ≡ left_in self.now x }
    {
        self.table[x * self.stride]
    }

    // Whether the part may go on to x: it is d links from the goal and may be entered.
    #[tactic(auto, using(std::proofs::lemmas::Bool::Decides::nat_tests), unfolding(crate::specs::Parts::leads_on))]
    fn leads_on(&self, d: usize, x: usize) -> bool
        requires { x < self.now.survey.n }
        ensures { result ≡ leads_on self.now d x }
    {
        let allowed = self.allowed; // a copy of the reference, which the borrow checker wants
        usize::from(self.left(x)) == d && base_nodeset::contains(allowed, x)
    }

    // The first node of a row that the part may go on to.
    fn next_node(&self, d: usize, row: &[u16]) -> Option<u16>
        requires { All (λ x. x < self.now.survey.n) row.now }
        ensures { result ≡ find (leads_on self.now d) row.now }
    {
        row.iter()
            .copied()
            .find(|&x| self.leads_on(d, usize::from(x)))
    }

    // Takes d steps from v, each to the first neighbour that leaves one link fewer, and tells whether they end at the goal. A node's place
    // in `nodes` is the number of links left from it.
    fn take_steps(&self, d: usize, v: usize, nodes: &mut [u16]) -> bool
        requires { (v < self.now.survey.n) × (d < length nodes.old) }
        ensures value { result ≡ is_found (steps_in self.now d v) }
        ensures leaves { Leaves (steps_in self.now d v) nodes.old nodes.new }
    {
        nodes[d] = v as u16;
        if d == 0 {
            return v == self.goal;
        }
        match self.next_node(d - 1, self.survey.own(v)) {
            Some(x) => self.take_steps(d - 1, usize::from(x), nodes),
            None => false,
        }
    }

    // Writes the part from v into `nodes`, as `take_steps` does, and answers the count of its nodes, if there is such a part. One of n links
    // or more would enter more nodes than there are: so no recursion is deeper than n.
    fn write(&self, v: usize, nodes: &mut [u16]) -> Option<usize>
        requires { (v < self.now.survey.n) × (self.now.survey.n ≤ length nodes.old) }
        ensures { PartIs self.now.survey.n (steps_in self.now (left_in self.now v) v) result nodes.old nodes.new }
    {
        let d = usize::from(self.left(v));
        if d < self.survey.n && self.take_steps(d, v, nodes) {
            Some(d + 1)
        } else {
            None
        }
    }
}

// The part from a to b over nodes that are low for threshold s: their distances from b stand in a column of Low.
// kept: a list and a clause for its length; a type of table has a count of nodes too, and needs a clause that it is the survey's
pub fn low_part(
    survey: &Survey<'_>,
    s: usize,
    low: &[u16],
    a: usize,
    b: usize,
    nodes: &mut [u16],
) -> Option<usize>
    requires { (survey.now.n * survey.now.n ≤ length low.now) × (a < survey.now.n) × (b < survey.now.n) × (survey.now.n ≤ length nodes.old) }
    ensures { PartIs survey.now.n (by_low survey.now.n s (graph survey.now) low.now a b) result nodes.old nodes.new }
{
    let mut allowed = [0u64; 16];
    table_degree_split::low_nodes(survey, s, &mut allowed);
    let part = Part {
        survey: *survey,
        allowed: &allowed,
        goal: b,
        table: &low[b..],
        stride: survey.n,
    };
    part.write(a, nodes)
}

// The part from v to hub h: distances from h stand in a row of Full, and any node may be entered.
pub fn hub_part(
    survey: &Survey<'_>,
    full: &[u16],
    h: usize,
    v: usize,
    nodes: &mut [u16],
) -> Option<usize>
    requires { (survey.now.n * survey.now.n ≤ length full.now) × (h < survey.now.n) × (v < survey.now.n) × (survey.now.n ≤ length nodes.old) }
    ensures { PartIs survey.now.n (to_hub survey.now.n (graph survey.now) full.now h v) result nodes.old nodes.new }
{
    let mut allowed = [0u64; 16];
    base_nodeset::insert_below(&mut allowed, survey.n);
    let first = h * survey.n;
    let part = Part {
        survey: *survey,
        allowed: &allowed,
        goal: h,
        table: &full[first..],
        stride: 1,
    };
    part.write(v, nodes)
}
