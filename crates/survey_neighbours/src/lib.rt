// One node's neighbours, as a part of the neighbour list, and whether two nodes are linked.
#![tactic(auto)]

ghost use Rattle.std.specs.Prelude.{◌≡◌, ◌<◌, length};
ghost use Rattle.model.specs.Survey.{neighbours_of, Accepted};
ghost use Rattle.survey_neighbours.specs.Rows.{Rows};

// An accepted survey: its count of nodes, and its two lists.
#[derive(Clone, Copy)]
pub struct Survey<'a> {
    pub n: usize,
    pub starts: &'a [u32],
    pub neighbours: &'a [u16],
    pub ghost accepted: { Accepted n starts.now neighbours.now },
}

// The neighbours of node v: from where its row starts to where the next one does.
#[tactic(auto, unfolding(model::specs::Survey::neighbours_of))]
// kept: a function beside the method, which asks `Rows` only, with n for its clause; docs/RULES.md, 3.4, names it
pub fn own<'a>(n: usize, starts: &[u32], neighbours: &'a [u16], v: usize) -> &'a [u16]
    requires { Rows n starts.now neighbours.now × (v < n) }
    ensures { result.now ≡ neighbours_of starts.now neighbours.now v }
{
    let a = starts[v] as usize;
    let e = starts[v + 1] as usize;
    &neighbours[a..e]
}

impl<'a> Survey<'a> {
    ghost use Rattle.model.specs.Graph.{linked};
    ghost use Rattle.survey_neighbours.specs.SurveyGraph.{graph};

    // The neighbours of node v.
    pub fn own(&self, v: usize) -> &'a [u16]
        requires { v < self.now.n }
        ensures { result.now ≡ graph self.now v }
    {
        own(self.n, self.starts, self.neighbours, v)
    }

    // The number of the neighbours of node v.
    pub fn degree(&self, v: usize) -> usize
        requires { v < self.now.n }
        ensures { result ≡ length (graph self.now v) }
    {
        (self.starts[v + 1] - self.starts[v]) as usize
    }

    // Whether two nodes are linked. In an accepted survey a link stands at both ends, so a's row decides.
    pub fn are_linked(&self, a: usize, b: usize) -> bool
        requires { a < self.now.n }
        ensures { result ≡ linked self.now.n (graph self.now) a b }
    {
        self.own(a).iter().any(|x| usize::from(*x) == b)
    }
}
