// Breadth-first search from many sources at once, level by level: for each node a set of the sources that have reached it. The sources
// are taken in groups of 256, the source j of a group being node base + j.
#![tactic(auto)]

ghost use Rattle.std.specs.Prelude.{◌≡◌, true, ◌&&◌, ◌||◌, ℕ, ◌+◌, ◌*◌, ◌<◌, ◌≤◌, min, length, replicate};
ghost use Rattle.model.specs.Basics.{any};
ghost use Rattle.base_nodeset.specs.NodeSet.{member};
ghost use Rattle.survey_neighbours.specs.SurveyGraph.{graph};
ghost use Rattle.search_many_sources.specs.Levels.{distances};

use base_nodeset::NodeSet;
use model::NONE;
use search_source_sets::{Row, Rows};
use survey_neighbours::Survey;

// The sources of a group: the allowed nodes among 256 that follow one another, from `base` on.
// kept: a list and a clause for its length; a type of table has a count of nodes too, and needs a clause that it is the survey's
#[derive(Clone, Copy)]
struct Group<'a, 'b> {
    survey: Survey<'a>,
    allowed: &'b NodeSet,
    base: usize,
    ghost begins: { base < survey.n },
}

impl<'a, 'b> Group<'a, 'b> {
    ghost use Rattle.search_source_sets.specs.SourceSets.{in_row, reached};
    ghost use Rattle.search_many_sources.specs.Levels.{reached_by, Step, Level, Begun, BegunAll, Unfilled, Filled};
    ghost use Rattle.search_many_sources.specs.Groups.{nodes, allowed, links, sources};

    // Where the group ends.
    fn end(&self) -> usize
        ensures { result ≡ min (nodes self.now) (self.now.base + 256) }
    {
        self.survey.n.min(self.base + 256)
    }

    // Puts the sources that have reached a neighbour of node v into a row, if v is allowed.
    fn join_neighbours(&self, v: usize, rows: &Rows, sum: &mut Row)
        requires { v < nodes self.now }
        ensures { (j : ℕ) → in_row sum.new j
            ≡ ((allowed self.now v && any (λ x. reached rows.now x j) (links self.now v)) || in_row sum.old j) }
    {
        let allowed = self.allowed; // a copy of the reference, which the borrow checker wants
        if base_nodeset::contains(allowed, v) {
            search_source_sets::join_rows(self.survey.own(v), rows, sum);
        }
    }

    // Node v's part of a level: the sources that have reached a neighbour reach v with d links. `near` has the sets of all nodes before the
    // level, and `far` gets those after it. Returns false only if no source is new at v.
    fn step(&self, d: u16, v: usize, near: &Rows, far: &mut Rows, table: &mut [u16]) -> bool
        requires { (v < nodes self.now) × (length table.old ≡ nodes self.now * nodes self.now) }
        ensures { Step (nodes self.now) (allowed self.now) (links self.now) d v
            (reached_by self.now.base near.now) (reached_by self.now.base far.old) (reached_by self.now.base far.new)
            table.old table.new result }
    {
        let mut sum = near[v];
        self.join_neighbours(v, near, &mut sum);
        search_source_sets::put_row(&sum, &mut far[v]);
        let found = search_source_sets::remove_row(&near[v], &mut sum);
        if found == 0 {
            return false;
        }
        let start = v * self.survey.n + self.base;
        let end = v * self.survey.n + self.end();
        search_source_sets::mark_row(&sum, found, d, &mut table[start..end]);
        true
    }

    // One level: every node's part. Returns false only if no source is new at a node. Not put into its caller, where the compiler would take
    // the rows apart into single lanes.
    #[inline(never)]
    fn level(&self, d: u16, near: &Rows, far: &mut Rows, table: &mut [u16]) -> bool
        requires { length table.old ≡ nodes self.now * nodes self.now }
        ensures { Level (nodes self.now) (allowed self.now) (links self.now) d
            (reached_by self.now.base near.now) (reached_by self.now.base far.new) table.old table.new result }
    {
        let mut more = false;
        for v in 0..self.survey.n {
            more |= self.step(d, v, near, far, table);
        }
        more
    }

    // A node of the group that is allowed has reached itself, with no link.
    fn begin(&self, source: usize, near: &mut Rows, table: &mut [u16])
        requires in_group { (self.now.base ≤ source) × (source < self.now.base + 256) × (source < nodes self.now) }
        requires table_len { length table.old ≡ nodes self.now * nodes self.now }
        ensures { Begun (nodes self.now) (sources self.now) source
            (reached_by self.now.base near.old) (reached_by self.now.base near.new) table.old table.new }
    {
        let allowed = self.allowed;
        if !base_nodeset::contains(allowed, source) {
            return;
        }
        search_source_sets::insert_source(&mut near[source], source - self.base);
        table[source * self.survey.n + source] = 0;
    }

    // Every source of the group has reached itself, and nothing else, with no link.
    fn begin_all(&self, near: &mut Rows, table: &mut [u16])
        requires near_none { near.old ≡ replicate 1024 (replicate 16 0) }
        requires table_len { length table.old ≡ nodes self.now * nodes self.now }
        requires unfilled { Unfilled (nodes self.now) (sources self.now) table.old }
        ensures { BegunAll (nodes self.now) (sources self.now) (reached_by self.now.base near.new)
            table.old table.new }
    {
        for v in self.base..self.end() {
            self.begin(v, near, table);
        }
    }

    // Level by level, to one that finds nothing new. The columns of the sources get the fewest links to each node, or none. Returns whether
    // they did: after 256 levels the search gives up, since from one source after the other it is faster.
    fn search_levels<'c>(
        &self,
        mut near: &'c mut Rows,
        mut far: &'c mut Rows,
        table: &mut [u16],
    ) -> bool
        requires begun_all { BegunAll (nodes self.now) (sources self.now) (reached_by self.now.base near.old) table.old table.old }
        requires table_len { length table.old ≡ nodes self.now * nodes self.now }
        ensures { result ≡ true → Filled (nodes self.now) (allowed self.now) (sources self.now) (links self.now) table.old table.new }
    {
        for d in 1..self.survey.n as u16 {
            if 256 < d {
                return false;
            }
            if !self.level(d, near, far, table) {
                return true;
            }
            std::mem::swap(&mut near, &mut far);
        }
        true
    }

    // The sources of the group, in a table in which their columns are none. Returns whether their columns are filled.
    fn search(&self, table: &mut [u16]) -> bool
        requires table_len { length table.old ≡ nodes self.now * nodes self.now }
        requires unfilled { Unfilled (nodes self.now) (sources self.now) table.old }
        ensures { result ≡ true → Filled (nodes self.now) (allowed self.now) (sources self.now) (links self.now) table.old table.new }
    {
        let mut near = [[0; 16]; 1024];
        self.begin_all(&mut near, table);
        let mut far = [[0; 16]; 1024];
        self.search_levels(&mut near, &mut far, table)
    }
}

// The fewest links between all allowed nodes through allowed nodes, as a table: node v's row has the distances from all sources, which
// are the distances to them. Returns whether the table is filled; it is not where the search would have more than 256 levels.
pub fn search_all(survey: &Survey, allowed: &NodeSet, table: &mut [u16]) -> bool
    requires { length table.old ≡ survey.now.n * survey.now.n }
    ensures { result ≡ true
        → table.new ≡ distances survey.now.n (member allowed.now) (graph survey.now) }
{
    table.fill(NONE);
    for number in 0..survey.n.div_ceil(256) {
        let group = Group {
            survey: *survey,
            allowed,
            base: 256 * number,
        };
        if !group.search(table) {
            return false;
        }
    }
    true
}
