// The queue of a breadth-first search: which nodes join it, and when it ends. The search's row has the distance of each node that has
// joined the queue; a node that the search can still find has none there, and a node that it may not enter another number.
#![tactic(auto)]

ghost use Rattle.std.specs.Prelude.{◌≡◌, ℕ, ◌+◌, ◌<◌, ◌≤◌, T, length};
ghost use Rattle.model.specs.Basics.{none, has};
ghost use Rattle.search_queue.specs.Visiting.{unreached, progress, visited, visited_all};

use model::NONE;

// How a search visits a node: node w gets the distance d and a place in the queue, if it has none. Returns the queue's new end.
// kept: tried in Rust, with queue and end in one struct a search of 16,384 links takes a fifth longer: the end leaves its register.
pub trait Visit {
    fn visit(w: u16, d: u16, row: &mut [u16], queue: &mut [u16], tail: usize) -> usize
        requires { (w < length row.old) × (length row.old ≤ 1024) × (tail < length queue.old) × (tail ≤ 1024) }
        ensures { progress row.new queue.new result
            ≡ visited d w (progress row.old queue.old tail) };
}

// By a branch. Where the processor foresees it, the next node need not wait for the queue's end.
pub struct ByBranch;

// With no branch, since the place behind the end is written in any case; so the list has a place more than the queue can have nodes.
pub struct WithoutBranch;

impl Visit for ByBranch {
    fn visit(w: u16, d: u16, row: &mut [u16], queue: &mut [u16], tail: usize) -> usize {
        if row[w as usize] != NONE {
            return tail;
        }
        row[w as usize] = d;
        queue[tail] = w;
        tail + 1
    }
}

impl Visit for WithoutBranch {
    fn visit(w: u16, d: u16, row: &mut [u16], queue: &mut [u16], tail: usize) -> usize {
        let entry = row[w as usize];
        row[w as usize] = if entry == NONE { d } else { entry };
        queue[tail] = w; // even where w does not join
        tail + if entry == NONE { 1 } else { 0 }
    }
}

// Visits each node of a list, in its order: the neighbours of one node, a part of the neighbour list. Once the queue has `count` nodes,
// all that the search can find, no further visit would change anything.
pub fn visit_all<V: Visit>(
    nodes: &[u16],
    d: u16,
    count: usize,
    row: &mut [u16],
    queue: &mut [u16],
    tail: usize,
) -> usize
    requires by_index { ((w : ℕ) → T (has w nodes.now) → w < length row.old) × (d < none) }
    requires row_len_bound { (length row.old ≤ 1024) × (count < length queue.old) × (tail + unreached row.old ≡ count) × (count ≤ 1024) }
    ensures { progress row.new queue.new result
        ≡ visited_all d nodes.now (progress row.old queue.old tail) }
{
    let mut end = tail;
    for w in nodes {
        end = V::visit(*w, d, row, queue, end);
        if end == count {
            break;
        }
    }
    end
}
