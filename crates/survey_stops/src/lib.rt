// The line of a text at which reading or importing it stops.
// Reading and importing answer only the refusal, so the text is gone through once more here, to say the line to a person.
#![tactic(auto)]

ghost use Rattle.std.specs.Prelude.{◌≡◌, [], ◌≤◌, replicate, drop};
ghost use Rattle.model.specs.Lines.{split};
ghost use Rattle.model.specs.Dimacs.{uncommented};
ghost use Rattle.survey_stops.specs.Stops.{LinesTaken, nodes_in, line_at, first_says, links_stop, read_stop};
ghost use Rattle.survey_stops.specs.Stops.{head_says, edges_stop, kept_line, file_line};

use base_nodeset::Matrix;
use survey_reading_lines::Limits;

// Where a text stops: the line, counted from 1, and the count of nodes that its first line gives, 0 where that line is refused.
// kept: 0 and not an Option, since `nodes_in`, on which the definitions of the sentences rest, says 0
#[derive(Clone, Copy)]
pub struct Place {
    pub line: usize,
    pub nodes: usize,
}

// How many of m link lines from a place on are taken before one is refused. The matrix is empty.
fn links_taken(text: &[u8], at: usize, n: usize, m: usize, bits: &mut Matrix) -> usize
    requires { (n ≤ 1024) × (bits.old ≡ replicate 16384 0) }
    ensures { LinesTaken m result (drop at text.now) (links_stop n m [] (drop at text.now)) }
{
    let mut next = at;
    for k in 0..m {
        let Ok(link) = survey_reading_lines::link_at(text, next, n, bits) else {
            return k;
        };
        survey_reading_lines::insert_link(bits, link.a, link.b);
        next = link.end;
    }
    m
}

// Where reading a survey text stops, within limits on its counts; behind the last line where all are taken. Each line that is taken has one
// line feed, so it is the lines taken that are counted.
pub fn reading_stops(text: &[u8], most_nodes: usize, most_links: usize) -> Place
    requires { (most_nodes ≤ 1024) × (most_links ≤ 16384) }
    ensures { (result.line ≡ line_at text.now (read_stop most_nodes most_links text.now))
        × (result.nodes ≡ nodes_in (first_says most_nodes most_links text.now)) }
{
    let limits = Limits {
        nodes: most_nodes,
        links: most_links,
        starts: 1025,
        neighbours: 32768,
    };
    let Ok(first) = survey_reading_lines::first_line(text, limits) else {
        return Place { line: 1, nodes: 0 };
    };
    let mut bits = [0u64; 16384];
    let taken = links_taken(text, first.end, first.a, first.b, &mut bits);
    Place {
        line: 2 + taken,
        nodes: first.a,
    }
}

// How many of m edge lines from a place on are taken before one is refused.
// kept: a loop of its own beside `links_taken`. Edges need no matrix; a loop over both is longer than the two
fn edges_taken(text: &[u8], at: usize, n: usize, m: usize) -> usize
    ensures { LinesTaken m result (uncommented (drop at text.now))
        (edges_stop n m (uncommented (drop at text.now))) }
{
    let mut next = at;
    for k in 0..m {
        let Ok(edge) = survey_importing_lines::edge_at(text, next, n) else {
            return k;
        };
        next = edge.end;
    }
    m
}

// The line of a file that comes after k lines that are no comments, and after the comments behind them.
fn kept_line(text: &[u8], k: usize) -> usize
    requires { k ≤ 16385 }
    ensures { result ≡ kept_line k (split 10 text.now) }
{
    let mut line = 1;
    let mut left = k;
    let mut at = 0;
    while text_reading::has_byte(text, at, b'c') | (0 < left) {
        let end = text_reading::line_end(text, at);
        if text.len() <= end {
            return line;
        }
        if !text_reading::has_byte(text, at, b'c') {
            left -= 1;
        }
        line += 1;
        at = end + 1;
    }
    line
}

// Where importing a file stops; behind the last line, and the comments there, where all are taken. `edge_at` promises of the place after a
// line only what the text from there on is without its comments, which does not determine the line. So the lines taken are counted, and the
// next one is looked for from the front.
pub fn importing_stops(text: &[u8]) -> Place
    ensures { (result.line ≡ file_line text.now) × (result.nodes ≡ nodes_in (head_says (uncommented text.now))) }
{
    let Ok(head) = survey_importing_lines::head_line(text, 1025, 32768) else {
        return Place {
            line: kept_line(text, 0),
            nodes: 0,
        };
    };
    let taken = edges_taken(text, head.end, head.a, head.b);
    Place {
        line: kept_line(text, 1 + taken),
        nodes: head.a,
    }
}
