// The lines of a DIMACS edge file: comments are passed over, and the edge lines read into a bit matrix in which a repeated link is found in
// constant time.
#![tactic(auto)]

ghost use Rattle.std.specs.Prelude.{◌≡◌, List, [], ◌∷◌, ◌++◌, ℕ, ◌≤◌, ◌<◌, length, replicate, drop};
ghost use Rattle.model.specs.Answers.{map_answer};
ghost use Rattle.model.specs.Lines.{two_line};
ghost use Rattle.model.specs.Dimacs.{uncommented, head_word, edge_word, head_of, edge_of, read_edges, once_after};
ghost use Rattle.survey_reading_lines.specs.LinesRead.{Holds, Told};
ghost use Rattle.survey_importing_lines.specs.FileLines.{Passed, file_answer};

use base_nodeset::Matrix;
use model::Refusal;
use survey_reading_lines::Limits;
use text_reading::Pair;

// The place after the comments that begin at a place. A comment without its end is not passed.
fn pass_comments(text: &[u8], at: usize) -> usize
    ensures { Passed text.now at result }
{
    let mut next = at;
    while text_reading::has_byte(text, next, b'c') {
        let end = text_reading::line_end(text, next);
        if text.len() <= end {
            return next;
        }
        next = end + 1;
    }
    next
}

// The first line that is no comment, for lists of some lengths: the counts of nodes and lines, and the place after it.
pub fn head_line(text: &[u8], starts: usize, neighbours: usize) -> Result<Pair<usize>, Refusal>
    ensures { file_answer text.now result ≡ head_of starts neighbours (two_line head_word 32 (uncommented text.now)) }
{
    let at = pass_comments(text, 0);
    let line = text_reading::pair_at(text, at, b"p edge", b' ').ok_or(Refusal::FileForm)?;
    let limits = Limits {
        nodes: 1024,
        links: 16384,
        starts,
        neighbours,
    };
    survey_reading_lines::within_limits(line, limits)
}

// The next line from a place on that is no comment: the link that it names, its nodes numbered from 0.
pub fn edge_at(text: &[u8], at: usize, n: usize) -> Result<Pair<usize>, Refusal>
    ensures { file_answer text.now result ≡ edge_of n (two_line edge_word 32 (uncommented (drop at text.now))) }
{
    let start = pass_comments(text, at);
    let Pair { a, b, end } = text_reading::pair_at(text, start, b"e", b' ').ok_or(
        Refusal::FileForm,
    )?;
    let nodes = 1..=n as u64;
    let near = nodes.contains(&a) & nodes.contains(&b);
    if !near {
        return Err(Refusal::LineNode);
    }
    if a == b {
        return Err(Refusal::EqualEnds);
    }
    let (a, b) = ((a - 1) as usize, (b - 1) as usize);
    Ok(Pair { a, b, end })
}

// Puts a link into the matrix, unless it is there, and returns how many links that adds.
fn keep_link(bits: &mut Matrix, a: usize, b: usize) -> usize
    requires { (a < 1024) × (b < 1024) }
    ensures { (links : List (ℕ × ℕ)) → Holds bits.old links
        → (result ≡ length (once_after links ((a, b) ∷ []))) × Holds bits.new (once_after links ((a, b) ∷ []) ++ links) }
{
    if survey_reading_lines::has_link(bits, a, b) {
        return 0;
    }
    survey_reading_lines::insert_link(bits, a, b);
    1
}

// Reads m edge lines from a place on into the empty matrix, and the end of the file behind them; answers how many links it has.
// kept: a loop of its own beside `read_links`. What a line adds and what may come behind the last one differ; a loop over both is longer
pub fn read_edges(
    text: &[u8],
    at: usize,
    n: usize,
    m: usize,
    bits: &mut Matrix,
) -> Result<usize, Refusal>
    requires { (n ≤ 1024) × (bits.old ≡ replicate 16384 0) }
    ensures { Told (map_answer (once_after []) (read_edges n m (uncommented (drop at text.now)))) result bits.new }
{
    let mut next = at;
    let mut kept = 0;
    for _ in 0..m {
        let edge = edge_at(text, next, n)?;
        kept += keep_link(bits, edge.a, edge.b);
        next = edge.end;
    }
    let end = pass_comments(text, next);
    if end < text.len() {
        return Err(Refusal::FileForm);
    }
    Ok(kept)
}
