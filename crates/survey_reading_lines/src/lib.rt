// The lines of a survey text: its first line, and its link lines, read into a bit matrix in which a repeated link is found in constant time.
#![tactic(auto)]

ghost use Rattle.std.specs.Prelude.{◌≡◌, List, [], ◌∷◌, ℕ, ◌≤◌, ◌<◌, length, replicate, drop};
ghost use Rattle.model.specs.SurveyText.{line};
ghost use Rattle.model.specs.Reading.{read_links, limits_of, counts_of};
ghost use Rattle.base_nodeset.specs.Matrix.{edges_in};
ghost use Rattle.survey_reading_lines.specs.LinesRead.{Holds, link_in, line_answer, Told};

use base_nodeset::Matrix;
use model::Refusal;
use text_reading::Pair;

// The most nodes and links that a text may have, and the lengths of the lists that it is read into.
#[derive(Clone, Copy)]
pub struct Limits {
    pub nodes: usize,
    pub links: usize,
    pub starts: usize,
    pub neighbours: usize,
    pub ghost few_nodes: { nodes ≤ 1024 },
    pub ghost few_links: { links ≤ 16384 },
}

// Whether the matrix has a link.
pub fn has_link(bits: &Matrix, a: usize, b: usize) -> bool
    requires { (a < 1024) × (b < 1024) }
    ensures { result ≡ edges_in bits.now a b }
{
    base_nodeset::contains(bits, 1024 * a + b)
}

// Puts a link into the matrix, both ways round.
pub fn insert_link(bits: &mut Matrix, a: usize, b: usize)
    requires { (a < 1024) × (b < 1024) }
    ensures { (links : List (ℕ × ℕ)) → Holds bits.old links → Holds bits.new ((a, b) ∷ links) }
{
    base_nodeset::insert(bits, 1024 * a + b);
    base_nodeset::insert(bits, 1024 * b + a);
}

// The link line at a place, where the matrix has the links given before.
pub fn link_at(text: &[u8], at: usize, n: usize, bits: &Matrix) -> Result<Pair<usize>, Refusal>
    requires { n ≤ 1024 }
    ensures { line_answer text.now result ≡ link_in n (edges_in bits.now) (drop at text.now) }
{
    if text.len() <= at {
        return Err(Refusal::LineCount);
    }
    let Pair { a, b, end } = text_reading::pair_at(text, at, b"L", b',').ok_or(Refusal::Form)?;
    if n as u64 <= a || n as u64 <= b {
        return Err(Refusal::LineNode);
    }
    if a == b {
        return Err(Refusal::EqualEnds);
    }
    let (a, b) = (a as usize, b as usize);
    if has_link(bits, a, b) {
        return Err(Refusal::RepeatedLink);
    }
    Ok(Pair { a, b, end })
}

// Reads m link lines from a place on into the empty matrix, and the end of the text behind them; answers how many links it has.
pub fn read_links(
    text: &[u8],
    at: usize,
    n: usize,
    m: usize,
    bits: &mut Matrix,
) -> Result<usize, Refusal>
    requires { (n ≤ 1024) × (bits.old ≡ replicate 16384 0) }
    ensures { Told (read_links n m [] (drop at text.now)) result bits.new }
{
    let mut next = at;
    for _ in 0..m {
        let link = link_at(text, next, n, bits)?;
        insert_link(bits, link.a, link.b);
        next = link.end;
    }
    if next < text.len() {
        return Err(Refusal::LineCount);
    }
    Ok(m)
}

// The counts that a first line says, if they are within the limits.
pub fn within_limits(line: Pair<u64>, limits: Limits) -> Result<Pair<usize>, Refusal>
    ensures { (text : List ℕ) → line_answer text result
        ≡ limits_of limits.nodes limits.links limits.starts limits.neighbours (line.a, line.b, drop line.end text) }
{
    if line.a < 1 || (limits.nodes as u64) < line.a {
        return Err(Refusal::NodeCount);
    }
    if (limits.links as u64) < line.b {
        return Err(Refusal::LinkCount);
    }
    let (n, m) = (line.a as usize, line.b as usize);
    if base_refusals::short_starts(n, limits.starts) || limits.neighbours < 2 * m {
        return Err(Refusal::ShortList);
    }
    Ok(Pair {
        a: n,
        b: m,
        end: line.end,
    })
}

// The first line, within limits: the counts of nodes and links, and the place after it.
pub fn first_line(text: &[u8], limits: Limits) -> Result<Pair<usize>, Refusal>
    ensures { line_answer text.now result
        ≡ counts_of limits.nodes limits.links limits.starts limits.neighbours (line 83 text.now) }
{
    let line = text_reading::pair_at(text, 0, b"S", b',').ok_or(Refusal::Form)?;
    within_limits(line, limits)
}
