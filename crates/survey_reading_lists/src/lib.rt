// The two lists of a survey, from the matrix of its links.
#![tactic(auto)]

ghost use Rattle.std.specs.Prelude.{◌≡◌, ◌+◌, ◌<◌, ◌≤◌, length};
ghost use Rattle.base_lists.specs.Written.{Wrote};
ghost use Rattle.model.specs.Basics.{over};
ghost use Rattle.model.specs.Reading.{starts_of, neighbours_from};
ghost use Rattle.base_nodeset.specs.NodeSet.{members_from};
ghost use Rattle.survey_reading_lists.specs.MatrixRows.{rows_in};

use base_nodeset::Matrix;

// Writes the set bits of a word, ascending, at a place of the list, where its lowest bit stands for `base`.
fn write_word(word: u64, base: usize, neighbours: &mut [u16], at: usize) -> usize
    requires { (base ≤ 960) × (at + length (members_from 64 base word) ≤ length neighbours.old) }
    ensures { Wrote neighbours.old neighbours.new at result (members_from 64 base word) }
{
    let mut left = word;
    let mut pos = at;
    while left != 0 {
        let t = left.trailing_zeros();
        neighbours[pos] = (base + t as usize) as u16;
        pos += 1;
        left -= 1 << t;
    }
    pos
}

// Writes the neighbours of a node, ascending, at a place of the list, and returns the place after them.
fn write_row(bits: &Matrix, v: usize, neighbours: &mut [u16], at: usize) -> usize
    requires { (v < 1024) × (at + length (rows_in bits.now v) ≤ length neighbours.old) }
    ensures { Wrote neighbours.old neighbours.new at result (rows_in bits.now v) }
{
    let mut pos = at;
    for w in 0..16 {
        pos = write_word(bits[v * 16 + w], 64 * w, neighbours, pos);
    }
    pos
}

// Writes the two lists of n nodes with the matrix's links.
pub fn write_lists(bits: &Matrix, n: usize, starts: &mut [u32], neighbours: &mut [u16])
    requires n_bound { (n ≤ 1024) × (n + 1 ≤ length starts.old) }
    requires bits_in_bounds { (length (neighbours_from n (rows_in bits.now)) ≤ length neighbours.old)
        × (length (neighbours_from n (rows_in bits.now)) ≤ 32768) }
    ensures starts_after { starts.new ≡ over (starts_of n (rows_in bits.now)) starts.old }
    ensures neighbours_after { neighbours.new ≡ over (neighbours_from n (rows_in bits.now)) neighbours.old }
{
    let mut pos = 0;
    for v in 0..n {
        starts[v] = pos as u32;
        pos = write_row(bits, v, neighbours, pos);
    }
    starts[n] = pos as u32;
}
