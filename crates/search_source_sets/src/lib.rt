// Sets of sources, one for each node, as rows of 16 lanes of 16 bits: source j is bit j / 16 of lane j % 16. So the sources of one bit
// stand next to each other in a table's row, and the compiler writes their 16 entries together.
#![tactic(auto)]

ghost use Rattle.std.specs.Prelude.{◌≡◌, ◌&&◌, ◌||◌, ℕ, ◌/◌, ◌<◌, ◌≤◌, T, eqb, length, get_or};
ghost use Rattle.model.specs.Basics.{has, any};
ghost use Rattle.std.specs.Prelude.{if◌then◌else◌};
ghost use Rattle.base_nodeset.specs.NodeSet.{bit};
ghost use Rattle.search_source_sets.specs.SourceSets.{in_row, reached, Covers, RowLeft};

// The sources of one node, and those of all nodes.
pub type Row = [u16; 16];

pub type Rows = [Row; 1024];

// Puts source j into a row.
pub fn insert_source(row: &mut Row, j: usize)
    requires { j < 256 }
    ensures { (k : ℕ) → in_row row.new k ≡ (eqb k j || in_row row.old k) }
{
    row[j % 16] |= 1 << (j / 16);
}

// Puts the sources of another row into a row.
pub fn join_row(row: &Row, sum: &mut Row)
    ensures { (j : ℕ) → in_row sum.new j ≡ (in_row row.now j || in_row sum.old j) }
{
    for i in 0..16 {
        sum[i] |= row[i];
    }
}

// Puts the sources that have reached a node of a list into a row.
pub fn join_rows(list: &[u16], rows: &Rows, sum: &mut Row)
    requires { (x : ℕ) → T (has x list.now) → x < 1024 }
    ensures { (j : ℕ) → in_row sum.new j
        ≡ (any (λ x. reached rows.now x j) list.now || in_row sum.old j) }
{
    for x in list {
        join_row(&rows[*x as usize], sum);
    }
}

// A row becomes another one.
pub fn put_row(row: &Row, to: &mut Row)
    ensures { to.new ≡ row.now }
{
    // kept: a loop and not `*to = *row`, for which the compiler keeps a row in memory that is else in registers
    for i in 0..16 {
        to[i] = row[i];
    }
}

// Takes the sources of another row out of a row: those that are new stay. Returns the bits that some lane has then.
pub fn remove_row(row: &Row, sum: &mut Row) -> u16
    ensures { RowLeft row.now sum.old sum.new result }
{
    let mut found = 0;
    for i in 0..16 {
        let new = sum[i] & !row[i];
        sum[i] = new;
        found |= new;
    }
    found
}

// Gives the sources of one bit that are new the distance d, in their part of a row. A mask of 16 ones or none selects without a branch.
fn mark_block(new: &Row, b: usize, d: u16, part: &mut [u16])
    requires { (b < 16) × (length part.old ≤ 16) }
    ensures { (i : ℕ) → i < length part.old → get_or part.new i 0
        ≡ (if bit (get_or new.now i 0) b then d else get_or part.old i 0) }
{
    for (i, entry) in part.iter_mut().enumerate() {
        let mask = (new[i] >> b) % 2 * u16::MAX;
        *entry = (*entry & !mask) | (d & mask);
    }
}

// The same in the whole row, of which the part has 16 entries, or fewer at the row's end.
fn mark_bit(new: &Row, b: usize, d: u16, row: &mut [u16])
    requires { b < 16 }
    ensures { (j : ℕ) → j < length row.old → get_or row.new j 0
        ≡ (if eqb (j / 16) b && in_row new.now j then d else get_or row.old j 0) }
{
    let start = 16 * b;
    let end = start + 16;
    if end <= row.len() {
        mark_block(new, b, d, &mut row[start..end]);
        return;
    }
    if start < row.len() {
        mark_block(new, b, d, &mut row[start..]);
    }
}

// Gives the sources that are new the distance d, in a row, bit by bit of those that some lane has.
pub fn mark_row(new: &Row, found: u16, d: u16, row: &mut [u16])
    requires covers { Covers new.now found }
    requires row_len_bound { length row.old ≤ 256 }
    ensures { (j : ℕ) → j < length row.old → get_or row.new j 0
        ≡ (if in_row new.now j then d else get_or row.old j 0) }
{
    let mut left = found;
    while left != 0 {
        mark_bit(new, left.trailing_zeros() as usize, d, row);
        left &= left - 1;
    }
}
