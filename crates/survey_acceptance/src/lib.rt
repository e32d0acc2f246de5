// Acceptance of a survey's two lists, in one linear pass.
#![tactic(auto)]

ghost use Rattle.std.specs.Prelude.{true, ◌&&◌, ◌≡◌, ℕ, ◌+◌, ◌/◌, ◌%◌, ◌<◌, ◌≤◌, eqb, leb, length, get_or};
ghost use Rattle.model.specs.Basics.{all, up_to};
ghost use Rattle.model.specs.Answers.{outcome};
ghost use Rattle.model.specs.Survey.{is_survey, accepting};
ghost use Rattle.survey_neighbours.specs.Rows.{Rows};
ghost use Rattle.survey_acceptance.specs.Matching.{row_fits, Moved};
ghost use Rattle.survey_acceptance.specs.Surveyed.{Surveyed};

use model::Refusal;
use survey_neighbours::Survey;

// Checks v's larger neighbours, which are `row`: they must ascend from v on and lie below n, and v must stand at the cursor of each, which
// then moves on by one. The bits in which an entry differs from v are collected, not branched on, for speed.
fn match_row(
    n: usize,
    last: usize,
    v: usize,
    row: &[u16],
    neighbours: &[u16],
    cursors: &mut [u32],
) -> bool
    requires { (n ≤ length cursors.old) × (last ≤ 32768) × (last ≤ length neighbours.now) }
    ensures value { result ≡ row_fits neighbours.now last n v row.now cursors.old }
    ensures moved { result ≡ true → Moved row.now cursors.old cursors.new }
{
    let mut before = v;
    let mut wrong = 0;
    for x in row {
        let x = usize::from(*x);
        if x <= before || n <= x {
            return false;
        }
        let at = cursors[x] as usize;
        if last <= at {
            return false;
        }
        wrong |= usize::from(neighbours[at]) ^ v;
        cursors[x] += 1;
        before = x;
    }
    wrong == 0
}

// Whether all rows can be matched. Each node's cursor is at the start of its row at first; once the rows below v are matched, v's cursor
// has passed v's smaller neighbours.
fn match_rows(n: usize, starts: &[u32], neighbours: &[u16], cursors: &mut [u32]) -> bool
    requires rows { Rows n starts.now neighbours.now × (get_or starts.now n 0 % 2 ≡ 0) × (get_or starts.now n 0 / 2 ≤ 16384) }
    requires n_in_bounds { (n ≤ length cursors.old) × ((x : ℕ) → x < n → get_or cursors.old x 0 ≡ get_or starts.now x 0) }
    ensures { result ≡ is_survey n starts.now neighbours.now }
{
    let last = starts[n] as usize;
    for v in 0..n {
        let at = cursors[v] as usize;
        let end = starts[v + 1] as usize;
        if end < at || !match_row(n, last, v, &neighbours[at..end], neighbours, cursors) {
            return false;
        }
    }
    true
}

// Whether rows that can be read ascend strictly, hold nodes below n other than their own, and b is in row a exactly when a is in row b.
// One pass over the rows is enough: the nodes that have x in their rows are passed in ascending order, as they must stand in row x, so that
// one cursor for x finds them there.
fn matched(n: usize, starts: &[u32], neighbours: &[u16]) -> bool
    requires { Rows n starts.now neighbours.now × (get_or starts.now n 0 % 2 ≡ 0) × (get_or starts.now n 0 / 2 ≤ 16384) }
    ensures { result ≡ is_survey n starts.now neighbours.now }
{
    let mut cursors = [0; 1024];
    cursors[..n].copy_from_slice(&starts[..n]);
    match_rows(n, starts, neighbours, &mut cursors)
}

// Whether the starts begin at 0 and never fall up to the n-th.
fn starts_rise(n: usize, starts: &[u32]) -> bool
    requires { (n + 1 ≤ length starts.now) × (n ≤ 1024) }
    ensures { result ≡ (eqb (get_or starts.now 0 0) 0
        && all (λ v. leb (get_or starts.now v 0) (get_or starts.now (v + 1) 0)) (up_to n)) }
{
    // no early end, so that the compiler vectorizes it; with `is_sorted` acceptance of 1,024 nodes without links took 1.8 us, and not 0.8
    let mut good = starts[0] == 0;
    for v in 0..n {
        good &= starts[v] <= starts[v + 1];
    }
    good
}

// Whether the lists are a survey's, for n from 1 to 1,024 and `starts` long enough. Linear in nodes and links.
pub fn is_survey(n: usize, starts: &[u32], neighbours: &[u16]) -> bool
    requires { (1 ≤ n) × (n ≤ 1024) × (n + 1 ≤ length starts.now) }
    ensures { result ≡ is_survey n starts.now neighbours.now }
{
    if !starts_rise(n, starts) {
        return false;
    }
    let last = starts[n] as usize;
    if last % 2 != 0 || 16384 < last / 2 || neighbours.len() < last {
        return false;
    }
    matched(n, starts, neighbours)
}

// The survey that the lists are, if they are one's.
pub fn survey<'a>(n: usize, starts: &'a [u32], neighbours: &'a [u16]) -> Option<Survey<'a>>
    requires { (1 ≤ n) × (n ≤ 1024) × (n + 1 ≤ length starts.now) }
    ensures { Surveyed n starts.now neighbours.now result }
{
    if !is_survey(n, starts, neighbours) {
        return None;
    }
    Some(Survey {
        n,
        starts,
        neighbours,
    })
}

// Acceptance of a survey: refused 2, 8 for `starts`, or 9.
#[tactic(auto, unfolding(model::specs::Survey::bad_size, model::specs::Survey::accepting))]
pub fn accept(n: usize, starts: &[u32], neighbours: &[u16]) -> Result<(), Refusal>
    ensures { outcome result ≡ accepting n starts.now neighbours.now }
{
    if base_refusals::bad_size(n) {
        return Err(Refusal::NodeCount);
    }
    if base_refusals::short_starts(n, starts.len()) {
        return Err(Refusal::ShortList);
    }
    if !is_survey(n, starts, neighbours) {
        return Err(Refusal::NotSurvey);
    }
    Ok(())
}
