// Two nodes of a survey, asked or walked with tables that are built for the question.
#![tactic(auto)]

ghost use Rattle.std.specs.Prelude.{Bool, true, false, ◌≡◌, ◌*◌, ◌≤◌, length};
ghost use Rattle.model.specs.Threshold.{bad_threshold};
ghost use Rattle.base_lists.specs.Written.{Wrote};
ghost use Rattle.desk_tables.specs.Nodes.{asked_by, nodes_asked};

use survey_neighbours::Survey;

const TABLE: usize = 1048576;

// What is said of two nodes: their answer, or their walk too.
pub trait Said {
    ghost walks: { Bool };

    // Says it by the tables, which are split by s, from the first byte on; a walk is given the threshold t.
    fn say(
        survey: &Survey<'_>,
        t: usize,
        s: usize,
        full: &mut [u16],
        low: &mut [u16],
        report: &mut [u16],
        a: usize,
        b: usize,
        out: &mut [u8],
    ) -> usize
        requires room { 200000 ≤ length out.old }
        requires tables { (length full.old ≡ survey.now.n * survey.now.n) × (length low.old ≡ survey.now.n * survey.now.n)
            × (length report.old ≡ survey.now.n * survey.now.n) }
        ensures { Wrote out.old out.new 0 result
            (asked_by walks survey.now.n t s survey.now.starts.now survey.now.neighbours.now a b) };
}

// The answer alone.
pub struct Pair;

#[tactic(auto, unfolding(crate::specs::Nodes::asked_by))]
impl Said for Pair {
    ghost walks = { false };

    fn say(
        survey: &Survey<'_>,
        _t: usize,
        s: usize,
        full: &mut [u16],
        low: &mut [u16],
        report: &mut [u16],
        a: usize,
        b: usize,
        out: &mut [u8],
    ) -> usize {
        desk_answers::say_pair(survey, s, full, low, report, a, b, out)
    }
}

// The answer and the walk.
pub struct Walk;

#[tactic(auto, unfolding(crate::specs::Nodes::asked_by))]
impl Said for Walk {
    ghost walks = { true };

    fn say(
        survey: &Survey<'_>,
        t: usize,
        s: usize,
        full: &mut [u16],
        low: &mut [u16],
        report: &mut [u16],
        a: usize,
        b: usize,
        out: &mut [u8],
    ) -> usize {
        desk_answers::say_walk(survey, t, s, full, low, report, a, b, out)
    }
}

// Says what is asked in tables of any size.
// kept: with the arrays of `say_nodes` in this function, the check looks at each of their entries and does not end.
fn say_in<K: Said>(
    survey: &Survey<'_>,
    t: usize,
    s: usize,
    full: &mut [u16; TABLE],
    low: &mut [u16; TABLE],
    report: &mut [u16; TABLE],
    a: usize,
    b: usize,
    out: &mut [u8],
) -> usize
    requires { 200000 ≤ length out.old }
    ensures { Wrote out.old out.new 0 result
        (asked_by K.walks survey.now.n t s survey.now.starts.now survey.now.neighbours.now a b) }
{
    let size = survey.n * survey.n;
    K::say(
        survey,
        t,
        s,
        &mut full[..size],
        &mut low[..size],
        &mut report[..size],
        a,
        b,
        out,
    )
}

// The same by the threshold in force where t is given, with tables of its own: 6 MiB of the stack. Not put into its caller, which would need
// them for every command.
#[inline(never)]
pub fn say_nodes<K: Said>(
    survey: &Survey<'_>,
    t: usize,
    a: usize,
    b: usize,
    out: &mut [u8],
) -> usize
    requires { (bad_threshold t ≡ false) × (200000 ≤ length out.old) }
    ensures { Wrote out.old out.new 0 result
        (nodes_asked K.walks survey.now.n t survey.now.starts.now survey.now.neighbours.now a b) }
{
    let s = base_threshold::in_force(survey.n, t);
    let mut full = [0u16; TABLE];
    let mut low = [0u16; TABLE];
    let mut report = [0u16; TABLE];
    say_in::<K>(survey, t, s, &mut full, &mut low, &mut report, a, b, out)
}
