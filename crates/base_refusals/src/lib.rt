// Refusals: the number of each, and the tests that several calls share.
#![tactic(auto)]

ghost use Rattle.std.specs.Prelude.{◌≡◌, ◌≤◌};
ghost use Rattle.model.specs.Answers.{number};
ghost use Rattle.model.specs.Survey.{bad_size, short_starts};
ghost use Rattle.model.specs.Threshold.{bad_threshold};
ghost use Rattle.model.specs.Tables.{short_tables};
ghost use Rattle.model.specs.Pair.{bad_pair};

use model::Refusal;

// kept: no From, which would stand in `model`, and that has no functions
pub fn refusal_number(r: Refusal) -> u32
    ensures { result ≡ number r }
{
    r as u32
}

// Refusal 2: the count of nodes is outside 1 to 1,024.
#[tactic(auto, unfolding(model::specs::Survey::bad_size))]
pub fn bad_size(n: usize) -> bool
    ensures { result ≡ bad_size n }
{
    !(1..=1024).contains(&n)
}

// Refusal 14: the threshold that a caller gives is above 1,024.
#[tactic(auto, unfolding(model::specs::Threshold::bad_threshold))]
pub fn bad_threshold(t: usize) -> bool
    ensures { result ≡ bad_threshold t }
{
    1024 < t
}

// Refusal 8 for `starts`, of this length.
pub fn short_starts(n: usize, starts: usize) -> bool
    requires { n ≤ 1024 }
    ensures { result ≡ short_starts n starts }
{
    starts < n + 1
}

// Refusal 8 for the three tables, of these lengths.
pub fn short_tables(n: usize, full: usize, low: usize, report: usize) -> bool
    requires { n ≤ 1024 }
    ensures { result ≡ short_tables n full low report }
{
    let entries = n * n;
    full < entries || low < entries || report < entries
}

// Refusal 10: one of two nodes is n or more.
pub fn bad_pair(n: usize, a: usize, b: usize) -> bool
    ensures { result ≡ bad_pair n a b }
{
    n <= a || n <= b
}
