// Asking a pair: the report with its route, read off the three tables.
#![tactic(auto)]

ghost use Rattle.std.specs.Prelude.{◌≡◌, ◌&&◌, ◌*◌, ◌≤◌, ◌<◌, IfSome, eqb, is_none, length};
ghost use Rattle.model.specs.Answers.{outcome};
ghost use Rattle.model.specs.Tables.{entry_at, via, short_tables};
ghost use Rattle.model.specs.Pair.{taken, attaining, pair};
ghost use Rattle.model.specs.Asking.{asking};
ghost use Rattle.model.specs.Demand.{AskRight};
ghost use Rattle.answer_pair.specs.Node.{node};

use model::{Answer, NONE, Refusal, Route};

// The three tables of n nodes.
#[derive(Clone, Copy)]
pub struct Tables<'a> {
    pub n: usize,
    pub full: &'a [u16],
    pub low: &'a [u16],
    pub report: &'a [u16],
    pub ghost few: { n ≤ 1024 },
    pub ghost in_full: { n * n ≤ length full.now },
    pub ghost in_low: { n * n ≤ length low.now },
    pub ghost in_report: { n * n ≤ length report.now },
}

// Entry (row, column) of a table of n nodes.
#[tactic(auto, unfolding(model::specs::Tables::entry_at))]
pub fn entry_at(n: usize, table: &[u16], row: usize, column: usize) -> u16
    requires { (n ≤ 1024) × (n * n ≤ length table.now) × (row < n) × (column < n) }
    ensures { result ≡ entry_at n table.now row column }
{
    table[row * n + column]
}

impl<'a> Tables<'a> {
    ghost use Rattle.answer_pair.specs.Tables.{AreOf};

    // The tables, unless one of the lists is too short for them.
    pub fn new(n: usize, full: &'a [u16], low: &'a [u16], report: &'a [u16]) -> Option<Tables<'a>>
        requires { n ≤ 1024 }
        ensures short { is_none result ≡ short_tables n (length full.now) (length low.now) (length report.now) }
        ensures given { IfSome result (λ t. AreOf t n full.now low.now report.now) }
    {
        if base_refusals::short_tables(n, full.len(), low.len(), report.len()) {
            return None;
        }
        Some(Tables {
            n,
            full,
            low,
            report,
        })
    }

    // Whether node h counts as a hub and attains the report r. The sum of two entries needs more than 16 bits.
    #[tactic(auto, using(std::proofs::lemmas::Bool::Decides::nat_tests), unfolding(model::specs::Pair::taken, model::specs::Tables::via, model::specs::Tables::sum))]
    fn hub_attains(&self, a: usize, b: usize, r: u16, h: usize) -> bool
        requires { (a < self.now.n) × (b < self.now.n) × (h < self.now.n) }
        ensures { result ≡ (taken self.now.n self.now.full.now a b h && eqb (via self.now.n self.now.full.now a b h) r) }
    {
        let x = entry_at(self.n, self.full, h, a);
        if x == NONE {
            return false;
        }
        let y = entry_at(self.n, self.full, h, b);
        y != NONE && x as u32 + y as u32 == r as u32
    }

    // The smallest hub that attains the report r: every node whose two entries of Full are not none is taken as a hub.
    fn attaining_hub(&self, a: usize, b: usize, r: u16) -> Option<u16>
        requires { (a < self.now.n) × (b < self.now.n) }
        ensures { result ≡ node (attaining (taken self.now.n self.now.full.now a b) self.now.n self.now.full.now a b r) }
    {
        (0..self.n as u16).find(|&h| self.hub_attains(a, b, r, h as usize))
    }
}

// The answer that the tables give for nodes below n.
#[tactic(auto, using(std::proofs::lemmas::Bool::Decides::nat_tests), unfolding(model::specs::Pair::pair, model::specs::Pair::pair_by, model::specs::Pair::choose))]
pub fn pair_answer(tables: &Tables<'_>, a: usize, b: usize) -> Result<Answer, Refusal>
    requires { (a < tables.now.n) × (b < tables.now.n) }
    ensures { outcome result ≡ pair tables.now.n tables.now.full.now tables.now.low.now tables.now.report.now a b }
{
    let n = tables.n;
    let report = entry_at(n, tables.report, a, b);
    // the order of these tests is the order of preference: link, low, the smallest hub
    let route = if a == b {
        if report != 0 {
            return Err(Refusal::NotAttained);
        }
        Route::Itself
    } else if report == NONE {
        Route::NoRoute
    } else if report == 1 {
        Route::Link
    } else if entry_at(n, tables.low, a, b) == report {
        Route::Low
    } else {
        let hub = tables
            .attaining_hub(a, b, report)
            .ok_or(Refusal::NotAttained)?;
        Route::Through(hub)
    };
    Ok(Answer { report, route })
}

// Asking a pair: the report with its route. With the tables built from a survey with any threshold it is not refused, and the report is
// allowed, and 1 by link exactly for linked nodes.
#[tactic(auto, using(std::proofs::lemmas::Bool::Decides::nat_tests), unfolding(model::specs::Asking::asking))]
pub fn ask(
    n: usize,
    full: &[u16],
    low: &[u16],
    report: &[u16],
    a: usize,
    b: usize,
) -> Result<Answer, Refusal>
    ensures result_value { outcome result ≡ asking n full.now low.now report.now a b }
    ensures ask_right { AskRight n full.now low.now report.now a b (outcome result) }
{
    if base_refusals::bad_size(n) {
        return Err(Refusal::NodeCount);
    }
    let tables = Tables::new(n, full, low, report).ok_or(Refusal::ShortList)?;
    if base_refusals::bad_pair(n, a, b) {
        return Err(Refusal::NoNode);
    }
    pair_answer(&tables, a, b)
}
