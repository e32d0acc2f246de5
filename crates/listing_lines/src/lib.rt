// The lines of a listing: the report and the route of each pair, from the three tables.
#![tactic(auto)]

ghost use Rattle.std.specs.Prelude.{◌∷◌, ◌+◌, ◌<◌};
ghost use Rattle.model.specs.Answers.{answered};
ghost use Rattle.model.specs.Listing.{report_text, route_text, pair_line, pair_lines};
ghost use Rattle.text_writing.specs.Writes.{HasRoom, Writes};
ghost use Rattle.listing_lines.specs.RowText.{answer_text, row_text};

use answer_pair::Tables;
use model::{Answer, NONE, Route};
use text_writing::Writer;

// Writes a comma and a report.
#[tactic(auto, unfolding(model::specs::Listing::report_text))]
fn write_report(report: u16, writer: &mut Writer<'_>)
    requires { HasRoom writer.old (44 ∷ report_text report) }
    ensures { Writes writer.old writer.new (44 ∷ report_text report) }
{
    if report == NONE {
        return writer.text(b",-");
    }
    writer.field(b',', report as u32);
}

// Writes a comma and a route.
#[tactic(auto, unfolding(model::specs::Listing::route_text))]
fn write_route(route: Route, writer: &mut Writer<'_>)
    requires { HasRoom writer.old (44 ∷ route_text route) }
    ensures { Writes writer.old writer.new (44 ∷ route_text route) }
{
    match route {
        Route::Itself => writer.text(b","),
        Route::Low => writer.text(b",low"),
        Route::Through(h) => writer.field(b',', h as u32),
        Route::NoRoute => writer.text(b",-"),
        Route::Link => writer.text(b",link"),
    }
}

// Writes the line of a pair.
fn write_pair(a: u32, b: u32, answer: Answer, writer: &mut Writer<'_>)
    requires { HasRoom writer.old (pair_line (a, b) (answered answer)) }
    ensures { Writes writer.old writer.new (pair_line (a, b) (answered answer)) }
{
    writer.byte(b'P');
    writer.field(b',', a);
    writer.field(b',', b);
    write_report(answer.report, writer);
    write_route(answer.route, writer);
    writer.byte(b'\n');
}

// Writes the line that the tables give for a pair.
#[tactic(auto, using(text_writing::proofs::Writing::writes_none), unfolding(model::specs::Listing::pair_line))]
fn write_answer(tables: &Tables<'_>, a: usize, b: usize, writer: &mut Writer<'_>)
    requires nodes { (a < tables.now.n) × (b < tables.now.n) }
    requires room { HasRoom writer.old (answer_text tables.now.n tables.now.full.now tables.now.low.now tables.now.report.now a b) }
    ensures { Writes writer.old writer.new
        (answer_text tables.now.n tables.now.full.now tables.now.low.now tables.now.report.now a b) }
{
    if let Ok(answer) = answer_pair::pair_answer(tables, a, b) {
        write_pair(a as u32, b as u32, answer, writer);
    }
}

// Writes the lines of node a with each larger node.
fn write_row(tables: &Tables<'_>, a: usize, writer: &mut Writer<'_>)
    requires node { a < tables.now.n }
    requires room { HasRoom writer.old
        (row_text tables.now.n tables.now.full.now tables.now.low.now tables.now.report.now a (a + 1)) }
    ensures { Writes writer.old writer.new
        (row_text tables.now.n tables.now.full.now tables.now.low.now tables.now.report.now a (a + 1)) }
{
    for b in a + 1..tables.n {
        write_answer(tables, a, b, writer);
    }
}

// Writes the lines of all pairs.
pub fn write_pairs(tables: &Tables<'_>, writer: &mut Writer<'_>)
    requires { HasRoom writer.old (pair_lines tables.now.n tables.now.full.now tables.now.low.now tables.now.report.now) }
    ensures { Writes writer.old writer.new
        (pair_lines tables.now.n tables.now.full.now tables.now.low.now tables.now.report.now) }
{
    for a in 0..tables.n {
        write_row(tables, a, writer);
    }
}
