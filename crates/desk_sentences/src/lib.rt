// What is said at the desk: the lines of an answer, written into a buffer.
#![tactic(auto)]

ghost use Rattle.std.specs.Prelude.{◌≡◌, ◌+◌, ◌*◌, ◌≤◌, length};
ghost use Rattle.model.specs.Demand.{least_needed};
ghost use Rattle.text_writing.specs.Writes.{Writes};
ghost use Rattle.desk_sentences.specs.Sentences.{sentence, counted, nodes_end, report_line, needed_line, pair_lines, walk_line};
ghost use Rattle.desk_sentences.specs.Sentences.{verdict_word, verdict_says, verdict_lines, hubs_line, high_line};
ghost use Rattle.desk_sentences.specs.Sentences.{accepted_line};

use model::{Answer, NONE, Route, TestResult, Verdict};
use text_writing::Writer;

// Writes a sentence by its form.
pub fn write_sentence(writer: &mut Writer<'_>, form: &[u8], numbers: &[u64])
    requires { writer.old.at + length form.now + 20 * length numbers.now ≤ length writer.old.buf.now }
    ensures wrote { Writes writer.old writer.new (sentence form.now numbers.now) }
    ensures upper_bound { writer.new.at ≤ writer.old.at + length form.now + 20 * length numbers.now }
{
    let mut left = numbers;
    for &c in form {
        match left {
            [x, rest @ ..] if c == b'#' => {
                writer.digits(*x);
                left = rest;
            }
            _ => writer.byte(c),
        }
    }
}

// Writes a count of one, or by the form for others.
#[tactic(auto, unfolding(crate::specs::Sentences::counted))]
fn write_counted(writer: &mut Writer<'_>, count: u64, one: &[u8], others: &[u8])
    requires { (length one.now ≤ 20) × (length others.now ≤ 20) × (writer.old.at + 40 ≤ length writer.old.buf.now) }
    ensures wrote { Writes writer.old writer.new (counted count one.now others.now) }
    ensures upper_bound { writer.new.at ≤ writer.old.at + 40 }
{
    if count == 1 {
        return writer.text(one);
    }
    write_sentence(writer, others, &[count]);
}

// Writes nodes, a space in front of each, and the line feed.
fn write_nodes(writer: &mut Writer<'_>, nodes: &[u16])
    requires { writer.old.at + 6 * length nodes.now + 1 ≤ length writer.old.buf.now }
    ensures wrote { Writes writer.old writer.new (nodes_end nodes.now) }
    ensures upper_bound { writer.new.at ≤ writer.old.at + 6 * length nodes.now + 1 }
{
    for &node in nodes {
        writer.field(b' ', u32::from(node));
    }
    writer.byte(b'\n');
}

// Writes the report of a pair and how it is attained.
#[tactic(auto, unfolding(crate::specs::Sentences::report_line, model::specs::Basics::bytes))]
fn write_report(writer: &mut Writer<'_>, a: u64, b: u64, r: u64, route: Route)
    requires { writer.old.at + 150 ≤ length writer.old.buf.now }
    ensures wrote { Writes writer.old writer.new (report_line a b r route) }
    ensures upper_bound { writer.new.at ≤ writer.old.at + 150 }
{
    match route {
        Route::Itself => write_sentence(writer, b"nodes # and # report # by itself\n", &[a, b, r]),
        Route::Low => write_sentence(writer, b"nodes # and # report # by low nodes\n", &[a, b, r]),
        Route::Through(h) => write_sentence(
            writer,
            b"nodes # and # report # by hub #\n",
            &[a, b, r, h as u64],
        ),
        Route::NoRoute => write_sentence(writer, b"nodes # and # report no route\n", &[a, b]),
        Route::Link => write_sentence(writer, b"nodes # and # report # by link\n", &[a, b, r]),
    }
}

// The least that a report leaves open.
#[tactic(auto, unfolding(model::specs::Demand::least_needed))]
fn least_needed(report: u64) -> u64
    ensures { result ≡ least_needed report }
{
    match report {
        0..=2 => report,
        3..=4 => 2,
        _ => report - 2,
    }
}

// Writes what a report says.
#[tactic(auto, unfolding(crate::specs::Sentences::needed_line, model::specs::Basics::bytes))]
fn write_needed(writer: &mut Writer<'_>, report: u16)
    requires { writer.old.at + 100 ≤ length writer.old.buf.now }
    ensures wrote { Writes writer.old writer.new (needed_line report) }
    ensures upper_bound { writer.new.at ≤ writer.old.at + 100 }
{
    if report == NONE {
        return writer.text(b"no chain of links joins them\n");
    }
    if report == 1 {
        return writer.text(b"exactly 1 link is needed\n");
    }
    let r = report as u64;
    if report <= 2 {
        return write_sentence(writer, b"exactly # links are needed\n", &[r]);
    }
    let least = least_needed(r);
    write_sentence(
        writer,
        b"at least # and at most # links are needed\n",
        &[least, r],
    );
}

// Writes the answer to a pair.
pub fn write_pair(writer: &mut Writer<'_>, a: u64, b: u64, answer: Answer)
    requires { writer.old.at + 250 ≤ length writer.old.buf.now }
    ensures wrote { Writes writer.old writer.new (pair_lines a b answer) }
    ensures upper_bound { writer.new.at ≤ writer.old.at + 250 }
{
    let route = answer.route;
    write_report(writer, a, b, answer.report as u64, route);
    write_needed(writer, answer.report);
}

// Writes the nodes of a walk.
pub fn write_walk(writer: &mut Writer<'_>, nodes: &[u16])
    requires { writer.old.at + 6 * length nodes.now + 5 ≤ length writer.old.buf.now }
    ensures wrote { Writes writer.old writer.new (walk_line nodes.now) }
    ensures upper_bound { writer.new.at ≤ writer.old.at + 6 * length nodes.now + 5 }
{
    writer.text(b"walk");
    write_nodes(writer, nodes);
}

// Writes a verdict's word.
#[tactic(auto, unfolding(crate::specs::Sentences::verdict_word, model::specs::Basics::bytes))]
fn write_word(writer: &mut Writer<'_>, verdict: Verdict)
    requires { writer.old.at + 6 ≤ length writer.old.buf.now }
    ensures wrote { Writes writer.old writer.new (verdict_word verdict) }
    ensures upper_bound { writer.new.at ≤ writer.old.at + 6 }
{
    match verdict {
        Verdict::Parted => writer.text(b"parted"),
        Verdict::Long => writer.text(b"long"),
        Verdict::Short => writer.text(b"short"),
    }
}

// Writes what a verdict says.
#[tactic(auto, unfolding(crate::specs::Sentences::verdict_says, model::specs::Basics::bytes))]
fn write_says(writer: &mut Writer<'_>, verdict: Verdict)
    requires { writer.old.at + 70 ≤ length writer.old.buf.now }
    ensures wrote { Writes writer.old writer.new (verdict_says verdict) }
    ensures upper_bound { writer.new.at ≤ writer.old.at + 70 }
{
    match verdict {
        Verdict::Parted => writer.text(b"some two nodes are joined by no chain of links\n"),
        Verdict::Long => writer.text(
            b"every two nodes are joined, and some two are 3 or more links apart\n",
        ),
        Verdict::Short => writer.text(b"every two nodes are at most 3 links apart\n"),
    }
}

// Writes what the test found.
pub fn write_verdict(writer: &mut Writer<'_>, res: TestResult)
    requires { writer.old.at + 116 ≤ length writer.old.buf.now }
    ensures wrote { Writes writer.old writer.new (verdict_lines res) }
    ensures upper_bound { writer.new.at ≤ writer.old.at + 116 }
{
    let verdict = res.verdict;
    write_word(writer, verdict);
    let count = res.searches as u64;
    write_counted(writer, count, b" after 1 search\n", b" after # searches\n");
    write_says(writer, verdict);
}

// Writes the hubs, in the order chosen.
pub fn write_hubs(writer: &mut Writer<'_>, hubs: &[u16])
    requires { writer.old.at + 6 * length hubs.now + 41 ≤ length writer.old.buf.now }
    ensures wrote { Writes writer.old writer.new (hubs_line hubs.now) }
    ensures upper_bound { writer.new.at ≤ writer.old.at + 6 * length hubs.now + 41 }
{
    if hubs.is_empty() {
        return writer.text(b"0 hubs\n");
    }
    write_counted(writer, hubs.len() as u64, b"1 hub:", b"# hubs:");
    write_nodes(writer, hubs);
}

// Writes how many of n nodes are high by threshold s.
#[tactic(auto, unfolding(crate::specs::Sentences::high_line, model::specs::Basics::bytes))]
pub fn write_high(writer: &mut Writer<'_>, high: u64, n: u64, s: u64)
    requires { writer.old.at + 110 ≤ length writer.old.buf.now }
    ensures wrote { Writes writer.old writer.new (high_line high n s) }
    ensures upper_bound { writer.new.at ≤ writer.old.at + 110 }
{
    write_sentence(
        writer,
        b"high nodes # of # with # or more neighbours\n",
        &[high, n, s],
    );
}

// Writes the counts of a survey that is accepted.
#[tactic(auto, unfolding(crate::specs::Sentences::accepted_line, model::specs::Basics::bytes))]
pub fn write_accepted(writer: &mut Writer<'_>, n: u64, m: u64)
    requires { writer.old.at + 70 ≤ length writer.old.buf.now }
    ensures wrote { Writes writer.old writer.new (accepted_line n m) }
    ensures upper_bound { writer.new.at ≤ writer.old.at + 70 }
{
    write_sentence(writer, b"accepted nodes # links #\n", &[n, m]);
}
