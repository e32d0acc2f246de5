// What is said at the desk where something is refused: one line, with the number, the place and the reason.
#![tactic(auto)]

ghost use Rattle.std.specs.Prelude.{◌+◌, ◌≤◌, length};
ghost use Rattle.text_writing.specs.Writes.{Writes};
ghost use Rattle.model.specs.Answers.{number};
ghost use Rattle.desk_refusals.specs.Reasons.{form_said, nodes_most, links_most, range_said, unfit, reason, text_refused, node_refused, threshold_refused};

use desk_sentences::write_sentence;
use model::{Refusal, Size};
use text_writing::Writer;

// What is read: a survey, a survey for its listing, or an edge file.
#[derive(Clone, Copy, PartialEq, Eq)]
pub enum Source {
    Survey,
    Listing,
    File,
}

// Where reading stopped: what was read, the line, the first and the last node that a line may name, and the most nodes and links.
#[derive(Clone, Copy, PartialEq, Eq)]
pub struct Stop {
    pub source: Source,
    pub line: usize,
    pub first: usize,
    pub last: usize,
    pub most: Size,
}

// Writes the form of the lines that may stand at line `line`.
#[tactic(auto, unfolding(crate::specs::Reasons::form_said, model::specs::Basics::bytes))]
fn write_form(writer: &mut Writer<'_>, line: usize)
    requires { writer.old.at + 100 ≤ length writer.old.buf.now }
    ensures wrote { Writes writer.old writer.new (form_said line) }
    ensures upper_bound { writer.new.at ≤ writer.old.at + 100 }
{
    if line == 1 {
        return writer.text(
            b"the first line of a survey is S,n,m and a line feed; no spaces, carriage returns or leading zeros\n",
        );
    }
    writer.text(
        b"a link line is L,a,b and a line feed; no spaces, carriage returns or leading zeros\n",
    );
}

#[tactic(auto, unfolding(crate::specs::Reasons::unfit, model::specs::Basics::bytes))]
fn write_unfit(writer: &mut Writer<'_>)
    requires { writer.old.at + 20 ≤ length writer.old.buf.now }
    ensures wrote { Writes writer.old writer.new unfit }
    ensures upper_bound { writer.new.at ≤ writer.old.at + 20 }
{
    writer.text(b"it does not fit\n");
}

// Writes how many nodes there may be.
#[tactic(auto, unfolding(crate::specs::Reasons::nodes_most, model::specs::Basics::bytes))]
fn write_nodes_most(writer: &mut Writer<'_>, source: Source, most: u64)
    requires { writer.old.at + 80 ≤ length writer.old.buf.now }
    ensures wrote { Writes writer.old writer.new (nodes_most source most) }
    ensures upper_bound { writer.new.at ≤ writer.old.at + 80 }
{
    match source {
        Source::Survey | Source::File => {
            write_sentence(writer, b"a survey has 1 to # nodes\n", &[most])
        }
        Source::Listing => write_sentence(writer, b"reports takes 1 to # nodes\n", &[most]),
    }
}

// Writes how many links there may be.
#[tactic(auto, unfolding(crate::specs::Reasons::links_most, model::specs::Basics::bytes))]
fn write_links_most(writer: &mut Writer<'_>, source: Source, most: u64)
    requires { writer.old.at + 80 ≤ length writer.old.buf.now }
    ensures wrote { Writes writer.old writer.new (links_most source most) }
    ensures upper_bound { writer.new.at ≤ writer.old.at + 80 }
{
    match source {
        Source::Survey => write_sentence(writer, b"a survey has at most # links\n", &[most]),
        Source::Listing => write_sentence(writer, b"reports takes at most # links\n", &[most]),
        Source::File => write_sentence(writer, b"a file has at most # lines e a b\n", &[most]),
    }
}

// Writes which nodes a line may name.
#[tactic(auto, unfolding(crate::specs::Reasons::range_said, model::specs::Basics::bytes))]
fn write_range(writer: &mut Writer<'_>, first: u64, last: u64)
    requires { writer.old.at + 80 ≤ length writer.old.buf.now }
    ensures wrote { Writes writer.old writer.new (range_said first last) }
    ensures upper_bound { writer.new.at ≤ writer.old.at + 80 }
{
    write_sentence(writer, b"the nodes are # to #\n", &[first, last]);
}

// Writes why a text is refused.
#[tactic(auto, unfolding(crate::specs::Reasons::reason, model::specs::Basics::bytes))]
fn write_reason(writer: &mut Writer<'_>, refusal: Refusal, stop: Stop)
    requires { writer.old.at + 130 ≤ length writer.old.buf.now }
    ensures wrote { Writes writer.old writer.new (reason (number refusal) stop) }
    ensures upper_bound { writer.new.at ≤ writer.old.at + 130 }
{
    let source = stop.source;
    match refusal {
        Refusal::Form => write_form(writer, stop.line),
        Refusal::NodeCount => write_nodes_most(writer, source, stop.most.nodes as u64),
        Refusal::LinkCount => write_links_most(writer, source, stop.most.links as u64),
        Refusal::LineNode => write_range(writer, stop.first as u64, stop.last as u64),
        Refusal::EqualEnds => writer.text(b"a link joins two different nodes\n"),
        Refusal::RepeatedLink => { writer.text(b"the link was given before, either way round\n") }
        Refusal::LineCount => writer.text(
            b"as many links must follow line 1 as it says, and nothing else\n",
        ),
        Refusal::FileForm => writer.text(
            b"a file is p edge n m, then m lines e a b, each with a line feed; no carriage returns or leading zeros; comments begin with c\n",
        ),
        // a text that is read into the longest lists is refused with none of the others
        _ => write_unfit(writer),
    }
}

// Writes why a text is refused, and at which line.
pub fn write_text_refused(writer: &mut Writer<'_>, refusal: Refusal, stop: Stop)
    requires { writer.old.at + 200 ≤ length writer.old.buf.now }
    ensures wrote { Writes writer.old writer.new (text_refused (number refusal) stop) }
    ensures upper_bound { writer.new.at ≤ writer.old.at + 200 }
{
    let number = base_refusals::refusal_number(refusal);
    write_sentence(
        writer,
        b"refused # at line #: ",
        &[number as u64, stop.line as u64],
    );
    write_reason(writer, refusal, stop);
}

// Writes that node v is not one of n.
#[tactic(auto, unfolding(crate::specs::Reasons::node_refused, model::specs::Basics::bytes))]
pub fn write_node_refused(writer: &mut Writer<'_>, v: u64, n: u64)
    requires { (1 ≤ n) × (writer.old.at + 110 ≤ length writer.old.buf.now) }
    ensures wrote { Writes writer.old writer.new (node_refused v n) }
    ensures upper_bound { writer.new.at ≤ writer.old.at + 110 }
{
    let number = base_refusals::refusal_number(Refusal::NoNode);
    write_sentence(
        writer,
        b"refused # at node #: the nodes are 0 to #\n",
        &[number as u64, v, n - 1],
    );
}

// Writes that threshold t is too great.
#[tactic(auto, unfolding(crate::specs::Reasons::threshold_refused, model::specs::Basics::bytes))]
pub fn write_threshold_refused(writer: &mut Writer<'_>, t: u64)
    requires { writer.old.at + 110 ≤ length writer.old.buf.now }
    ensures wrote { Writes writer.old writer.new (threshold_refused t) }
    ensures upper_bound { writer.new.at ≤ writer.old.at + 110 }
{
    let number = base_refusals::refusal_number(Refusal::BadThreshold);
    write_sentence(
        writer,
        b"refused # at threshold #: a threshold is at most 1024\n",
        &[number as u64, t],
    );
}
