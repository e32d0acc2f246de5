// Reading a survey from its text.
#![tactic(auto)]

ghost use Rattle.std.specs.Prelude.{◌≡◌, ◌≤◌, length};
ghost use Rattle.model.specs.Reading.{parse, read_returned, reading_of, reading};
ghost use Rattle.model.specs.Demand.{ReadRight};

use model::{Refusal, Size};
use survey_reading_lines::Limits;
use text_reading::Pair;

// Reads a survey within limits on its counts. Refused, both lists are all zero.
// kept: a function of its own beside `import_survey`; they share the order of five calls, and a trait for the two that differ is longer
pub fn read_within(
    text: &[u8],
    most_nodes: usize,
    most_links: usize,
    starts: &mut [u32],
    neighbours: &mut [u16],
) -> Result<Size, Refusal>
    requires { (most_nodes ≤ 1024) × (most_links ≤ 16384) }
    ensures { read_returned result starts.new neighbours.new
        ≡ reading_of (length starts.old) (length neighbours.old)
        (parse most_nodes most_links (length starts.old) (length neighbours.old) text.now) }
{
    starts.fill(0);
    neighbours.fill(0);
    let limits = Limits {
        nodes: most_nodes,
        links: most_links,
        starts: starts.len(),
        neighbours: neighbours.len(),
    };
    let Pair { a: n, b: m, end } = survey_reading_lines::first_line(text, limits)?;
    let mut bits = [0; 16384];
    let links = survey_reading_lines::read_links(text, end, n, m, &mut bits)?;
    survey_reading_lists::write_lists(&bits, n, starts, neighbours);
    Ok(Size { nodes: n, links })
}

// Reads a survey from its text into two lists.
pub fn read_survey(text: &[u8], starts: &mut [u32], neighbours: &mut [u16]) -> Result<Size, Refusal>
    ensures neighbours_after { read_returned result starts.new neighbours.new
        ≡ reading text.now (length starts.old) (length neighbours.old) }
    ensures read_right { ReadRight text.now (read_returned result starts.new neighbours.new) }
{
    read_within(text, 1024, 16384, starts, neighbours)
}
