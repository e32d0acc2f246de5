// Importing a survey from a DIMACS edge file.
#![tactic(auto)]

ghost use Rattle.std.specs.Prelude.{◌≡◌, length};
ghost use Rattle.model.specs.Reading.{read_returned};
ghost use Rattle.model.specs.Dimacs.{importing, ImportRight};

use model::{Refusal, Size};
use text_reading::Pair;

// Reads a survey from a DIMACS edge file into two lists. Refused, both are all zero.
pub fn import_survey(
    text: &[u8],
    starts: &mut [u32],
    neighbours: &mut [u16],
) -> Result<Size, Refusal>
    ensures neighbours_after { read_returned result starts.new neighbours.new
        ≡ importing text.now (length starts.old) (length neighbours.old) }
    ensures import_right { ImportRight text.now (read_returned result starts.new neighbours.new) }
{
    starts.fill(0);
    neighbours.fill(0);
    let Pair { a: n, b: m, end } = survey_importing_lines::head_line(
        text,
        starts.len(),
        neighbours.len(),
    )?;
    let mut bits = [0; 16384];
    let links = survey_importing_lines::read_edges(text, end, n, m, &mut bits)?;
    survey_reading_lists::write_lists(&bits, n, starts, neighbours);
    Ok(Size { nodes: n, links })
}
