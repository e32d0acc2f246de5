// The open calls for programs in C and other languages: numbers and slices go in, one number of 64 bits comes back. A slice is a
// pointer and then a count of entries. `IsCode` (crate `base_answer_codes`, specs/Code.antt) says where a refusal's number and an
// answer's values stand in that number, and that they are read back from it (`decoded`) as include/puxerdau.h does.
#![tactic(auto)]

ghost use Rattle.std.specs.Prelude.{◌≡◌, ◌≤◌, length};
ghost use Rattle.model.specs.Survey.{neighbours_of, accepting};
ghost use Rattle.model.specs.Graph.{linked};
ghost use Rattle.model.specs.Threshold.{threshold_answer};
ghost use Rattle.model.specs.Reading.{reading};
ghost use Rattle.model.specs.Writing.{writing};
ghost use Rattle.model.specs.Building.{building};
ghost use Rattle.model.specs.Asking.{asking};
ghost use Rattle.model.specs.Walking.{walking};
ghost use Rattle.model.specs.Testing.{testing};
ghost use Rattle.model.specs.Listing.{listing, writing_listing};
ghost use Rattle.model.specs.Demand.{ReadRight, WriteRight, BuildRight, AskRight, WalkSound, WalkRight, TestRight};
ghost use Rattle.model.specs.Dimacs.{importing, exporting, ImportRight, ExportRight};
ghost use Rattle.listing_writing.specs.Length.{most_listing};
ghost use Rattle.base_answer_codes.specs.Code.{no_field, count_field, size_field, answer_field, test_field};
ghost use Rattle.base_answer_codes.specs.Code.{decoded, no_value, count_in, size_in, answer_in, test_in, IsCode};
ghost use Rattle.base_answer_codes.specs.Code.{read_decoded, write_decoded, build_decoded, walk_decoded};

use base_answer_codes::code;

// The stored threshold of n nodes.
#[unsafe(no_mangle)]
pub extern "C" fn puxerdau_threshold(n: usize) -> u64
    ensures { IsCode count_field count_in (threshold_answer n) result }
{
    code(base_threshold::threshold_of(n))
}

// Reads a survey from its text into two lists.
#[unsafe(no_mangle)]
pub extern "C" fn puxerdau_read(text: &[u8], starts: &mut [u32], neighbours: &mut [u16]) -> u64
    ensures code { IsCode size_field size_in
        (reading text.now (length starts.old) (length neighbours.old)).answer result }
    ensures neighbours_after { read_decoded result starts.new neighbours.new
        ≡ reading text.now (length starts.old) (length neighbours.old) }
    ensures read_right { ReadRight text.now (read_decoded result starts.new neighbours.new) }
{
    code(survey_reading::read_survey(text, starts, neighbours))
}

// Writes a survey's text into a buffer.
#[unsafe(no_mangle)]
pub extern "C" fn puxerdau_write(
    n: usize,
    starts: &[u32],
    neighbours: &[u16],
    buffer: &mut [u8],
) -> u64
    ensures code { IsCode count_field count_in
        (writing n starts.now neighbours.now buffer.old).answer result }
    ensures buffer_after { write_decoded result buffer.new
        ≡ writing n starts.now neighbours.now buffer.old }
    ensures write_right { WriteRight n starts.now neighbours.now (write_decoded result buffer.new) }
{
    code(survey_writing::write_survey(n, starts, neighbours, buffer))
}

// Reads a survey from a DIMACS edge file into two lists.
#[unsafe(no_mangle)]
pub extern "C" fn puxerdau_import(text: &[u8], starts: &mut [u32], neighbours: &mut [u16]) -> u64
    ensures code { IsCode size_field size_in
        (importing text.now (length starts.old) (length neighbours.old)).answer result }
    ensures neighbours_after { read_decoded result starts.new neighbours.new
        ≡ importing text.now (length starts.old) (length neighbours.old) }
    ensures import_right { ImportRight text.now (read_decoded result starts.new neighbours.new) }
{
    code(survey_importing::import_survey(text, starts, neighbours))
}

// Writes a survey as a DIMACS edge file into a buffer.
#[unsafe(no_mangle)]
pub extern "C" fn puxerdau_export(
    n: usize,
    starts: &[u32],
    neighbours: &[u16],
    buffer: &mut [u8],
) -> u64
    ensures code { IsCode count_field count_in
        (exporting n starts.now neighbours.now buffer.old).answer result }
    ensures buffer_after { write_decoded result buffer.new
        ≡ exporting n starts.now neighbours.now buffer.old }
    ensures export_right { ExportRight n starts.now neighbours.now (write_decoded result buffer.new) }
{
    code(survey_writing::export_survey(n, starts, neighbours, buffer))
}

// Whether the lists are a survey's.
#[unsafe(no_mangle)]
pub extern "C" fn puxerdau_accept(n: usize, starts: &[u32], neighbours: &[u16]) -> u64
    ensures { IsCode no_field no_value (accepting n starts.now neighbours.now) result }
{
    code(survey_acceptance::accept(n, starts, neighbours))
}

// Builds the three tables and the hub list of a survey, split by the threshold t, or by the stored one where t is 0.
#[unsafe(no_mangle)]
pub extern "C" fn puxerdau_build(
    n: usize,
    t: usize,
    starts: &[u32],
    neighbours: &[u16],
    full: &mut [u16],
    low: &mut [u16],
    report: &mut [u16],
    hubs: &mut [u16],
) -> u64
    ensures code { IsCode count_field count_in
        (building n t starts.now neighbours.now
        full.old low.old report.old hubs.old).answer result }
    ensures hubs_after { build_decoded result full.new low.new report.new hubs.new
        ≡ building n t starts.now neighbours.now
        full.old low.old report.old hubs.old }
    ensures build_right { BuildRight n t starts.now neighbours.now
        (build_decoded result full.new low.new report.new hubs.new) }
{
    code(table_building::build(n, t, starts, neighbours, full, low, report, hubs))
}

// Asks a pair: the report with its route.
#[unsafe(no_mangle)]
pub extern "C" fn puxerdau_ask(
    n: usize,
    full: &[u16],
    low: &[u16],
    report: &[u16],
    a: usize,
    b: usize,
) -> u64
    ensures code { IsCode answer_field answer_in (asking n full.now low.now report.now a b) result }
    ensures ask_right { AskRight n full.now low.now report.now a b (decoded answer_in result) }
{
    code(answer_pair::ask(n, full, low, report, a, b))
}

// Writes the walk of a pair into a list; t is the threshold of the tables, 0 for the stored one.
#[unsafe(no_mangle)]
pub extern "C" fn puxerdau_walk(
    n: usize,
    t: usize,
    starts: &[u32],
    neighbours: &[u16],
    full: &[u16],
    low: &[u16],
    report: &[u16],
    a: usize,
    b: usize,
    walk: &mut [u16],
) -> u64
    ensures code { IsCode answer_field answer_in
        (walking n t starts.now neighbours.now
        full.now low.now report.now a b (length walk.old)).answer result }
    ensures walk_after { walk_decoded result walk.new
        ≡ walking n t starts.now neighbours.now
        full.now low.now report.now a b (length walk.old) }
    ensures walk_sound { WalkSound (linked n (neighbours_of starts.now neighbours.now)) a b
        (walk_decoded result walk.new) }
    ensures walk_right { WalkRight n t starts.now neighbours.now
        full.now low.now report.now a b (length walk.old)
        (walk_decoded result walk.new) }
{
    code(walk_writing::write_walk(n, t, starts, neighbours, full, low, report, a, b, walk))
}

// The two-or-four test of a survey, split by the threshold t, or by the stored one where t is 0.
#[unsafe(no_mangle)]
pub extern "C" fn puxerdau_test(n: usize, t: usize, starts: &[u32], neighbours: &[u16]) -> u64
    ensures code { IsCode test_field test_in (testing n t starts.now neighbours.now) result }
    ensures test_right { TestRight n t starts.now neighbours.now (decoded test_in result) }
{
    code(answer_two_or_four::test(n, t, starts, neighbours))
}

// Writes the listing of a text into a buffer.
#[unsafe(no_mangle)]
pub extern "C" fn puxerdau_list(text: &[u8], buffer: &mut [u8]) -> u64
    ensures code { IsCode count_field count_in (writing_listing text.now buffer.old).answer result }
    ensures buffer_after { write_decoded result buffer.new ≡ writing_listing text.now buffer.old }
    ensures text_len_bound { length (listing text.now) ≤ most_listing }
{
    code(listing_writing::write_listing(text, buffer))
}
