// Reads a survey of up to 1,024 nodes and 16,384 links from standard input, builds its tables and makes the two-or-four test. Prints a line for each of
// the three calls, as a script's call does (crate `test_scripts`). The three tables are 6 MiB of the stack.
#![tactic(auto)]

use std::io;
use test_scripts::{print_built, print_read, print_tested};

const INPUT: usize = 262144;

const STARTS: usize = 1025;

const NEIGHBOURS: usize = 32768;

const TABLE: usize = 1048576;

const HUBS: usize = 1024;

// kept: a function of its own, to which the tables are lent as arrays; with slices made where the arrays are, the check took ten minutes
fn build(
    rt: &impl Print,
    n: usize,
    starts: &[u32],
    neighbours: &[u16],
    full: &mut [u16; TABLE],
    low: &mut [u16; TABLE],
    report: &mut [u16; TABLE],
    hubs: &mut [u16; HUBS],
) -> io::Result<()> {
    let answer = table_building::build(n, 0, starts, neighbours, full, low, report, hubs);
    print_built(rt, answer, full, low, report, hubs)
}

fn build_and_test(rt: &impl Print, n: usize, starts: &[u32], neighbours: &[u16]) -> io::Result<()> {
    let mut full = [7; TABLE];
    let mut low = [7; TABLE];
    let mut report = [7; TABLE];
    let mut hubs = [7; HUBS];
    build(
        rt,
        n,
        starts,
        neighbours,
        &mut full,
        &mut low,
        &mut report,
        &mut hubs,
    )?;
    print_tested(rt, answer_two_or_four::test(n, 0, starts, neighbours))
}

// Where reading is refused, the other two calls are given 0 nodes.
fn run(rt: &impl Print, text: &[u8]) -> io::Result<()> {
    let mut starts = [7; STARTS];
    let mut neighbours = [7; NEIGHBOURS];
    let answer = survey_reading::read_survey(text, &mut starts, &mut neighbours);
    print_read(rt, b'R', answer, &starts, &neighbours)?;
    let n = answer.map_or(0, |size| size.nodes);
    build_and_test(rt, n, &starts, &neighbours)
}

fn main(rt: HostRuntime) -> io::Result<()> {
    let mut input = [0u8; INPUT];
    base_input::with_front(&rt, &mut input, |text| run(&rt, text))
}
