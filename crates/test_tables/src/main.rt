// Runs a script of building, asking, walking and testing from standard input (crate `test_scripts` says what a script is):
//   R,p,q  K,k,0  k bytes   reads the bytes as a text into the first p starts and q neighbours
//   S,i,x  E,i,x            start i, neighbour i becomes x
//   F,i,x  L,i,x  P,i,x     entry i of Full, Low, Report becomes x
//   H,i,x                   entry i of the hub list becomes x
//   N,i,x                   number i becomes x. Number 0 is the count of nodes; numbers 1 to 7 say how many entries are lent of
//                           starts, neighbours, Full, Low, Report, the hub list and the walk list; number 8 is the threshold
//                           that building, walking and testing are given
//   B,0,0                   builds
//   V,i,0                   prints the entries that are lent of list i (as in N): 3 is Full, 4 Low, 5 Report, 6 the hub list
//   Q,a,b                   asks nodes a and b
//   W,a,b                   writes their walk
//   T,0,0                   tests
#![tactic(auto)]

use std::io;
use test_script_calls::Lists;
use test_scripts::{Command, read_command, replace, run_read};

const INPUT: usize = 262144;

const STARTS: usize = 1100;

const NEIGHBOURS: usize = 33000;

const TABLE: usize = 22600;

const HUBS: usize = 160;

const WALK: usize = 320;

// Runs a command, and returns the place of the next one.
fn step(rt: &impl Print, script: &[u8], c: Command, lists: &mut Lists<'_>) -> io::Result<usize> {
    match c.letter {
        b'R' => return run_read(rt, script, c, lists.starts, lists.neighbours),
        b'N' => replace(c, &mut lists.numbers),
        b'S' => replace(c, lists.starts),
        b'E' => replace(c, lists.neighbours),
        b'F' => replace(c, lists.full),
        b'L' => replace(c, lists.low),
        b'P' => replace(c, lists.report),
        b'H' => replace(c, lists.hubs),
        b'B' => lists.build(rt)?,
        b'V' => lists.print(rt, c)?,
        b'Q' => lists.ask(rt, c)?,
        b'W' => lists.walk(rt, c)?,
        b'T' => lists.test(rt)?,
        _ => {}
    }
    Ok(c.next)
}

// Runs all commands. There are no more of them than bytes.
fn run(rt: &impl Print, script: &[u8]) -> io::Result<()> {
    let mut lists = Lists {
        numbers: [0; 9],
        starts: &mut [7; STARTS],
        neighbours: &mut [7; NEIGHBOURS],
        full: &mut [7; TABLE],
        low: &mut [7; TABLE],
        report: &mut [7; TABLE],
        hubs: &mut [7; HUBS],
        walk: &mut [7; WALK],
    };
    let mut at = 0;
    for _ in 0..script.len() {
        let Some(c) = read_command(script, at) else {
            break;
        };
        at = step(rt, script, c, &mut lists)?;
    }
    Ok(())
}

fn main(rt: HostRuntime) -> io::Result<()> {
    let mut input = [0u8; INPUT];
    base_input::with_front(&rt, &mut input, |script| run(&rt, script))
}
