// Runs a script of reading, importing, acceptance, writing back and exporting from standard input (crate `test_scripts` says what a script is):
//   R,p,q  K,k,0  k bytes   reads the bytes as a text into the first p starts and q neighbours
//   I,p,q  K,k,0  k bytes   imports the bytes as a DIMACS edge file into them
//   S,i,x                   start i becomes x
//   E,i,x                   neighbour i becomes x
//   A,n,0  L,p,q            acceptance of n nodes with the first p starts and q neighbours
//   W,n,b  L,p,q            writes them back into the first b bytes of the buffer
//   X,n,b  L,p,q            exports them into it
#![tactic(auto)]

ghost use Rattle.std.specs.Prelude.{◌≡◌, eqb};
ghost use Rattle.std.specs.Prelude.{if◌then◌else◌};
ghost use Rattle.model.specs.Writing.{writing, write_returned};
ghost use Rattle.model.specs.Dimacs.{exporting};

use model::Refusal;
use std::io;
use test_scripts::{
    Command, checksum, front, front_mut, line_after, print_outcome, read_command, replace, run_read,
};

const INPUT: usize = 262144;

const STARTS: usize = 1100;

const NEIGHBOURS: usize = 33000;

const BUFFER: usize = 4096;

fn run_accept(
    rt: &impl Print,
    script: &[u8],
    c: Command,
    starts: &[u32],
    neighbours: &[u16],
) -> io::Result<usize> {
    let line = line_after(script, c);
    let answer = survey_acceptance::accept(
        c.x as usize,
        front(starts, line.x),
        front(neighbours, line.y),
    );
    print_outcome(rt, c.letter, answer.map(|()| []), &[])?;
    Ok(line.next)
}

// Writes a survey's text, or, by the letter X, its file.
fn write_by(
    letter: u8,
    n: usize,
    starts: &[u32],
    neighbours: &[u16],
    buffer: &mut [u8],
) -> Result<usize, Refusal>
    ensures { write_returned result buffer.new
        ≡ (if eqb letter 88 then exporting n starts.now neighbours.now buffer.old
        else writing n starts.now neighbours.now buffer.old) }
{
    match letter {
        b'X' => survey_writing::export_survey(n, starts, neighbours, buffer),
        _ => survey_writing::write_survey(n, starts, neighbours, buffer),
    }
}

fn run_write(
    rt: &impl Print,
    script: &[u8],
    c: Command,
    starts: &[u32],
    neighbours: &[u16],
    buffer: &mut [u8],
) -> io::Result<usize> {
    let line = line_after(script, c);
    let answer = write_by(
        c.letter,
        c.x as usize,
        front(starts, line.x),
        front(neighbours, line.y),
        front_mut(buffer, c.y),
    );
    print_outcome(
        rt,
        c.letter,
        answer.map(|count| [count as u64]),
        &[checksum(buffer)],
    )?;
    Ok(line.next)
}

// Runs a command, and returns the place of the next one.
fn step(
    rt: &impl Print,
    script: &[u8],
    c: Command,
    starts: &mut [u32; STARTS],
    neighbours: &mut [u16; NEIGHBOURS],
    buffer: &mut [u8; BUFFER],
) -> io::Result<usize> {
    match c.letter {
        b'R' | b'I' => return run_read(rt, script, c, starts, neighbours),
        b'A' => return run_accept(rt, script, c, starts, neighbours),
        b'W' | b'X' => return run_write(rt, script, c, starts, neighbours, buffer),
        b'S' => replace(c, starts),
        b'E' => replace(c, neighbours),
        _ => {}
    }
    Ok(c.next)
}

// Runs all commands. There are no more of them than bytes.
fn run(rt: &impl Print, script: &[u8]) -> io::Result<()> {
    let mut starts = [7; STARTS];
    let mut neighbours = [7; NEIGHBOURS];
    let mut buffer = [35; BUFFER];
    let mut at = 0;
    for _ in 0..script.len() {
        let Some(c) = read_command(script, at) else {
            break;
        };
        at = step(rt, script, c, &mut starts, &mut neighbours, &mut buffer)?;
    }
    Ok(())
}

fn main(rt: HostRuntime) -> io::Result<()> {
    let mut input = [0u8; INPUT];
    base_input::with_front(&rt, &mut input, |script| run(&rt, script))
}
