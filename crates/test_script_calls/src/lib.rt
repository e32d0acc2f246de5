// The calls of a script, each with what it prints. `numbers` are those that command N of the program `test_tables` sets.
#![tactic(auto)]

use std::io;
use test_scripts::{
    Command, checksum, front, front_mut, print_answer, print_built, print_entries, print_tested,
};

// kept: each call is lent the lists that it needs, and those that it only reads as such; a struct of all lists asks for more

pub fn run_build(
    rt: &impl Print,
    numbers: &[u64; 9],
    starts: &[u32],
    neighbours: &[u16],
    full: &mut [u16],
    low: &mut [u16],
    report: &mut [u16],
    hubs: &mut [u16],
) -> io::Result<()> {
    let answer = table_building::build(
        numbers[0] as usize,
        numbers[8] as usize,
        front(starts, numbers[1]),
        front(neighbours, numbers[2]),
        front_mut(full, numbers[3]),
        front_mut(low, numbers[4]),
        front_mut(report, numbers[5]),
        front_mut(hubs, numbers[6]),
    );
    print_built(rt, answer, full, low, report, hubs)
}

// Prints the entries that are lent of list c.x: Full, Low, Report or the hub list, by their places in `numbers`.
pub fn run_print(
    rt: &impl Print,
    c: Command,
    numbers: &[u64; 9],
    full: &[u16],
    low: &[u16],
    report: &[u16],
    hubs: &[u16],
) -> io::Result<()> {
    match c.x {
        3 => print_entries(rt, c.letter, full, numbers[3]),
        4 => print_entries(rt, c.letter, low, numbers[4]),
        5 => print_entries(rt, c.letter, report, numbers[5]),
        _ => print_entries(rt, c.letter, hubs, numbers[6]),
    }
}

// Asking writes to no list: its sum is 0.
pub fn run_ask(
    rt: &impl Print,
    c: Command,
    numbers: &[u64; 9],
    full: &[u16],
    low: &[u16],
    report: &[u16],
) -> io::Result<()> {
    let answer = answer_pair::ask(
        numbers[0] as usize,
        front(full, numbers[3]),
        front(low, numbers[4]),
        front(report, numbers[5]),
        c.x as usize,
        c.y as usize,
    );
    print_answer(rt, c.letter, answer, 0)
}

pub fn run_walk(
    rt: &impl Print,
    c: Command,
    numbers: &[u64; 9],
    starts: &[u32],
    neighbours: &[u16],
    full: &[u16],
    low: &[u16],
    report: &[u16],
    walk: &mut [u16],
) -> io::Result<()> {
    let answer = walk_writing::write_walk(
        numbers[0] as usize,
        numbers[8] as usize,
        front(starts, numbers[1]),
        front(neighbours, numbers[2]),
        front(full, numbers[3]),
        front(low, numbers[4]),
        front(report, numbers[5]),
        c.x as usize,
        c.y as usize,
        front_mut(walk, numbers[7]),
    );
    print_answer(rt, c.letter, answer, checksum(walk))
}

pub fn run_test(
    rt: &impl Print,
    numbers: &[u64; 9],
    starts: &[u32],
    neighbours: &[u16],
) -> io::Result<()> {
    let answer = answer_two_or_four::test(
        numbers[0] as usize,
        numbers[8] as usize,
        front(starts, numbers[1]),
        front(neighbours, numbers[2]),
    );
    print_tested(rt, answer)
}

// The lists that the calls are lent.
// kept: numbers by their places, since number i is what a script's line N,i,x sets
#[derive(Drop)]
pub struct Lists<'a> {
    pub numbers: [u64; 9],
    pub starts: &'a mut [u32],
    pub neighbours: &'a mut [u16],
    pub full: &'a mut [u16],
    pub low: &'a mut [u16],
    pub report: &'a mut [u16],
    pub hubs: &'a mut [u16],
    pub walk: &'a mut [u16],
}

impl<'a> Lists<'a> {
    pub fn build(&mut self, rt: &impl Print) -> io::Result<()> {
        let numbers = self.numbers;
        let starts = &mut *self.starts;
        let neighbours = &mut *self.neighbours;
        let full = &mut *self.full;
        let low = &mut *self.low;
        let report = &mut *self.report;
        let hubs = &mut *self.hubs;
        run_build(rt, &numbers, starts, neighbours, full, low, report, hubs)
    }

    pub fn print(&self, rt: &impl Print, c: Command) -> io::Result<()> {
        run_print(
            rt,
            c,
            &self.numbers,
            self.full,
            self.low,
            self.report,
            self.hubs,
        )
    }

    pub fn ask(&self, rt: &impl Print, c: Command) -> io::Result<()> {
        run_ask(rt, c, &self.numbers, self.full, self.low, self.report)
    }

    pub fn walk(&mut self, rt: &impl Print, c: Command) -> io::Result<()> {
        let numbers = self.numbers;
        let starts = &mut *self.starts;
        let neighbours = &mut *self.neighbours;
        let full = &mut *self.full;
        let low = &mut *self.low;
        let report = &mut *self.report;
        let walk = &mut *self.walk;
        run_walk(rt, c, &numbers, starts, neighbours, full, low, report, walk)
    }

    pub fn test(&self, rt: &impl Print) -> io::Result<()> {
        run_test(rt, &self.numbers, self.starts, self.neighbours)
    }
}
