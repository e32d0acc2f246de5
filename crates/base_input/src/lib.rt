// The front of an input, read into a buffer.
#![tactic(auto)]

ghost use Rattle.std.specs.Prelude.{◌≡◌, List, ℕ, ◌≤◌, length, take, IfSome, IfOk, MatchResult};
ghost use Rattle.std.specs.Fn.{FnOnceReturnsAt};

use std::io;
use std::io::Read;

// Reads as many bytes as fit into a buffer, or all where there are fewer, and answers how many. A read that fails ends the input before its
// time, and then the count is an error. Bytes that do not fit are left.
pub fn read_front<R: Read>(input: &mut R, buffer: &mut [u8]) -> Result<usize, usize>
    ensures within { MatchResult result (λ k. k ≤ length buffer.new) (λ k. k ≤ length buffer.new) }
    ensures bytes { IfSome (R.remaining input.old)
        (λ bytes. IfOk result (λ k. take k buffer.new ≡ take (length buffer.new) bytes)) }
{
    let mut done = 0;
    while done < buffer.len() {
        let Ok(k) = input.read(&mut buffer[done..]) else {
            return Err(done);
        };
        if k == 0 {
            break;
        }
        done += k;
    }
    Ok(done)
}

// Reads the front of the input into a buffer and hands it on. A read that fails ends it.
pub fn with_front<I: Input, F: FnOnce(&[u8]) -> io::Result<()>, const N: usize>(
    rt: &I,
    buffer: &mut [u8; N],
    run: F,
) -> io::Result<()>
    requires { F.IsAlwaysCallable run }
    ensures { (front : List ℕ) × (length front ≤ N) × FnOnceReturnsAt F.FnOnce run front result }
{
    let (Ok(length) | Err(length)) = read_front(&mut rt.reader(), buffer);
    run(&buffer[..length])
}
