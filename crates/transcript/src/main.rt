// The transcript program of document 01: it reads blocks of records on standard input, answers each
// used record on tables that are fresh at the start, and prints a line for each.
#![tactic(auto)]

mod input; // standard input, also when it comes in pieces
mod answering; // blocks and their records answered

use answering::{BLOCK_BYTES, Transcript};
use input::fill;
use std::io;

// Says on standard error what failed and why; nothing more can be done where that fails too.
fn report<R: Eprint>(rt: &R, what: &str, done: io::Result<()>) {
    if let Err(error) = done {
        let _ = eprintln!(rt; "{what}: {error}");
    }
}

fn main(rt: HostRuntime) {
    let mut rows = [[0; 12]; 128];
    let mut transcript = Transcript::new(rt.stdout(), &mut rows);
    let mut input = rt.stdin();
    let mut bytes = [0u8; 128 * BLOCK_BYTES];
    // A proved loop has to end: no input takes so many turns.
    for _ in 0..u64::MAX {
        let (n, read) = fill(&mut input, &mut bytes);
        // What is left over of a block is short, unless a read failed.
        let end = if read.is_ok() { n } else { n - n % BLOCK_BYTES };
        let written = transcript.answer(&bytes[..end]);
        let is_last = n < bytes.len() || written.is_err();
        report(&rt, "write", written);
        report(&rt, "read", read);
        if is_last {
            break;
        }
    }
    report(&rt, "write", transcript.write());
}
