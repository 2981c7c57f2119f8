// Answers each line of the standard input as soon as it has come.
#![tactic(auto)]

mod desk;

use book::{Book, Memory};
use desk::Desk;
use std::alloc::AllocError;
use std::io::{BufRead, BufReader, Read};

// No more of the input is read.
const MOST: usize = 65536;

fn main(rt: HostRuntime) -> anyhow::Result<()> {
    run(&rt)
}

// Bytes after the last line feed are a line too.
fn run(rt: &HostRuntime) -> anyhow::Result<()> {
    let mut memory = Memory::new();
    let mut desk = Desk::new(Book::open(&mut memory));
    // With room for all of it one read takes all that has come. A smaller buffer would be answered in pieces, and whoever
    // still writes while it is printed, and reads later, could wait for ever.
    let reader = rt.stdin().take(MOST as u64);
    let mut input = BufReader::with_capacity(rt.alloc(), MOST, reader).map_err(|_| AllocError)?;
    let mut line = Vec::new(rt.alloc());
    let mut out = Vec::new(rt.alloc());
    // Each turn takes a byte at least. `read_until` would be shorter, and takes a sixth more instructions.
    for _ in 0..MOST {
        let come = input.fill_buf()?;
        if come.is_empty() {
            break;
        }
        for part in come.split_inclusive(|b| *b == b'\n') {
            line.extend_from_slice(part)?;
            if line.pop_if(|b| *b == b'\n').is_some() {
                desk.answer(&line, &mut out)?;
                line.clear();
            }
        }
        let used = come.len();
        input.consume(used);
        rt.write_all(&out)?;
        out.clear();
    }
    if !line.is_empty() {
        desk.answer(&line, &mut out)?;
        rt.write_all(&out)?;
    }
    Ok(())
}
