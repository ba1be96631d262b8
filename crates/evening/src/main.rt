// Runs an evening: reads an evening file from standard input in blocks as it arrives, and prints to standard output.
#![tactic(auto)]

use anyhow::anyhow;
use directory::{Directory, Entry};
use evening_desk::Desk;
use evening_stream::Stream;
use std::io::{Read, Write};

// How many accounts an evening may have.
const ACCOUNTS: usize = 32;

// How many bytes are read at a time.
const BLOCK: usize = 65536;

// Feeds standard input to the desk, block by block, to its end. What was printed is written also where the memory to print more was
// wanting; the error tells so then.
fn run(rt: &HostRuntime, desk: &mut Desk<'_, '_>) -> anyhow::Result<()> {
    let mut stream = Stream::new();
    let mut block = vec![in rt.alloc(); 0u8; BLOCK]?;
    let mut out = Vec::new(rt.alloc());
    let mut input = rt.stdin();
    // To the end of the input, by a count that no input reaches: a loop must be known to end, and the library goes over lines and bytes by itself, not
    // over blocks.
    for _ in 0..u64::MAX {
        let n = input.read(&mut block)?;
        if n == 0 {
            break;
        }
        let fed = stream.feed(desk, &block[..n], &mut out);
        rt.stdout().write_all(&out)?;
        fed.map_err(|_| anyhow!("no memory to print a line"))?;
        out.clear();
    }
    // The same two steps once more: a function for them would be handed the answer and the words for it.
    let ended = stream.end(desk, &mut out);
    rt.stdout().write_all(&out)?;
    ended.map_err(|_| anyhow!("no memory to print the last line"))
}

fn main(rt: HostRuntime) -> anyhow::Result<()> {
    let mut account_memory = [Entry::NONE; ACCOUNTS];
    let mut accounts = Directory::open(&mut account_memory);
    let mut desk = Desk::new(&mut accounts);
    run(&rt, &mut desk)
}
