// Answers the script on standard input, a line for each line, as it comes.
#![tactic(auto)]

use script::Session;
use std::io::{Read, Write};

/// How much is read at a time.
const PIECE_BYTES: usize = 16_384;

fn main(rt: HostRuntime) -> anyhow::Result<()> {
    run(&rt)
}

fn run(rt: &HostRuntime) -> anyhow::Result<()> {
    let heap = rt.alloc();
    let mut input = rt.stdin();
    let mut output = rt.stdout();
    let mut piece = vec![in heap; 0u8; PIECE_BYTES]?;
    let mut answers = String::new(heap);
    let mut session = Session::new(heap);
    // Not `io::copy`, which would end with another message where memory is wanted; a loop has to end, so it counts.
    for _ in 0..u64::MAX {
        let len = input.read(piece.as_mut_slice())?;
        if len == 0 {
            break;
        }
        session.feed(&piece.as_slice()[0..len], &mut answers)?;
        output.write_all(answers.as_bytes())?;
        answers.clear();
    }
    session.finish(&mut answers)?;
    output.write_all(answers.as_bytes())?;
    output.flush()?;
    Ok(())
}
