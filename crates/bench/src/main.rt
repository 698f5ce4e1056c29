// The bench: carries out the turn blocks on standard input, on a memory of 2 processes and 4 objects with the own
// bank and contents 0, and prints a line for each answer and each refusal. A refused block ends the run.
#![tactic(auto)]

ghost use Rattle.std.specs.Prelude.{◌≤◌, length, IfOk};

use anyhow::anyhow;
use blocks::BLOCK_LEN;
use session::Session;
use std::io;
use std::io::Read;

// Reads until the buffer is full or the input ends, and tells how many bytes came. An interrupted read is an error like any other,
// and so is a read of no bytes, made once after a full buffer, that the input refuses. (Tried: `read_to_end` reads again where
// a read was interrupted, and asks for memory after the first block was read.)
fn fill(input: &mut impl Read, buffer: &mut [u8]) -> io::Result<usize>
    ensures { IfOk result (λ n. n ≤ length buffer.old) }
{
    let mut filled = 0;
    for _ in 0..buffer.len() {
        let count = input.read(&mut buffer[filled..])?;
        if count == 0 {
            break;
        }
        filled += count;
    }
    Ok(filled)
}

fn run(rt: &HostRuntime) -> anyhow::Result<()> {
    let mut session = Session::new(rt.alloc())?;
    let mut input = rt.stdin();
    for place in 0..u32::MAX {
        let mut buffer = [0u8; BLOCK_LEN];
        let count = fill(&mut input, &mut buffer)?;
        if count == 0 {
            return Ok(());
        }
        let goes_on = session.carry_out(rt.alloc(), place, &buffer[..count])?;
        print!(rt; "{}", session.text.as_str())?;
        session.text.clear();
        if !goes_on {
            return Ok(());
        }
    }
    Err(anyhow!("too many blocks"))
}

fn main(rt: HostRuntime) -> anyhow::Result<()> {
    run(&rt)
}
