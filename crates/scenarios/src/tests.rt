// The runs of the tests. The comment beside a line of records has the numbers of their calls. Two processes make a
// begin two steps long. A begun clock is the least of the two bank numbers, so it is 0 until both processes have
// committed a write; the first access then raises it to the stamp that it finds.
use blocks::{BLOCK_LEN, Entry, write_block};
use session::Session;
use std::alloc::Global;

// A record of a block: a letter, a process, and the object and the content where the letter uses them.
macro_rules! entry {
    (B $p:literal) => { Entry { letter: b'B', process: $p, object: 0, content: 0 } };
    (R $p:literal $x:literal) => { Entry { letter: b'R', process: $p, object: $x, content: 0 } };
    (W $p:literal $x:literal $c:literal) => { Entry { letter: b'W', process: $p, object: $x, content: $c } };
    (C $p:literal) => { Entry { letter: b'C', process: $p, object: 0, content: 0 } };
    (D $p:literal) => { Entry { letter: b'D', process: $p, object: 0, content: 0 } };
    (S $p:literal) => { Entry { letter: b'S', process: $p, object: 0, content: 0 } };
}

// The records of a block, in order.
macro_rules! entries {
    ($($letter:ident $($number:literal)+;)*) => { [$(entry!($letter $($number)+)),*] };
}

mod conflicts;
mod dock_records;
mod inputs;
mod passes;
mod refused;

// Adds a block of these records under this number to the input of a run.
fn add_block(input: &mut Vec<u8>, number: u32, entries: &[Entry]) -> anyhow::Result<()> {
    let mut block = [0u8; BLOCK_LEN];
    write_block(&mut block, number, entries)?;
    input.extend_from_slice(&block)?;
    Ok(())
}

// The text that a run of this input prints.
fn transcript(heap: Global, input: &[u8]) -> anyhow::Result<String> {
    let mut session = Session::new(heap)?;
    for (place, piece) in (0u32..).zip(input.chunks(BLOCK_LEN)) {
        if !session.carry_out(heap, place, piece)? {
            break;
        }
    }
    let Session {
        memory: _,
        bank: _,
        done: _,
        text,
    } = session;
    Ok(text)
}

// The text that a run of one block prints.
fn printed(heap: Global, entries: &[Entry]) -> anyhow::Result<String> {
    let mut input = Vec::new(heap);
    add_block(&mut input, 0, entries)?;
    transcript(heap, input.as_slice())
}

// A line that is not as expected, and what was; where all lines are, the whole texts.
#[derive(Clone, Copy, Debug)]
struct Differs<'a> {
    found: &'a str,
    expected: &'a str,
}

// Are two texts equal?
fn same<'a>(found: &'a str, expected: &'a str) -> Result<(), Differs<'a>> {
    if found == expected {
        Ok(())
    } else {
        Err(Differs { found, expected })
    }
}

// Checks a text, first line by line, so that a failure names the line.
fn check_text<'a>(text: &'a str, expected: &'a str) -> Result<(), Differs<'a>> {
    for (line, wanted) in text.lines().zip(expected.lines()) {
        same(line, wanted)?;
    }
    same(text, expected)
}
