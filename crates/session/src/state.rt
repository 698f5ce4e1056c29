// What the bench keeps while it carries out turn blocks, and the text that it prints.
ghost use Rattle.std.specs.Prelude.{◌≡◌, ◌+◌, ◌^◌, ◌<◌, true, ◌++◌, length, is_ok, IfOk, string_bytes};
ghost use Rattle.session.specs.Left.{Fresh, Left};
ghost use Rattle.session.specs.Printed.{ended, printed_line, printed};

use anyhow::Context;
use banks::OwnBank;
use journal::Line;
use std::alloc::{AllocError, Global};
use tables::Memory;
use turns::{BlockError, block_text, carry_out, line_text};

const PROCESSES: usize = 2;

// A session so far: its memory and its bank, the calls that were made, and the text that is to be printed.
#[derive(Drop)]
pub struct Session {
    pub memory: Memory<u32>,
    pub bank: OwnBank,
    pub done: usize,
    pub text: String,
}

// Adds a line and its end to a text.
fn add_line(text: &mut String, line: &str) -> Result<(), AllocError>
    ensures { is_ok result ≡ true → string_bytes text.new ≡ string_bytes text.old ++ ended line.now }
{
    writeln!(text, "{line}")
}

// Adds what is printed of a journal's line of this call number, if anything is.
fn add_printed(
    heap: Global,
    text: &mut String,
    number: usize,
    line: &Line<u32>,
) -> Result<(), AllocError>
    ensures { is_ok result ≡ true → string_bytes text.new ≡ string_bytes text.old ++ printed_line number line.now }
{
    if let Some(printed) = line_text(heap, number, line)? {
        add_line(text, printed.as_str())?;
    }
    Ok(())
}

// Adds what is printed of the lines of a journal; `done` calls were made before it.
fn add_lines(
    heap: Global,
    text: &mut String,
    done: usize,
    lines: &[Line<u32>],
) -> Result<(), AllocError>
    requires { done + length lines.now < 2 ^ 64 }
    ensures { is_ok result ≡ true → string_bytes text.new ≡ string_bytes text.old ++ printed done lines.now }
{
    for (i, line) in lines.iter().enumerate() {
        add_printed(heap, text, done + i + 1, line)?;
    }
    Ok(())
}

impl Session {
    // A session that has made no call.
    pub fn new(heap: Global) -> anyhow::Result<Session>
        ensures { IfOk result Fresh }
    {
        Ok(Session {
            memory: Memory::fresh(heap, &[0u32, 0, 0, 0], PROCESSES)?,
            bank: OwnBank::new(),
            done: 0,
            text: String::new(heap),
        })
    }

    // Carries out a piece of the input that stands at this place among the blocks, and tells whether the session goes on:
    // then the calls of the block were made. A refused piece ends the session and alters neither the memory nor the bank.
    pub fn carry_out(&mut self, heap: Global, place: u32, piece: &[u8]) -> anyhow::Result<bool>
        ensures { IfOk result (λ goes. Left place piece.now self.old goes self.new) }
    {
        let lines = match carry_out(heap, &mut self.memory, &mut self.bank, piece, place) {
            Err(BlockError::Refused { refusal }) => {
                let text = block_text(heap, place, refusal)?;
                add_line(&mut self.text, text.as_str())?;
                return Ok(false);
            }
            carried => carried?,
        };
        let done = self
            .done
            .checked_add(lines.len())
            .context("too many calls")?;
        add_lines(heap, &mut self.text, self.done, lines.as_slice())?;
        self.done = done;
        Ok(true)
    }
}
