// The lines that the bench prints: one for each answer and each refusal.
ghost use Rattle.std.specs.Prelude.{◌≡◌, IfOk, None, Ok, string_bytes};
ghost use Rattle.turns.specs.Text.{reply_text, bytes_of, caller_of, refused_block_text};

use blocks::Refusal;
use journal::{Call, Done, Line, Reply};
use std::alloc::{AllocError, Global};

// A refused block: its place among the blocks, and the number of the question; the text of neither alone, so no `Display`.
pub fn block_text(heap: Global, place: u32, refusal: Refusal) -> Result<String, AllocError>
    ensures { IfOk result (λ s. string_bytes s ≡ refused_block_text place refusal) }
{
    let question = refusal.number();
    // Through `?`, after which the check puts the number in, so that a wrong line fails here.
    let line = format!(in heap; "block {place} {question}")?;
    Ok(line)
}

// The process that makes a call.
fn caller(call: Call<u32>) -> usize
    ensures { result ≡ caller_of call }
{
    match call {
        Call::Place { process, .. } | Call::Step { process } => process,
    }
}

// What is printed of a reply; nothing of a placing, and nothing of a step after which the request goes on.
fn reply_line(
    heap: Global,
    number: usize,
    process: usize,
    reply: Reply<u32>,
) -> Result<Option<String>, AllocError>
    ensures text { IfOk result (λ s. bytes_of string_bytes s ≡ reply_text number process reply) }
    ensures silent { reply_text number process reply ≡ None → result ≡ Ok None }
{
    match reply {
        Ok(Done::Placed) => Ok(None),
        Ok(Done::Made { step }) => match step.answer {
            Some(answer) => Ok(Some(format!(in heap; "{number} {process} {answer}")?)),
            None => Ok(None),
        },
        Err(refusal) => Ok(Some(format!(in heap; "{number} {process} {refusal}")?)),
    }
}

// What is printed of the journal's line of a call, by the call's number.
pub fn line_text(
    heap: Global,
    number: usize,
    line: &Line<u32>,
) -> Result<Option<String>, AllocError>
    ensures text { IfOk result (λ s. bytes_of string_bytes s ≡ reply_text number (caller_of line.now.call) line.now.reply) }
    ensures silent { reply_text number (caller_of line.now.call) line.now.reply ≡ None → result ≡ Ok None }
{
    reply_line(heap, number, caller(line.call), line.reply)
}
