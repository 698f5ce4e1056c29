// The calls that the records of a turn block ask for.
ghost use Rattle.std.specs.Prelude.{◌≡◌, ◌<◌, map, IfOk};
ghost use Rattle.std.specs.List.{range_with_len};
ghost use Rattle.blocks.specs.Reading.{said_at};
ghost use Rattle.blocks.specs.Records.{said};
ghost use Rattle.turns.specs.Calls.{number_in, call_of, Called};

use super::block_error::BlockError;
use blocks::{Block, Record, read_block};
use journal::Call;
use std::alloc::{AllocError, Global};
use tables::Request;

// The number that four content bytes hold, low byte first.
fn content_number(content: &[u8]) -> u32
    ensures { result ≡ number_in content.now }
{
    <[u8; 4]>::try_from(content).map_or(0, u32::from_le_bytes)
}

// The call that a record asks for. What its letter does not use is not looked at. (No `From`: an impl of it for two types of
// other crates is refused.)
pub fn call_for(turn: Record<'_>) -> Call<u32>
    ensures { result ≡ call_of (said turn.entry) }
{
    match turn {
        Record::Begin { process, .. } => Call::Place {
            process: process.into(),
            request: Request::Begin,
        },
        Record::Read {
            process,
            object,
            ..
        } => {
            Call::Place {
                process: process.into(),
                request: Request::Read {
                    object: object.into(),
                },
            }
        }
        Record::Write {
            process,
            object,
            content,
        } => {
            let content = content_number(content);
            Call::Place {
                process: process.into(),
                request: Request::Write {
                    object: object.into(),
                    content,
                },
            }
        }
        Record::Commit { process, .. } => Call::Place {
            process: process.into(),
            request: Request::Commit,
        },
        Record::Withdraw { process, .. } => Call::Place {
            process: process.into(),
            request: Request::Withdraw,
        },
        Record::Step { process, .. } => Call::Step {
            process: process.into(),
        },
    }
}

// The call that the record in place i of a block asks for.
fn call_at(block: Block<'_>, i: usize) -> Call<u32>
    requires { i < block.count }
    ensures { result ≡ call_of (said_at block.entry.bytes.now i) }
{
    match block.record(i) {
        Some(turn) => call_for(turn),
        None => unreachable!(),
    }
}

// The calls of a block that was read, in the order of its records.
fn block_calls(heap: Global, block: Block<'_>) -> Result<Vec<Call<u32>>, AllocError>
    ensures { IfOk result (λ v. v.items ≡ map (λ i. call_of (said_at block.entry.bytes.now i)) (range_with_len 0 block.entry.count)) }
{
    (0..block.count()).map(|i| call_at(block, i)).collect(heap)
}

// The calls of the block in the bytes, where it is number `next`. (Bytes and number are two arguments, as in the reader.)
#[tactic(auto, using(crate::proofs::Records::calls_of_records))]
pub fn calls_in(heap: Global, bytes: &[u8], next: u32) -> Result<Vec<Call<u32>>, BlockError>
    ensures { Called bytes.now next result }
{
    let block = read_block(bytes, next)?;
    Ok(block_calls(heap, block)?)
}
