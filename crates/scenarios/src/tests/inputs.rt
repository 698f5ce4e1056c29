// Inputs of several blocks, and blocks that are refused.
ghost use Rattle.std.specs.Prelude.{◌<◌};

use super::{add_block, check_text, transcript};
use blocks::{Entry, check_of, write_block};
use session::Session;
use std::fmt::Debug;
use std::test::Fail;

// Calls are numbered over all blocks. A refused block ends the run, whatever follows it: a short last piece, the second
// of three blocks with another byte, and a first block that lacks its last byte.
#[test]
fn inputs_of_several_blocks(rt: HostRuntime) -> Result<(), Fail> {
    let heap = rt.alloc();
    let mut input = Vec::new(heap);
    check_text(transcript(heap, input.as_slice())?.as_str(), "")?;
    add_block(&mut input, 0, &entries![B 0; S 0; S 0; W 0 1 7; S 0;])?;
    add_block(&mut input, 1, &entries![C 0; S 0; S 0;])?;
    let whole = "3 0 begun 2\n\
        5 0 written 1\n\
        8 0 committed 2\n";
    check_text(transcript(heap, input.as_slice())?.as_str(), whole)?;
    input.extend_from_slice(&[0u8; 100])?;
    let short = "3 0 begun 2\n\
        5 0 written 1\n\
        8 0 committed 2\n\
        block 2 11\n";
    check_text(transcript(heap, input.as_slice())?.as_str(), short)?;
    input.truncate(1024);
    add_block(&mut input, 2, &entries![S 0;])?;
    if let Some(byte) = input.get_mut(520) {
        *byte = 1;
    }
    let damaged = "3 0 begun 2\n\
        5 0 written 1\n\
        block 1 12\n";
    check_text(transcript(heap, input.as_slice())?.as_str(), damaged)?;
    input.truncate(511);
    check_text(transcript(heap, input.as_slice())?.as_str(), "block 0 11\n")?;
    Ok(())
}

// A block with another byte in one place and the right check.
fn altered(block: &[u8; 512], at: usize, byte: u8) -> [u8; 512]
    requires { at < 510 }
{
    let mut out = *block;
    out[at] = byte;
    let check = check_of(&out).to_le_bytes();
    out[510..512].copy_from_slice(&check);
    out
}

// Each refused block alters nothing: the right block at the same place goes on from the block before. Byte 0 is the
// low byte of the count, byte 2 that of the number, and byte 22 the letter of the third record.
#[test]
fn refused_blocks(rt: HostRuntime) -> Result<(), Fail> {
    let heap = rt.alloc();
    let mut session = Session::new(heap)?;
    let mut first = [0u8; 512];
    write_block(&mut first, 0, &entries![B 0; S 0; S 0; W 0 1 7; S 0;])?;
    let mut second = [0u8; 512];
    write_block(&mut second, 1, &entries![C 0; S 0; S 0;])?;
    let mut damaged = second;
    damaged[509] = 1;
    assert!(rt; session.carry_out(heap, 0, &first)?);
    assert!(rt; !session.carry_out(heap, 1, &second[0..511])?);
    assert!(rt; !session.carry_out(heap, 1, &damaged)?);
    assert!(rt; !session.carry_out(heap, 1, &altered(&second, 2, 2))?);
    assert!(rt; !session.carry_out(heap, 1, &altered(&second, 0, 64))?);
    assert!(rt; !session.carry_out(heap, 1, &altered(&second, 0, 63))?);
    assert!(rt; !session.carry_out(heap, 1, &altered(&second, 22, b's'))?);
    assert!(rt; session.carry_out(heap, 1, &second)?);
    let expected = "3 0 begun 2\n\
        5 0 written 1\n\
        block 1 11\n\
        block 1 12\n\
        block 1 13\n\
        block 1 14\n\
        block 1 15\n\
        block 1 15\n\
        8 0 committed 2\n";
    check_text(session.text.as_str(), expected)?;
    Ok(())
}
