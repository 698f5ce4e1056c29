// The records of a block, and how eight bytes are read as one.
ghost use Rattle.std.specs.Prelude.{◌≡◌, length};
ghost use Rattle.blocks.specs.Records.{Reads};

use super::letter::Letter;
use super::refusal::Refusal;

// A record, with its four content bytes as a part of the block. In a block the cases have the letters B, R, W, C, D and S.
// A rule of the project: an enum of six cases whose fields borrow the content.
#[derive(Clone, Copy, Debug, PartialEq, Eq)]
pub enum Record<'a> {
    Begin {
        process: u8,
        object: u16,
        content: &'a [u8],
    },
    Read {
        process: u8,
        object: u16,
        content: &'a [u8],
    },
    Write {
        process: u8,
        object: u16,
        content: &'a [u8],
    },
    Commit {
        process: u8,
        object: u16,
        content: &'a [u8],
    },
    Withdraw {
        process: u8,
        object: u16,
        content: &'a [u8],
    },
    Step {
        process: u8,
        object: u16,
        content: &'a [u8],
    },
}

// The record that eight bytes hold, or a refusal where the letter is not known.
pub(crate) fn read_record<'a>(bytes: &'a [u8]) -> Result<Record<'a>, Refusal>
    requires { length bytes.now ≡ 8 }
    ensures { Reads bytes.now result }
{
    // A rule of the project: one slice pattern names the parts.
    let [letter, process, low, high, content @ ..] = bytes else {
        unreachable!()
    };
    let process = *process;
    let object = u16::from_le_bytes([*low, *high]);
    Ok(match Letter::try_from(*letter)? {
        Letter::Begin => Record::Begin {
            process,
            object,
            content,
        },
        Letter::Read => Record::Read {
            process,
            object,
            content,
        },
        Letter::Write => Record::Write {
            process,
            object,
            content,
        },
        Letter::Commit => Record::Commit {
            process,
            object,
            content,
        },
        Letter::Withdraw => Record::Withdraw {
            process,
            object,
            content,
        },
        Letter::Step => Record::Step {
            process,
            object,
            content,
        },
    })
}
