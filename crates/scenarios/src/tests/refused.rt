// Refused calls, and the texts of errors.
use super::{check_text, printed};
use blocks::Entry;
use std::test::Fail;
use tables::{FreshError, Memory};
use turns::{BlockError, calls_in};

// Refused calls are numbered and alter nothing: the other lines are those of the run without them.
#[test]
fn refusals(rt: HostRuntime) -> Result<(), Fail> {
    let entries = entries![
        B 2; S 255;                                                 // 1 and 2: no such process
        S 0; R 0 0; W 0 0 1; C 0; D 0;                              // 3 to 7: no request, no transaction
        B 0; B 0; S 0; R 0 9; S 0;                                  // 8 to 12: 9 and 11 find a begin in hand
        S 0; B 0; R 0 4; W 0 65535 3;                               // 13 to 16: nothing in hand, open, no such object
        W 0 1 7; W 0 1 8; S 0; R 0 1; C 0; S 0;                     // 17 to 22: the content in hand stays 7
        B 1; S 0; S 1; S 1; R 1 2; S 1;                             // 23 to 28: process 0 has no request at 24
        C 0; S 0; D 0; S 0; D 0;                                    // 29 to 33: the commit has two steps
        C 1; S 1; S 1;                                              // 34 to 36
        B 1; S 1; S 1; R 1 1; S 1;                                  // 37 to 41
    ];
    let expected = "1 2 refused 2\n\
        2 255 refused 2\n\
        3 0 refused 8\n\
        4 0 refused 5\n\
        5 0 refused 5\n\
        6 0 refused 5\n\
        7 0 refused 5\n\
        9 0 refused 4\n\
        11 0 refused 4\n\
        12 0 begun 2\n\
        13 0 refused 8\n\
        14 0 refused 5\n\
        15 0 refused 6\n\
        16 0 refused 6\n\
        18 0 refused 4\n\
        19 0 written 1\n\
        21 0 refused 4\n\
        22 0 read 7 1\n\
        24 0 refused 8\n\
        26 1 begun 2\n\
        28 1 read 0 1\n\
        31 0 refused 4\n\
        32 0 committed 2\n\
        33 0 refused 5\n\
        35 1 committed 1\n\
        36 1 refused 8\n\
        39 1 begun 2\n\
        41 1 read 7 1\n";
    check_text(printed(rt.alloc(), &entries)?.as_str(), expected)?;
    Ok(())
}

// A memory of no objects and a block of no bytes are refused; these errors and want of memory have each its text.
#[test]
fn texts_of_errors(rt: HostRuntime) -> Result<(), Fail> {
    let heap = rt.alloc();
    let Err(no_objects) = Memory::<u32>::fresh(heap, &[], 2) else {
        return Err(Fail::new("a memory of no objects"));
    };
    let text = format!(in heap; "{no_objects}; {}", FreshError::NoMemory)?;
    check_text(
        text.as_str(),
        "no such memory: refused 1; no memory for the tables",
    )?;
    let Err(no_bytes) = calls_in(heap, &[], 0) else {
        return Err(Fail::new("a block of no bytes"));
    };
    let text = format!(in heap; "{no_bytes}; {}", BlockError::NoMemory)?;
    check_text(
        text.as_str(),
        "no such block: refused 11; no memory for a block",
    )?;
    Ok(())
}
