// Transactions that come to their end: by a commit, by a withdrawal, or because no stamp is left.
use super::{add_block, check_text, printed};
use banks::{Bank, LARGEST};
use blocks::Entry;
use session::Session;
use std::test::Fail;

// Pending contents, rewrites, and what another process reads after the commit; commits that write nothing.
#[test]
fn pending_and_committed(rt: HostRuntime) -> Result<(), Fail> {
    let entries = entries![
        B 0; S 0; S 0; R 0 1; S 0; W 0 1 7; S 0; R 0 1; S 0;        // 1 to 9: the pending content is read
        W 0 1 305419896; S 0; R 0 1; S 0;                           // 10 to 13: and replaced
        C 0; S 0; S 0; S 0;                                         // 14 to 17: one pair, sealing, one store
        B 1; S 1; S 1; R 1 1; S 1; R 1 1; S 1; C 1; S 1;            // 18 to 26: the pair joins once
        B 1; S 1; S 1; C 1; S 1;                                    // 27 to 31: both sets are empty
        B 1; S 1; S 1; R 1 2; S 1;                                  // 32 to 36: object 2 at stamp 0
        B 0; S 0; S 0; W 0 2 3; S 0; C 0; S 0; S 0;                 // 37 to 44: object 2 at stamp 2
        R 1 2; S 1;                                                 // 45 and 46: another stamp than the one in the set
    ];
    let expected = "3 0 begun 2\n\
        5 0 read 0 1\n\
        7 0 written 1\n\
        9 0 read 7 1\n\
        11 0 written 1\n\
        13 0 read 305419896 1\n\
        17 0 committed 3\n\
        20 1 begun 2\n\
        22 1 read 305419896 1\n\
        24 1 read 305419896 1\n\
        26 1 committed 1\n\
        29 1 begun 2\n\
        31 1 committed 1\n\
        34 1 begun 2\n\
        36 1 read 0 1\n\
        39 0 begun 2\n\
        41 0 written 1\n\
        44 0 committed 2\n\
        46 1 aborted changed 2 1\n";
    check_text(printed(rt.alloc(), &entries)?.as_str(), expected)?;
    Ok(())
}

// Extensions that pass: one step for each pair of the read set, and then the access goes on at the later clock.
#[test]
fn extensions_that_pass(rt: HostRuntime) -> Result<(), Fail> {
    let entries = entries![
        B 1; S 1; S 1; R 1 0; S 1; R 1 1; S 1;                      // 1 to 7: two pairs at stamp 0
        B 0; S 0; S 0; W 0 2 6; S 0; W 0 3 9; S 0;                  // 8 to 14
        C 0; S 0; S 0; S 0;                                         // 15 to 18: objects 2 and 3 at stamp 1
        R 1 2; S 1; S 1; S 1; R 1 3; S 1;                           // 19 to 24: extended once, to clock 1
        C 1; S 1; S 1; S 1; S 1;                                    // 25 to 29: four pairs are certified
        B 1; S 1; S 1; R 1 0; S 1; W 1 2 11; S 1; S 1;              // 30 to 37: extended by a write
        C 1; S 1; S 1; S 1;                                         // 38 to 41: object 2 at stamp 2
        B 0; S 0; S 0; R 0 3; S 0; R 0 2; S 0; S 0;                 // 42 to 49: from clock 1 to clock 2
        C 0; S 0; S 0;                                              // 50 to 52
    ];
    let expected = "3 1 begun 2\n\
        5 1 read 0 1\n\
        7 1 read 0 1\n\
        10 0 begun 2\n\
        12 0 written 1\n\
        14 0 written 1\n\
        18 0 committed 3\n\
        22 1 read 6 3\n\
        24 1 read 9 1\n\
        29 1 committed 4\n\
        32 1 begun 2\n\
        34 1 read 0 1\n\
        37 1 written 2\n\
        41 1 committed 3\n\
        44 0 begun 2\n\
        46 0 read 9 1\n\
        49 0 read 11 2\n\
        52 0 committed 2\n";
    check_text(printed(rt.alloc(), &entries)?.as_str(), expected)?;
    Ok(())
}

// Withdrawals: one step for each held object, or one step; an object can be taken once its step is made.
#[test]
fn withdrawals(rt: HostRuntime) -> Result<(), Fail> {
    let entries = entries![
        B 0; S 0; S 0; D 0; S 0;                                    // 1 to 5: both sets are empty
        B 0; S 0; S 0; W 0 1 7; S 0; W 0 2 9; S 0; R 0 3; S 0;      // 6 to 14: process 0 holds objects 1 and 2
        B 1; S 1; S 1;                                              // 15 to 17
        D 0; S 0; W 1 1 5; S 1;                                     // 18 to 21: object 1 is free and is taken
        S 0; W 1 2 6; S 1;                                          // 22 to 24: object 2 too
        C 1; S 1; S 1; S 1;                                         // 25 to 28
        B 0; S 0; S 0; R 0 1; S 0; R 0 2; S 0; C 0; S 0; S 0;       // 29 to 38
        B 0; S 0; S 0; R 0 0; S 0; D 0; S 0;                        // 39 to 45: a pair in the read set only
    ];
    let expected = "3 0 begun 2\n\
        5 0 withdrawn 1\n\
        8 0 begun 2\n\
        10 0 written 1\n\
        12 0 written 1\n\
        14 0 read 0 1\n\
        17 1 begun 2\n\
        21 1 written 1\n\
        22 0 withdrawn 2\n\
        24 1 written 1\n\
        28 1 committed 3\n\
        31 0 begun 2\n\
        33 0 read 5 1\n\
        35 0 read 6 1\n\
        38 0 committed 2\n\
        41 0 begun 2\n\
        43 0 read 0 1\n\
        45 0 withdrawn 1\n";
    check_text(printed(rt.alloc(), &entries)?.as_str(), expected)?;
    Ok(())
}

// Stamps near the largest: one more commit of a write, and then none; reads still commit.
#[test]
fn largest_stamps(rt: HostRuntime) -> Result<(), Fail> {
    let heap = rt.alloc();
    let mut session = Session::new(heap)?;
    session.bank.move_to(0, LARGEST - 1);
    let mut input = Vec::new(heap);
    let entries = entries![
        B 0; S 0; S 0; W 0 1 7; S 0; C 0; S 0; S 0;                 // 1 to 8: object 1 at the largest stamp
        B 0; S 0; S 0; W 0 1 8; S 0; W 0 2 9; S 0; R 0 3; S 0;      // 9 to 17: process 0 holds objects 1 and 2
        C 0; S 0; S 0; S 0; S 0;                                    // 18 to 22: one pair, no stamp, two objects freed
        B 1; S 1; S 1; W 1 2 5; S 1; C 1; S 1; S 1;                 // 23 to 30: process 1 is at stamp 1
        B 1; S 1; S 1; R 1 1; S 1; W 1 3 1; S 1;                    // 31 to 37: the read sets the largest clock
        C 1; S 1; S 1; S 1;                                         // 38 to 41: one pair, no stamp, one object freed
        B 1; S 1; S 1; R 1 1; S 1; C 1; S 1;                        // 42 to 48
    ];
    let expected = "3 0 begun 2\n\
        5 0 written 1\n\
        8 0 committed 2\n\
        11 0 begun 2\n\
        13 0 written 1\n\
        15 0 written 1\n\
        17 0 read 0 1\n\
        22 0 aborted spent 4\n\
        25 1 begun 2\n\
        27 1 written 1\n\
        30 1 committed 2\n\
        33 1 begun 2\n\
        35 1 read 7 1\n\
        37 1 written 1\n\
        41 1 aborted spent 3\n\
        44 1 begun 2\n\
        46 1 read 7 1\n\
        48 1 committed 1\n";
    add_block(&mut input, 0, &entries)?;
    assert!(rt; session.carry_out(heap, 0, input.as_slice())?);
    check_text(session.text.as_str(), expected)?;
    Ok(())
}
