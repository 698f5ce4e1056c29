// Transactions that are given up because another process holds or has changed an object.
use super::{check_text, printed};
use blocks::Entry;
use std::test::Fail;

// Another process holds the object: the transaction is given up, and what it holds is freed first.
#[test]
fn held_objects(rt: HostRuntime) -> Result<(), Fail> {
    let entries = entries![
        B 0; S 0; S 0; W 0 1 7; S 0;                                // 1 to 5: process 0 holds object 1
        B 1; S 1; S 1; R 1 1; S 1;                                  // 6 to 10: nothing to free
        B 1; S 1; S 1; W 1 2 5; S 1; W 1 3 6; S 1;                  // 11 to 17: process 1 holds objects 2 and 3
        R 1 1; S 1; S 1; S 1;                                       // 18 to 21: the conflict, and two objects freed
        B 1; S 1; S 1; W 1 1 9; S 1;                                // 22 to 26: a write finds the holder too
        W 0 2 8; S 0; C 0; S 0; S 0; S 0;                           // 27 to 32: object 2 is free; sealing, two stores
        B 1; S 1; S 1; R 1 2; S 1; R 1 1; S 1; R 1 3; S 1;          // 33 to 41: no content of the given-up writes
        C 1; S 1; S 1; S 1;                                         // 42 to 45
    ];
    let expected = "3 0 begun 2\n\
        5 0 written 1\n\
        8 1 begun 2\n\
        10 1 aborted held 1 1\n\
        13 1 begun 2\n\
        15 1 written 1\n\
        17 1 written 1\n\
        21 1 aborted held 1 3\n\
        24 1 begun 2\n\
        26 1 aborted held 1 1\n\
        28 0 written 1\n\
        32 0 committed 3\n\
        35 1 begun 2\n\
        37 1 read 8 1\n\
        39 1 read 7 1\n\
        41 1 read 0 1\n\
        45 1 committed 3\n";
    check_text(printed(rt.alloc(), &entries)?.as_str(), expected)?;
    Ok(())
}

// A stamp above the clock starts an extension, which finds that an object of the read set is changed or held. The
// block is full: it has 63 records.
#[test]
fn extensions_that_fail(rt: HostRuntime) -> Result<(), Fail> {
    let entries = entries![
        B 1; S 1; S 1; R 1 0; S 1;                                  // 1 to 5: object 0 at stamp 0
        B 0; S 0; S 0; W 0 0 4; S 0; W 0 2 6; S 0;                  // 6 to 12
        C 0; S 0; S 0; S 0;                                         // 13 to 16: objects 0 and 2 at stamp 1
        R 1 2; S 1; S 1;                                            // 17 to 19: object 0 has changed
        B 1; S 1; S 1; R 1 3; S 1;                                  // 20 to 24: object 3 at stamp 0
        B 0; S 0; S 0; W 0 3 9; S 0; C 0; S 0; S 0;                 // 25 to 32: object 3 at stamp 2
        W 1 2 5; S 1; S 1; S 1;                                     // 33 to 36: held, object 3 has changed, freed
        B 1; S 1; S 1; R 1 1; S 1;                                  // 37 to 41: object 1 at stamp 0
        B 0; S 0; S 0; W 0 1 8; S 0;                                // 42 to 46: process 0 holds object 1
        R 1 0; S 1; S 1;                                            // 47 to 49: object 1 is held
        C 0; S 0; S 0;                                              // 50 to 52: object 1 at stamp 3
        B 1; S 1; S 1; R 1 1; S 1; R 1 2; S 1; R 1 3; S 1; R 1 0; S 1; // 53 to 63: the first read sets the clock to 3
    ];
    let expected = "3 1 begun 2\n\
        5 1 read 0 1\n\
        8 0 begun 2\n\
        10 0 written 1\n\
        12 0 written 1\n\
        16 0 committed 3\n\
        19 1 aborted changed 0 2\n\
        22 1 begun 2\n\
        24 1 read 0 1\n\
        27 0 begun 2\n\
        29 0 written 1\n\
        32 0 committed 2\n\
        36 1 aborted changed 3 3\n\
        39 1 begun 2\n\
        41 1 read 0 1\n\
        44 0 begun 2\n\
        46 0 written 1\n\
        49 1 aborted held 1 2\n\
        52 0 committed 2\n\
        55 1 begun 2\n\
        57 1 read 8 1\n\
        59 1 read 6 1\n\
        61 1 read 9 1\n\
        63 1 read 4 1\n";
    check_text(printed(rt.alloc(), &entries)?.as_str(), expected)?;
    Ok(())
}

// Certification finds that an object of the read set is held or changed.
#[test]
fn certification(rt: HostRuntime) -> Result<(), Fail> {
    let entries = entries![
        B 1; S 1; S 1; R 1 0; S 1;                                  // 1 to 5: object 0 at stamp 0
        B 0; S 0; S 0; W 0 0 4; S 0;                                // 6 to 10: process 0 holds it
        C 1; S 1;                                                   // 11 and 12
        C 0; S 0; S 0;                                              // 13 to 15: object 0 at stamp 1
        B 1; S 1; S 1; R 1 0; S 1;                                  // 16 to 20
        B 0; S 0; S 0; W 0 0 5; S 0; C 0; S 0; S 0;                 // 21 to 28: object 0 at stamp 2
        C 1; S 1;                                                   // 29 and 30: object 0 has changed
        B 1; S 1; S 1; R 1 1; S 1; R 1 2; S 1; W 1 3 8; S 1;        // 31 to 39: process 1 holds object 3
        B 0; S 0; S 0; W 0 2 6; S 0; C 0; S 0; S 0;                 // 40 to 47: object 2 at stamp 3
        C 1; S 1; S 1; S 1;                                         // 48 to 51: passes, object 2 has changed, freed
        B 1; S 1; S 1; R 1 3; S 1; D 1; S 1;                        // 52 to 58: object 3 is as it was
    ];
    let expected = "3 1 begun 2\n\
        5 1 read 0 1\n\
        8 0 begun 2\n\
        10 0 written 1\n\
        12 1 aborted held 0 1\n\
        15 0 committed 2\n\
        18 1 begun 2\n\
        20 1 read 4 1\n\
        23 0 begun 2\n\
        25 0 written 1\n\
        28 0 committed 2\n\
        30 1 aborted changed 0 1\n\
        33 1 begun 2\n\
        35 1 read 0 1\n\
        37 1 read 0 1\n\
        39 1 written 1\n\
        42 0 begun 2\n\
        44 0 written 1\n\
        47 0 committed 2\n\
        51 1 aborted changed 2 3\n\
        54 1 begun 2\n\
        56 1 read 0 1\n\
        58 1 withdrawn 1\n";
    check_text(printed(rt.alloc(), &entries)?.as_str(), expected)?;
    Ok(())
}
