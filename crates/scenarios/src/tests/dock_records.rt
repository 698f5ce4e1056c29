// The engine at dock records.
use anyhow::Context;
use banks::{CommonBank, LARGEST};
use docks::{Dock, Hire};
use engine::{place, step};
use std::test::Fail;
use tables::{Answer, Conflict, Memory, Request};

// The most steps that a request of these runs takes.
const MOST_STEPS: usize = 8;

// A purse in debt, with bicycle 17 out since minute 905.
const DEBT: Dock = Dock::Purse {
    balance: -250,
    hire: Some(Hire {
        bicycle: 17,
        start: 905,
    }),
};

// Places a request of a process and makes its steps up to the answer.
fn finish(
    memory: &mut Memory<Dock>,
    bank: &mut CommonBank,
    process: usize,
    request: Request<Dock>,
) -> Result<Answer<Dock>, Fail> {
    place(memory, process, request)?;
    for _ in 0..MOST_STEPS {
        if let Some(answer) = step(memory, bank, process)?.answer {
            return Ok(answer);
        }
    }
    Err(Fail::new("the request has no answer"))
}

// The common bank starts one below its largest number: a purse is written, read back, committed and read by the other
// process, and the next commit of a write finds no stamp.
#[test]
fn purse_and_bay(rt: HostRuntime) -> Result<(), Fail> {
    let contents = [
        Dock::Tariff { tenths: 125 },
        Dock::Bay { bicycle: 17 },
        Dock::Purse {
            balance: 1000,
            hire: None,
        },
    ];
    let mut memory = Memory::fresh(rt.alloc(), &contents, 2)?;
    let mut bank = CommonBank::at(LARGEST - 1).context("no such bank")?;
    let pay = Request::Write {
        object: 2,
        content: DEBT,
    };
    let empty = Request::Write {
        object: 1,
        content: Dock::EmptyBay,
    };
    let purse = Request::Read { object: 2 };
    let begun = Answer::Begun { steps: 2 };
    let written = Answer::Written { steps: 1 };
    let in_debt = Answer::Read {
        content: DEBT,
        steps: 1,
    };

    // Process 0 seals with the largest stamp.
    assert_eq!(rt; finish(&mut memory, &mut bank, 0, Request::Begin)?, begun);
    assert_eq!(rt; finish(&mut memory, &mut bank, 0, pay)?, written);
    assert_eq!(rt; finish(&mut memory, &mut bank, 0, purse)?, in_debt);
    let committed = Answer::Committed { steps: 2 };
    assert_eq!(rt;
        finish(&mut memory, &mut bank, 0, Request::Commit)?,
        committed
    );

    // Process 1 certifies one pair, finds no stamp and frees one object.
    assert_eq!(rt; finish(&mut memory, &mut bank, 1, Request::Begin)?, begun);
    assert_eq!(rt; finish(&mut memory, &mut bank, 1, purse)?, in_debt);
    assert_eq!(rt; finish(&mut memory, &mut bank, 1, empty)?, written);
    let spent = Answer::Aborted {
        conflict: Conflict::Spent,
        steps: 3,
    };
    assert_eq!(rt; finish(&mut memory, &mut bank, 1, Request::Commit)?, spent);

    // The bay is free and as it was.
    assert_eq!(rt; finish(&mut memory, &mut bank, 0, Request::Begin)?, begun);
    let bay = Dock::Bay { bicycle: 17 };
    let tariff = Dock::Tariff { tenths: 125 };
    for (object, content) in [(1, bay), (0, tariff)] {
        let read = finish(&mut memory, &mut bank, 0, Request::Read { object })?;
        assert_eq!(rt; read, Answer::Read { content, steps: 1 });
    }
    Ok(())
}
