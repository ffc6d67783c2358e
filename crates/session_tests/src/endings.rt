//! Input that is no commands, and how conversations end.

use crate::talking::is_talk;
use speech::{Ending, InputFault};
use std::alloc::{AllocError, Global};
use std::hash::RandomState;
use std::test::Fail;

/// What is read, what is replied, and how the conversation ends.
struct Row {
    asked: &'static str,
    replied: &'static str,
    ending: Ending,
}

const ROWS: &[Row] = &[
    Row {
        asked: "",
        replied: "",
        ending: Ending::End,
    },
    Row {
        asked: "status",
        replied: "no 2 28\nthe input ends in a command\n",
        ending: Ending::Refused(InputFault::Cut),
    },
    Row {
        asked: "\n",
        replied: "no 2 16\nunknown command\n",
        ending: Ending::End,
    },
    Row {
        asked: "run \n",
        replied: "no 2 16\nunknown command\n",
        ending: Ending::End,
    },
    Row {
        asked: "Run\n",
        replied: "no 2 16\nunknown command\n",
        ending: Ending::End,
    },
    Row {
        asked: "run\r\n",
        replied: "no 2 16\nunknown command\n",
        ending: Ending::End,
    },
    Row {
        asked: "add\n",
        replied: "no 2 8\nno size\n",
        ending: Ending::Refused(InputFault::Size),
    },
    Row {
        asked: "add x\n",
        replied: "no 2 8\nno size\n",
        ending: Ending::Refused(InputFault::Size),
    },
    Row {
        asked: "add 007\n",
        replied: "no 2 8\nno size\n",
        ending: Ending::Refused(InputFault::Size),
    },
    Row {
        asked: "add -1\n",
        replied: "no 2 8\nno size\n",
        ending: Ending::Refused(InputFault::Size),
    },
    Row {
        asked: "add 1 2\n",
        replied: "no 2 8\nno size\n",
        ending: Ending::Refused(InputFault::Size),
    },
    Row {
        asked: "query 18446744073709551616\n",
        replied: "no 2 8\nno size\n",
        ending: Ending::Refused(InputFault::Size),
    },
    Row {
        asked: "add 959\n",
        replied: "no 2 28\nthe input ends in a command\n",
        ending: Ending::Refused(InputFault::Cut),
    },
    Row {
        asked: "version\n",
        replied: "ok 24\nelc session 1\nelc 0.9.0\n",
        ending: Ending::End,
    },
    Row {
        asked: "unsatisfiable\nrun\nunsatisfiable\n",
        replied: "no 2 19\nnot run to its end\nok 19\nfacts 8\nconsistent\nok 0\n",
        ending: Ending::End,
    },
    Row {
        asked: "run 1\n",
        replied: "ok 19\nfacts 8\nconsistent\n",
        ending: Ending::End,
    },
    Row {
        asked: "add 17\nSubClassOf(:B :C)\nrun 1\nrun 4294967295\n",
        replied: "ok 0\nno 5 18\nfacts 10 served 5\nok 20\nfacts 12\nconsistent\n",
        ending: Ending::End,
    },
    Row {
        asked: "run 0\nrun 01\nrun 4294967296\n",
        replied: "no 2 16\nunknown command\nno 2 16\nunknown command\nno 2 16\nunknown command\n",
        ending: Ending::End,
    },
    Row {
        asked: "addition 3\nrun\n",
        replied: "no 2 16\nunknown command\nok 19\nfacts 8\nconsistent\n",
        ending: Ending::End,
    },
    Row {
        asked: "add 0\n\nrun\n",
        replied: "ok 0\nok 19\nfacts 8\nconsistent\n",
        ending: Ending::End,
    },
    Row {
        asked: "add 2\nabc\nrun\n",
        replied: "no 2 30\nno line feed behind the bytes\n",
        ending: Ending::Refused(InputFault::LineFeed),
    },
    Row {
        asked: "add 2\na\n",
        replied: "no 2 28\nthe input ends in a command\n",
        ending: Ending::Refused(InputFault::Cut),
    },
    Row {
        asked: "add 3\nabc",
        replied: "no 2 28\nthe input ends in a command\n",
        ending: Ending::Refused(InputFault::Cut),
    },
    Row {
        asked: "add 958\nabc",
        replied: "no 2 28\nthe input ends in a command\n",
        ending: Ending::Refused(InputFault::Cut),
    },
    Row {
        asked: "add 3\nabcd",
        replied: "no 2 30\nno line feed behind the bytes\n",
        ending: Ending::Refused(InputFault::LineFeed),
    },
];

#[test]
fn input_is_refused(rt: HostRuntime) -> Result<(), Fail> {
    let state = RandomState::new(&rt)?;
    for row in ROWS {
        let asked = row.asked.as_bytes();
        assert!(rt;
            is_talk(rt.alloc(), state, asked, row.replied, row.ending),
            "{}",
            row.asked
        );
    }
    Ok(())
}

/// Two commands with one byte more than there is room for, and behind them one that is done.
fn asked_past_the_limit(alloc: Global) -> Result<String, AllocError> {
    let mut asked = String::new(alloc);
    for word in &["add", "query"] {
        asked.push_str(*word)?;
        asked.push_str(" 959\n")?;
        for _ in 0..137 {
            asked.push_str("letters")?;
        }
        asked.push_str("\n")?;
    }
    asked.push_str("run\n")?;
    Ok(asked)
}

const TOLD_PAST_THE_LIMIT: &str =
    "no 5 27\nlimit: more than 958 bytes\nno 5 27\nlimit: more than 958 bytes\nok 19\nfacts 8\nconsistent\n";

#[test]
fn more_bytes_than_there_is_room_for(rt: HostRuntime) -> Result<(), Fail> {
    let state = RandomState::new(&rt)?;
    let asked = asked_past_the_limit(rt.alloc())?;
    assert!(rt;
        is_talk(
            rt.alloc(),
            state,
            asked.as_bytes(),
            TOLD_PAST_THE_LIMIT,
            Ending::End,
        )
    );
    Ok(())
}

/// Commands whose bytes are no text.
const NO_TEXT: &[u8] = b"supers x:\xff\nadd 2\na\xff\nquery 1\n\x80\n";

const TOLD: &str = "no 2 16\nunknown command\nno 3 13\nU1 at byte 1\nno 3 13\nU1 at byte 0\n";

#[test]
fn bytes_that_are_no_text(rt: HostRuntime) -> Result<(), Fail> {
    let state = RandomState::new(&rt)?;
    assert!(rt; is_talk(rt.alloc(), state, NO_TEXT, TOLD, Ending::End));
    Ok(())
}
