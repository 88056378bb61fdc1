use std::alloc::{AllocError, Global};
use std::test::Fail;
use tool_words::words::EnvName::{Flat, Part, Part2};
use tool_words::words::{Command, EnvName, WordsFault, read_words};

// The words of a line, with a bar between two words.
fn split(alloc: Global, line: &str) -> Result<Vec<String>, AllocError> {
    let mut words = Vec::new(alloc);
    for word in line.split('|') {
        words.push(String::from_str(alloc, word)?)?;
    }
    Ok(words)
}

// A line, and the file, starts, environment, budget and observer of the run that it asks for.
type RunRow = (
    &'static str,
    &'static str,
    Option<&'static str>,
    EnvName,
    u64,
    Option<&'static str>,
);

static RUNS: [RunRow; 22] = [
    ("run|p", "p", None, Part, 1_000_000, None),
    ("run|p|s", "p", Some("s"), Part, 1_000_000, None),
    ("run|p|--env|flat", "p", None, Flat, 1_000_000, None),
    ("run|--env=part|--budget=10|p", "p", None, Part, 10, None),
    (
        "run|p|--observer|L|s|--env|part2",
        "p",
        Some("s"),
        Part2,
        1_000_000,
        Some("L"),
    ),
    ("run|-", "-", None, Part, 1_000_000, None),
    ("run|", "", None, Part, 1_000_000, None),
    ("run||-", "", Some("-"), Part, 1_000_000, None),
    ("run|p|--", "p", None, Part, 1_000_000, None),
    ("run|--|-x", "-x", None, Part, 1_000_000, None),
    ("run|p|--|--env", "p", Some("--env"), Part, 1_000_000, None),
    ("run|p|--|--", "p", Some("--"), Part, 1_000_000, None),
    ("run|--env|flat|--|p", "p", None, Flat, 1_000_000, None),
    ("run|p|--observer=", "p", None, Part, 1_000_000, Some("")),
    ("run|p|--observer|", "p", None, Part, 1_000_000, Some("")),
    ("run|p|--observer|-", "p", None, Part, 1_000_000, Some("-")),
    (
        "run|p|--observer=-x",
        "p",
        None,
        Part,
        1_000_000,
        Some("-x"),
    ),
    (
        "run|p|--observer=a=b",
        "p",
        None,
        Part,
        1_000_000,
        Some("a=b"),
    ),
    ("run|p|--budget|1", "p", None, Part, 1, None),
    (
        "run|p|--budget|1099511627776",
        "p",
        None,
        Part,
        1_099_511_627_776,
        None,
    ),
    (
        "run|p|--budget|00000000000000000007",
        "p",
        None,
        Part,
        7,
        None,
    ),
    ("run|help", "help", None, Part, 1_000_000, None),
];

static OTHERS: [(&str, Command<'static>); 17] = [
    ("check|p", Command::Check { file: "p" }),
    ("infer|p", Command::Infer { file: "p" }),
    ("compile|p", Command::Compile { file: "p" }),
    ("certify|p", Command::Certify { file: "p" }),
    (
        "recheck|p|c",
        Command::Recheck {
            file: "p",
            certificate: "c",
        },
    ),
    (
        "meaning|p|--steps|0",
        Command::Meaning {
            file: "p",
            starts: None,
            steps: 0,
        },
    ),
    (
        "meaning|--steps=1099511627776|p|s",
        Command::Meaning {
            file: "p",
            starts: Some("s"),
            steps: 1_099_511_627_776,
        },
    ),
    (
        "audit|p|s|--observer|L",
        Command::Audit {
            file: "p",
            starts: "s",
            observer: "L",
            env: Part,
            budget: 1_000_000,
        },
    ),
    (
        "audit|--observer=H|--env|flat|p|--budget|7|s",
        Command::Audit {
            file: "p",
            starts: "s",
            observer: "H",
            env: Flat,
            budget: 7,
        },
    ),
    (
        "audit|p|s|--observer=",
        Command::Audit {
            file: "p",
            starts: "s",
            observer: "",
            env: Part,
            budget: 1_000_000,
        },
    ),
    (
        "cut|p|s|--observer|L",
        Command::Cut {
            file: "p",
            starts: "s",
            observer: "L",
            env: Part,
            budget: 1_000_000,
        },
    ),
    (
        "cut|p|--env=part2|s|--budget|50|--observer|L",
        Command::Cut {
            file: "p",
            starts: "s",
            observer: "L",
            env: Part2,
            budget: 50,
        },
    ),
    ("gen|1|0", Command::Gen { size: 1, number: 0 }),
    (
        "gen|10000|2147483647",
        Command::Gen {
            size: 10_000,
            number: 2_147_483_647,
        },
    ),
    ("gen|007|5", Command::Gen { size: 7, number: 5 }),
    (
        "blackbox|r|--first|4|--budget|40",
        Command::Blackbox {
            ready: "r",
            first: 4,
            budget: 40,
        },
    ),
    (
        "blackbox|--first=1099511627776|r",
        Command::Blackbox {
            ready: "r",
            first: 1_099_511_627_776,
            budget: 1_000_000,
        },
    ),
];

static REFUSED: [&str; 80] = [
    "",
    "--",
    "-",
    "help",
    "Check|p",
    "check ",
    "--env|flat|run|p",
    "check",
    "check|p|q",
    "check|p|--env|flat",
    "infer|p|--budget|5",
    "compile",
    "run",
    "run|--env|flat",
    "run|p|s|t",
    "run|p|--|--|x",
    "run|p|s|-",
    "run|p|--env|flat|--env|part",
    "run|p|--env|flat|--env=flat",
    "run|p|--budget=1|--budget=1",
    "run|p|--observer|L|--observer|L",
    "run|p|--what",
    "run|p|--steps|3",
    "run|p|-e|flat",
    "run|p|--en|flat",
    "run|p|--ENV=flat",
    "run|p|--env flat",
    "run|p|--=x",
    "run|p|---",
    "run|p|-3",
    "run|p|-x=1",
    "run|p|--help",
    "run|p|-h",
    "run|p|--version",
    "run|p|--env",
    "run|p|--env|--budget|3",
    "run|p|--env|--|flat",
    "run|--|p|--env|flat",
    "run|p|--observer|-x",
    "run|p|--observer|--",
    "run|p|--env=",
    "run|p|--env|",
    "run|p|--env|-",
    "run|p|--env|Flat",
    "run|p|--env|part3",
    "run|p|--budget=",
    "run|p|--budget|",
    "run|p|--budget|-3",
    "run|p|--budget=-3",
    "run|p|--budget|+3",
    "run|p|--budget| 3",
    "run|p|--budget|3a",
    "run|p|--budget|0x3",
    "run|p|--budget|0",
    "run|p|--budget|1099511627777",
    "run|p|--budget|000000000000000000007",
    "run|p|--budget|99999999999999999999",
    "run|p|--budget|18446744073709551617",
    "meaning|p",
    "meaning|p|--steps",
    "meaning|p|--steps=",
    "meaning|p|--steps|1099511627777",
    "meaning|p|--steps|1|--env|flat",
    "audit|p|s",
    "audit|p|--observer|L",
    "audit|p|s|t|--observer|L",
    "audit|p|s|--observer|L|--steps|3",
    "audit|p|s|--observer|L|--budget|0",
    "cut|p|s",
    "cut|p|s|--observer|L|--env|none",
    "gen|1",
    "gen|0|0",
    "gen|10001|0",
    "gen|1|2147483648",
    "gen|1|-1",
    "gen|1|0|2",
    "blackbox|r",
    "blackbox|r|--first|0",
    "blackbox|r|--first|1099511627777",
    "recheck|p",
];

fn takes(alloc: Global, line: &str, want: Command<'_>) -> Result<bool, AllocError> {
    let words = split(alloc, line)?;
    Ok(read_words(alloc, words.as_slice()) == Ok(want))
}

#[test]
fn takes_the_words_of_run(rt: HostRuntime) -> Result<(), Fail> {
    for (line, file, starts, env, budget, observer) in &RUNS {
        let want = Command::Run {
            file,
            starts: *starts,
            env: *env,
            budget: *budget,
            observer: *observer,
        };
        assert!(rt; takes(rt.alloc(), line, want)?, "at {line}");
    }
    Ok(())
}

#[test]
fn takes_the_words_of_each_command(rt: HostRuntime) -> Result<(), Fail> {
    for (line, want) in &OTHERS {
        assert!(rt; takes(rt.alloc(), line, *want)?, "at {line}");
    }
    Ok(())
}

#[test]
fn refuses_words(rt: HostRuntime) -> Result<(), Fail> {
    for line in &REFUSED {
        let words = split(rt.alloc(), line)?;
        let read = read_words(rt.alloc(), words.as_slice());
        assert!(rt; read == Err(WordsFault::Usage), "at {line}");
    }
    Ok(())
}

#[test]
fn refuses_no_words(rt: HostRuntime) -> Result<(), Fail> {
    let read = read_words(rt.alloc(), &[]);
    assert!(rt; read == Err(WordsFault::Usage));
    Ok(())
}
