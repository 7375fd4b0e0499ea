// Command lines with options in orders of their own, and their faults.
use fb_report::Bytes;
use fb_words::{CheckWords, Command, Policy, ReplayWords, UsageReason, WordsError, read_words};
use std::alloc::Global;
use std::process::Abort;
use std::test::Fail;

// The words of a text, which have one space between them.
fn split(alloc: Global, text: &str) -> Result<Vec<String>, Fail> {
    let mut words = Vec::new(alloc);
    for word in text.split(' ') {
        words.push(String::from_str(alloc, word)?)?;
    }
    Ok(words)
}

#[test]
fn reads_a_replay(rt: HostRuntime) -> Result<(), Fail> {
    let text =
        "freeblock replay --bytes=sha256 --trace=t=1 --device 007 --spill s --policy sptf --params k --puts=p";
    let words = split(rt.alloc(), text)?;
    match &read_words(rt.alloc(), words.as_slice()) {
        Ok(Command::Replay(words)) => check_replay(&rt, words),
        _ => assert!(rt; false, "it is a replay"),
    }
    Ok(())
}

fn check_replay(rt: &impl Abort, words: &ReplayWords) {
    assert_eq!(rt; words.params.as_str(), "k");
    assert_eq!(rt; words.trace.as_str(), "t=1");
    assert!(rt; matches!(words.policy, Policy::Sptf));
    assert!(rt; matches!(words.bytes, Bytes::Digest));
    assert!(rt; words.calls.is_none());
    assert!(rt; words.back.is_none());
    assert_eq!(rt; words.puts.as_deref(), Some("p"));
    assert_eq!(rt; words.spill.as_deref(), Some("s"));
    assert_eq!(rt; (words.until, words.device), (0, 7));
    assert!(rt; !words.summary);
}

#[test]
fn reads_a_check(rt: HostRuntime) -> Result<(), Fail> {
    let text =
        "freeblock check --back=b --fore=f --calls=c --bytes=hex --device=7 --until=0.012 --policy=clook --trace=t --params=k";
    let words = split(rt.alloc(), text)?;
    match &read_words(rt.alloc(), words.as_slice()) {
        Ok(Command::Check(words)) => check_check(&rt, words),
        _ => assert!(rt; false, "it is a check"),
    }
    Ok(())
}

fn check_check(rt: &impl Abort, words: &CheckWords) {
    assert_eq!(rt; words.params.as_str(), "k");
    assert_eq!(rt; words.trace.as_str(), "t");
    assert!(rt; matches!(words.policy, Policy::Clook));
    assert_eq!(rt; words.calls.as_str(), "c");
    assert_eq!(rt; words.fore.as_str(), "f");
    assert_eq!(rt; words.back.as_str(), "b");
    assert_eq!(rt; (words.until, words.device), (12_000, 7));
    assert!(rt; matches!(words.bytes, Bytes::Dump));
}

#[test]
fn faults_of_checks(rt: HostRuntime) -> Result<(), Fail> {
    let cases = [
        (
            "freeblock check --params=k --trace=t --policy=fcfs --calls=c --back=b",
            7,
            "MissingOption 4",
        ),
        (
            "freeblock check --params=k --trace=t --policy=fcfs --calls=c --fore=f",
            7,
            "MissingOption 5",
        ),
        (
            "freeblock check --params=k --summary --fore=f --fore=f",
            3,
            "UnknownOption",
        ),
        ("freeblock check --fore=f --fore f", 3, "OptionTwice"),
        ("freeblock replay --params=k --fore=f", 3, "UnknownOption"),
    ];
    for (text, position, reason) in cases {
        check_fault(&rt, rt.alloc(), text, position, reason)?;
    }
    Ok(())
}

#[test]
fn faults_of_puts(rt: HostRuntime) -> Result<(), Fail> {
    let cases = [
        (
            "freeblock replay --params=k --trace=t --policy=fcfs --puts=p",
            6,
            "PutsAndSpill",
        ),
        (
            "freeblock replay --params=k --trace=t --policy=fcfs --spill=s --calls=c --back=b",
            8,
            "PutsAndSpill",
        ),
        (
            "freeblock replay --params=k --trace=t --policy=fcfs --puts=p --back=b",
            7,
            "CallsAndBack",
        ),
        (
            "freeblock replay --params=k --trace=t --puts=p",
            5,
            "MissingOption 2",
        ),
        ("freeblock replay --puts=p --puts=q", 3, "OptionTwice"),
        ("freeblock replay --spill", 2, "NoValue"),
        ("freeblock make --puts=p", 2, "UnknownOption"),
        ("freeblock check --puts=p", 2, "UnknownOption"),
        ("freeblock check --spill=s", 2, "UnknownOption"),
        ("freeblock array --puts=p", 2, "UnknownOption"),
    ];
    for (text, position, reason) in cases {
        check_fault(&rt, rt.alloc(), text, position, reason)?;
    }
    Ok(())
}

// The words of the text are refused for this reason at this position.
fn check_fault(
    rt: &impl Abort,
    alloc: Global,
    text: &str,
    position: u32,
    reason: &str,
) -> Result<(), Fail> {
    let words = split(alloc, text)?;
    match &read_words(alloc, words.as_slice()) {
        Err(WordsError::Fault(fault)) => {
            assert_eq!(rt;
                (fault.place, spelled(fault.reason)),
                (position, reason),
                "for {text}"
            )
        }
        _ => assert!(rt; false, "{text} is refused"),
    }
    Ok(())
}

// The reasons that are looked for here.
fn spelled(reason: UsageReason) -> &'static str {
    match reason {
        UsageReason::UnknownOption => "UnknownOption",
        UsageReason::NoValue => "NoValue",
        UsageReason::OptionTwice => "OptionTwice",
        UsageReason::MissingOption(2) => "MissingOption 2",
        UsageReason::MissingOption(4) => "MissingOption 4",
        UsageReason::MissingOption(5) => "MissingOption 5",
        UsageReason::CallsAndBack => "CallsAndBack",
        UsageReason::PutsAndSpill => "PutsAndSpill",
        _ => "another",
    }
}
