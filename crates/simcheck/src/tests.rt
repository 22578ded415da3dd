//! Whole runs over files in memory.

use crate::run::check_run;
use crate::status::CheckStatus;
use crate::tables::{DAMAGED, FOR_ALL_EXISTS, RUNS, WON};
use ss_shelf::{FailingShelf, FailingSink, MemoryShelf, MemorySink, Shelf};
use std::alloc::{AllocGlobal, Global};
use std::test::*;

// A run over these two files: its status and what it printed.
fn ends(
    rt: &(impl std::process::Abort + AllocGlobal),
    script: &str,
    file: &str,
    text: &str,
) -> Result<(), Fail> {
    let alloc = rt.alloc();
    let mut shelf = MemoryShelf::new(alloc);
    let mut out = MemorySink::new(alloc);
    assert!(rt; shelf.store("a.smt2", script.as_bytes()).is_ok());
    assert!(rt; shelf.store("a.ss", file.as_bytes()).is_ok());
    let words = words(alloc)?;
    let ended = check_run(alloc, words.as_slice(), &mut shelf, &mut out);
    assert!(rt; out.bytes() == text.as_bytes());
    let status = if text.starts_with("refused") {
        CheckStatus::Refused
    } else if text.starts_with("rejected") {
        CheckStatus::Rejected
    } else {
        CheckStatus::Accepted
    };
    assert!(rt; ended == status);
    Ok(())
}

fn words(alloc: Global) -> Result<Vec<String>, Fail> {
    let mut words = Vec::new(alloc);
    words.push(String::from_str(alloc, "a.smt2")?)?;
    words.push(String::from_str(alloc, "a.ss")?)?;
    Ok(words)
}

// The text with another line in the place of this one, counted from 1.
fn damaged(alloc: Global, text: &str, line: u64, other: &str) -> Result<String, Fail> {
    let mut all = String::new(alloc);
    let mut number: u64 = 1;
    for old in text.lines() {
        all.push_str(if number == line { other } else { old })?;
        all.push_str("\n")?;
        number = number.wrapping_add(1);
    }
    Ok(all)
}

#[test]
fn runs_end_so(rt: HostRuntime) -> Result<(), Fail> {
    for (script, file, text) in RUNS {
        ends(&rt, script, file, text)?;
    }
    Ok(())
}

#[test]
fn damaged_files_are_rejected(rt: HostRuntime) -> Result<(), Fail> {
    for (line, other, text) in DAMAGED {
        let file = damaged(rt.alloc(), WON, *line, other)?;
        ends(&rt, FOR_ALL_EXISTS, file.as_str(), text)?;
    }
    Ok(())
}

// The first lines of a text.
fn cut(alloc: Global, text: &str, lines: u64) -> Result<String, Fail> {
    let mut all = String::new(alloc);
    let mut number: u64 = 0;
    for line in text.lines() {
        if number < lines {
            all.push_str(line)?;
            all.push_str("\n")?;
        }
        number = number.wrapping_add(1);
    }
    Ok(all)
}

#[test]
fn a_cut_file_is_rejected_behind_its_last_line(rt: HostRuntime) -> Result<(), Fail> {
    for lines in 0u64..13 {
        let file = cut(rt.alloc(), WON, lines)?;
        let line = lines.wrapping_add(1);
        let text = format!(in rt.alloc(); "rejected {line} form\n")?;
        ends(&rt, FOR_ALL_EXISTS, file.as_str(), text.as_str())?;
    }
    Ok(())
}

// The words are not SCRIPT and FILE.
fn is_usage(rt: &(impl std::process::Abort + AllocGlobal), words: &[&str]) -> Result<(), Fail> {
    let alloc = rt.alloc();
    let mut all = Vec::new(alloc);
    for word in words {
        all.push(String::from_str(alloc, word)?)?;
    }
    let mut shelf = MemoryShelf::new(alloc);
    let mut out = MemorySink::new(alloc);
    assert!(rt; check_run(alloc, all.as_slice(), &mut shelf, &mut out) == CheckStatus::Usage);
    assert!(rt; out.bytes() == b"usage: simcheck SCRIPT FILE\n".as_slice());
    Ok(())
}

#[test]
fn other_words_are_usage(rt: HostRuntime) -> Result<(), Fail> {
    is_usage(&rt, &[])?;
    is_usage(&rt, &["a.smt2"])?;
    is_usage(&rt, &["a.smt2", ""])?;
    is_usage(&rt, &["a.smt2", "-x"])?;
    is_usage(&rt, &["--", "a.ss"])?;
    is_usage(&rt, &["a.smt2", "a.ss", "b.ss"])
}

#[test]
fn a_missing_file_is_a_read_fault(rt: HostRuntime) -> Result<(), Fail> {
    let alloc = rt.alloc();
    let mut shelf = MemoryShelf::new(alloc);
    let mut out = MemorySink::new(alloc);
    let words = words(alloc)?;
    assert!(&rt; check_run(alloc, &[], &mut shelf, &mut out) == CheckStatus::Usage);
    assert!(&rt; out.bytes() == b"usage: simcheck SCRIPT FILE\n".as_slice());
    assert!(&rt;
        check_run(alloc, words.as_slice(), &mut shelf, &mut out) == CheckStatus::ReadFault
    );
    assert!(&rt; shelf.store("a.smt2", FOR_ALL_EXISTS.as_bytes()).is_ok());
    assert!(&rt;
        check_run(alloc, words.as_slice(), &mut shelf, &mut out) == CheckStatus::ReadFault
    );
    assert!(&rt; out.bytes() == b"usage: simcheck SCRIPT FILE\n".as_slice());
    Ok(())
}

#[test]
fn a_faulty_script_is_refused_before_the_file(rt: HostRuntime) -> Result<(), Fail> {
    let alloc = rt.alloc();
    let mut shelf = MemoryShelf::new(alloc);
    let mut out = MemorySink::new(alloc);
    let words = words(alloc)?;
    assert!(&rt;
        shelf
            .store("a.smt2", b"(set-logic QF_UF)\n".as_slice())
            .is_ok()
    );
    assert!(&rt; check_run(alloc, words.as_slice(), &mut shelf, &mut out) == CheckStatus::Refused);
    assert!(&rt; out.bytes() == b"refused 4 Logic 1 12\n".as_slice());
    Ok(())
}

#[test]
fn failing_calls_have_their_status(rt: HostRuntime) -> Result<(), Fail> {
    let alloc = rt.alloc();
    let words = words(alloc)?;
    for call in 0u64..2 {
        let mut inner = MemoryShelf::new(alloc);
        assert!(&rt; inner.store("a.smt2", FOR_ALL_EXISTS.as_bytes()).is_ok());
        assert!(&rt; inner.store("a.ss", WON.as_bytes()).is_ok());
        let mut shelf = FailingShelf::new(
            alloc,
            inner,
            vec![in alloc; call].map_err(|_| "numbers")?,
        );
        let mut out = MemorySink::new(alloc);
        assert!(&rt;
            check_run(alloc, words.as_slice(), &mut shelf, &mut out) == CheckStatus::ReadFault
        );
        assert!(&rt; out.bytes().is_empty());
    }
    let mut shelf = MemoryShelf::new(alloc);
    assert!(&rt; shelf.store("a.smt2", FOR_ALL_EXISTS.as_bytes()).is_ok());
    assert!(&rt; shelf.store("a.ss", WON.as_bytes()).is_ok());
    let numbers = vec![in alloc; 0u64].map_err(|_| "numbers")?;
    let mut out = FailingSink::new(MemorySink::new(alloc), numbers);
    assert!(&rt;
        check_run(alloc, words.as_slice(), &mut shelf, &mut out) == CheckStatus::PrintFault
    );
    Ok(())
}
