//! Vectors, and files that are damaged in one place.

use crate::damaged::with_line;
use std::alloc::AllocError;
use std::test::*;
use strat_text::*;

const OPEN_END: &str =
    "simsat-strategy 1\ngoals 1\ngoal 0 sat\nturns to\nt\no 1\nm 1 1 1 0\nproof 4\npath 0\ndef 1 0\nsum 1 0 1 1 1\nfalse 2\nend\n";

/// The same, with a line `learn`.
const LEARNT: &str =
    "simsat-strategy 2\ngoals 1\ngoal 0 sat\nturns to\nt\no 1\nm 1 1 1 0\nproof 6\npath 0\ndef 1 0\nlearn >= -1\nsum 1 0 1 1 1\nfalse 3\nfalse 2\nend\n";

/// A node has a move twice, and the file goes wrong again further on.
const REPEATED: &str =
    "simsat-strategy 1\ngoals 1\ngoal 0 sat\nturns oo\no 3\nm 1 0\no 1\nm 1 0\nm 1 1\no 2\nm 1 0 1 0\nm 1 0 1 0\nm 1 0\nproof x\n";

/// Files that are read.
const WHOLE: &[&str] = &[
    OPEN_END,
    "simsat-strategy 1\ngoals 1\ngoal 0 unsat\nturns to\nt\no 1\nm 1 -1 1 0\nproof 4\npath 0\ndef 1 1\nsum 1 0 1 1 1\nfalse 2\nend\n",
    "simsat-strategy 1\ngoals 1\ngoal 0 sat\nturns to\nt\no 1\nm 2 1 1 0\nproof 13\npath 0\npart 0 0\npart 0 1\ndef 1 0\ndef 1 1\ncases 1 2\nsum 1 3 1 5 1\nfalse 6\ncases 2 2\nsum 1 5 1 6 1\nfalse 7\nsum 1 4 1 6 1\nfalse 7\nend\n",
    "simsat-strategy 1\ngoals 1\ngoal 0 sat\nturns -\nproof 2\npath 0\ncases 0 0\nend\n",
    "simsat-strategy 1\ngoals 1\ngoal 0 unsat\nturns t\nt\nproof 7\npath 0\npart 0 0\npart 0 1\ncube 1 2\nleast 0 2\nfalse 1\nfalse 0\nend\n",
    "simsat-strategy 1\ngoals 2\ngoal 0 unknown\ngoal 1 unsat\nturns oo\no 2\nm 1 0\no 2\nm 2 1 1 0\nm 2 1 -1 0\nm 1 4503599627370496\no 1\nm 1 0\nproof 3\nsplit | 2 -1 1 0 -3 1048575\nfalse 4294967295\nfalse 0\nend\n",
    "simsat-strategy 1\ngoals 0\nend\n",
    LEARNT,
    "simsat-strategy 2\ngoals 1\ngoal 0 unsat\nturns -\nproof 3\nlearn | 2 0 1 0 > 1 !| 4503599627370496 -1 2 1048575 >= -4503599627370496 -3 1 1 7\nfalse 0\nfalse 0\nend\n",
];

/// A line of LEARNT, what stands in its place, and the place of the fault (0, 0 for none).
const UNLEARNT: &[(u64, &str, (u64, u64))] = &[
    (1, "simsat-strategy 1", (11, 1)), // version 1 has no such line
    (1, "simsat-strategy 3", (1, 2)),
    (1, "simsat-strategy 02", (1, 2)),
    (1, "simsat-strategy", (1, 2)),
    (1, "simsat-strategy 2 2", (1, 3)),
    (11, "learn", (11, 2)), // no literal
    (11, "learn ", (11, 2)), // an empty one
    (11, "learn >= -1 > 0", (0, 0)), // two
    (11, "learn >= -1 ? > 0", (11, 4)), // no mark
    (11, "learn >= -1 >", (11, 5)), // a literal without its constant
    (11, "learn >= -1 1 > 0", (11, 5)), // a coefficient without its variable
    (11, "learn >= 0 1 1 1 0", (11, 7)), // variables that descend
    (11, "learn >= -1 | 0 1", (11, 5)), // a divisor 0
    (11, "learn >= -1  > 0", (11, 4)), // two spaces
    (11, "split >= -1 > 0", (11, 4)), // one literal alone
];

/// A line of OPEN_END, what stands in its place, and the place of the fault (0, 0 for none).
const DAMAGED: &[(u64, &str, (u64, u64))] = &[
    (7, "m 1 01 1 0", (7, 3)), // a leading zero
    (7, "m 1 -0 1 0", (7, 3)), // a minus before 0
    (7, "m 1 +1 1 0", (7, 3)), // a plus
    (7, "m 1 1 0 0", (7, 4)), // a coefficient 0
    (7, "m 0 1 1 0", (7, 2)), // a divisor 0
    (7, "m -1 1 1 0", (7, 2)), // a negative divisor
    (7, "m 2 2 2 0", (0, 0)), // not in lowest form
    (7, "m 1 1 1 1", (7, 5)), // a variable at its position
    (7, "m 1 1 1 0 1 0", (7, 7)), // a variable twice
    (7, "m 1 1 1", (7, 5)), // a coefficient without its variable
    (7, "m 4503599627370496 -4503599627370496 1 0", (0, 0)), // numbers at the cap
    (7, "m 1 -4503599627370497 1 0", (7, 3)), // a number past the cap
    (7, "m 4503599627370497 1 1 0", (7, 2)), // a divisor past the cap
    (10, "split >= -1 1 5 -3 1048575", (13, 1)), // the greatest variable
    (10, "split >= -1 1 0 -3 1048576", (10, 7)), // a variable past 2^20
    (10, "split > -1 1 5 -3 5", (10, 7)), // variables that do not ascend
    (10, "split = 2", (10, 2)), // an unknown mark
    (10, "split !| 0 2", (10, 3)), // a modulus 0
    (10, "split | 2 1 1 0 >= 1", (10, 7)), // a second literal
    (11, "sum 1 0 1  1 1", (11, 5)), // two spaces
    (11, "sum 1 0 1 1 1 ", (11, 7)), // a space at the end
    (11, " sum 1 0 1 1 1", (11, 1)), // a space at the start
    (11, "sum\t1 0 1 1 1", (11, 1)), // a tab
    (12, "false 2\r", (12, 2)), // a carriage return
    (12, "", (12, 1)), // an empty line
    (1, "\u{feff}simsat-strategy 1", (1, 1)), // a byte order mark
    (1, "simsat-strategy 2", (0, 0)), // the other version
    (1, "simsat-strategy 3", (1, 2)), // a version that is not there
    (2, "goals 4503599627370496", (13, 1)), // the greatest count
    (2, "goals 4503599627370497", (2, 2)), // a count past the cap
    (3, "goal 1 sat", (3, 2)), // the number of another goal
    (3, "goal 0 maybe", (3, 3)), // an unknown verdict
    (4, "turns t o", (4, 3)), // two words of turns
    (4, "turns", (4, 2)), // no turns
    (4, "turns tx", (4, 2)), // an unknown turn
    (5, "o 1", (5, 1)), // another turn
    (6, "o 4503599627370496", (8, 1)), // the greatest count of moves
    (6, "o 0", (6, 2)), // no move
    (8, "proof 4503599627370496", (13, 1)), // the greatest count of lines
    (8, "proof 0", (8, 2)), // no proof line
    (8, "proof 3", (12, 1)), // a line too many
    (8, "proof 5", (13, 1)), // a line missing
    (10, "def 4294967295 0", (0, 0)), // the greatest index
    (10, "def 4294967296 0", (10, 2)), // an index past it
    (10, "def 18446744073709551616 0", (10, 2)), // an index past 64 bits
    (10, "def 1 -1", (10, 3)), // a negative index
    (10, "false 0", (11, 1)), // a proof that closes early
    (12, "path 0", (13, 1)), // a proof that stays open
    (12, "cases 2 0", (0, 0)), // no case
    (12, "cases 2 4503599627370496", (13, 1)), // very many cases
    (12, "cases 2 4503599627370497", (12, 3)), // a count past the cap
    (11, "sum 1 0 1 1 40564819207303340847894502572032", (0, 0)), // the greatest divisor of a sum
    (11, "sum 0 0 -1 1 -40564819207303340847894502572032", (0, 0)), // a negative one
    (11, "sum 1 0 1 1 40564819207303340847894502572033", (11, 6)), // a divisor past 2^105
    (11, "sum 4503599627370497 0 1 1 1", (11, 2)), // a factor past the cap
    // sixty digits
    (
        11,
        "sum 1 0 1 1 999999999999999999999999999999999999999999999999999999999999",
        (11, 6),
    ),
    (10, "cube", (10, 2)), // no index
    (10, "cube 0 x", (10, 3)), // a word for an index
    (10, "learn >= 0", (10, 1)), // an unknown rule
];

/// The same for REPEATED.
const AGAIN: &[(u64, &str, (u64, u64))] = &[
    (12, "m 1 0 1 0", (12, 5)), // the second move again
    (12, "m 1 0 1 0 x", (12, 6)), // and a word
    (12, "m 1 0 1 0 1", (12, 7)), // and a number
    (12, "m 1 0 1 0\nend", (12, 5)), // and a line
    (12, "m 2 0 2 0", (13, 3)), // the same value, otherwise written
    (12, "m 1 2 3", (12, 5)), // a fault in its words
    (9, "m 1 0", (9, 3)), // a move of the node above
];

/// Endings: what follows OPEN_END, and the place of the fault.
const ENDINGS: &[(&str, (u64, u64))] = &[
    ("\n", (14, 1)),
    (" ", (14, 1)),
    ("x", (14, 1)),
    ("end\n", (14, 1)),
    ("\x00", (14, 1)),
    ("\r", (14, 1)),
];

// Each byte of OPEN_END in turn: for each the line of the fault as a hexadecimal digit, and its word; `..` where there is none.

/// The same of OPEN_END cut after so many bytes.
const CUT: &[&str] = &[
    "11 11 11 11 11 11 11 11 11 11 11 11 11 11 11 12 12 13",
    "21 21 21 21 21 22 22 23",
    "31 31 31 31 32 32 33 33 33 33 34",
    "41 41 41 41 41 42 42 43 43",
    "51 52",
    "61 62 62 63",
    "71 72 72 73 73 74 74 75 75 76",
    "81 81 81 81 81 82 82 83",
    "91 91 91 91 92 92 93",
    "a1 a1 a1 a2 a2 a3 a3 a4",
    "b1 b1 b1 b2 b2 b3 b3 b4 b4 b5 b5 b6 b6 b7",
    "c1 c1 c1 c1 c1 c2 c2 c3",
    "d1 d1 d1 d2",
];

/// OPEN_END with a space for the byte at this place.
const SPACES: &[&str] = &[
    "11 11 11 11 11 11 11 11 11 11 11 11 11 11 11 .. 12 13",
    "21 21 21 21 21 .. 22 23",
    "31 31 31 31 .. 32 .. 33 33 33 34",
    "41 41 41 41 41 .. 42 43 43",
    "51 52",
    "61 .. 62 63",
    "71 .. 72 .. 73 .. 74 .. 75 76",
    "81 81 81 81 81 .. 82 83",
    "91 91 91 91 .. 92 93",
    "a1 a1 a1 .. a2 .. a3 a4",
    "b1 b1 b1 .. b2 .. b3 .. b4 .. b5 .. b6 b7",
    "c1 c1 c1 c1 c1 .. c2 c3",
    "d1 d1 d1 d2",
];

/// OPEN_END with the digit 7 for the byte at this place.
const DIGITS: &[&str] = &[
    "11 11 11 11 11 11 11 11 11 11 11 11 11 11 11 11 12 12",
    "21 21 21 21 21 21 d1 22",
    "31 31 31 31 31 32 32 33 33 33 33",
    "41 41 41 41 41 41 42 42 42",
    "51 51",
    "61 61 81 62",
    "71 71 .. 74 .. 74 .. 75 75 75",
    "81 81 81 81 81 81 d1 82",
    "91 91 91 91 91 .. 92",
    "a1 a1 a1 a1 .. a3 .. a3",
    "b1 b1 b1 b1 .. b6 .. b3 .. b6 .. b6 .. b6",
    "c1 c1 c1 c1 c1 c1 .. c2",
    "d1 d1 d1 d1",
];

/// OPEN_END with the letter a for the byte at this place.
const LETTERS: &[&str] = &[
    "11 11 11 11 .. 11 11 11 11 11 .. 11 11 11 11 11 12 12",
    "21 21 .. 21 21 21 22 22",
    "31 31 .. 31 31 32 32 33 .. 33 33",
    "41 41 41 41 41 41 42 42 42",
    "51 51",
    "61 61 62 62",
    "71 71 72 72 73 73 74 74 75 75",
    "81 81 81 81 81 81 82 82",
    "91 .. 91 91 91 92 92",
    "a1 a1 a1 a1 a2 a2 a3 a3",
    "b1 b1 b1 b1 b2 b2 b3 b3 b4 b4 b5 b5 b6 b6",
    "c1 .. c1 c1 c1 c1 c2 c2",
    "d1 d1 d1 d1",
];

/// OPEN_END with a line feed for the byte at this place.
const LINE_FEEDS: &[&str] = &[
    "11 11 11 11 11 11 11 11 11 11 11 11 11 11 11 12 12 ..",
    "21 21 21 21 21 22 22 ..",
    "31 31 31 31 32 32 33 33 33 33 ..",
    "41 41 41 41 41 42 42 51 ..",
    "51 ..",
    "61 62 62 ..",
    "71 72 72 73 73 81 74 75 75 ..",
    "81 81 81 81 81 82 82 ..",
    "91 91 91 91 92 92 ..",
    "a1 a1 a1 a2 a2 a3 a3 ..",
    "b1 b1 b1 b2 b2 b3 b3 b4 b4 b5 b5 b6 b6 ..",
    "c1 c1 c1 c1 c1 c2 c2 ..",
    "d1 d1 d1 ..",
];

/// The place of the fault; `(0, 0)` where the file is read, and written again as it was.
fn place(rt: &HostRuntime, bytes: &[u8]) -> (u64, u64) {
    match read_file(rt.alloc(), bytes) {
        Ok(sections) => match write_file(rt.alloc(), &sections) {
            Ok(again) => {
                if again.as_slice() == bytes {
                    (0, 0)
                } else {
                    (0, 1)
                }
            }
            Err(_) => (0, 2),
        },
        Err(FileFault::Bad { line, word }) => (line, word),
        Err(FileFault::Memory) => (0, 3),
    }
}

fn with_byte(rt: &HostRuntime, at: usize, byte: u8) -> Result<Vec<u8>, AllocError> {
    let mut out = Vec::new(rt.alloc());
    for (i, b) in OPEN_END.as_bytes().iter().enumerate() {
        out.push(if i == at { byte } else { *b })?;
    }
    Ok(out)
}

#[test]
fn reads_and_writes_the_vectors(rt: HostRuntime) {
    for file in WHOLE {
        assert_eq!(rt; place(&rt, file.as_bytes()), (0, 0), "{file}");
    }
}

#[test]
fn names_the_first_fault(rt: HostRuntime) -> Result<(), Fail> {
    for (line, text, want) in DAMAGED {
        let bytes = with_line(rt.alloc(), OPEN_END, *line, text).map_err(|_| "memory")?;
        assert_eq!(rt; place(&rt, bytes.as_slice()), *want, "line {line}: {text}");
    }
    for (line, text, want) in UNLEARNT {
        let bytes = with_line(rt.alloc(), LEARNT, *line, text).map_err(|_| "memory")?;
        assert_eq!(rt; place(&rt, bytes.as_slice()), *want, "line {line}: {text}");
    }
    for (line, text, want) in AGAIN {
        let bytes = with_line(rt.alloc(), REPEATED, *line, text).map_err(|_| "memory")?;
        assert_eq!(rt; place(&rt, bytes.as_slice()), *want, "line {line}: {text}");
    }
    Ok(())
}

#[test]
fn refuses_what_follows_the_end(rt: HostRuntime) -> Result<(), Fail> {
    for (ending, want) in ENDINGS {
        let mut bytes = Vec::from_slice(rt.alloc(), OPEN_END.as_bytes()).map_err(|_| "memory")?;
        bytes
            .extend_from_slice(ending.as_bytes())
            .map_err(|_| "memory")?;
        assert_eq!(rt; place(&rt, bytes.as_slice()), *want, "{ending}");
    }
    Ok(())
}

/// A place as it is noted in a table.
fn noted(place: &str) -> (u64, u64) {
    match place.as_bytes() {
        [line, word] => (digit(*line), digit(*word)),
        _ => (0, 0),
    }
}

fn digit(byte: u8) -> u64 {
    match byte {
        b'0'..=b'9' => (byte - b'0') as u64,
        b'a'..=b'f' => (byte - b'a') as u64 + 10,
        _ => 0,
    }
}

#[test]
fn names_the_fault_of_a_cut_file(rt: HostRuntime) {
    let mut len = 0usize;
    for row in CUT {
        for place_there in row.split(' ') {
            match OPEN_END.as_bytes().get(..len) {
                Some(bytes) => assert_eq!(rt; place(&rt, bytes), noted(place_there), "at {len}"),
                None => assert!(rt; false),
            }
            len = len.wrapping_add(1);
        }
    }
    assert_eq!(rt; len, OPEN_END.len());
}

#[test]
fn names_the_fault_of_a_replaced_byte(rt: HostRuntime) -> Result<(), Fail> {
    for (byte, rows) in [
        (b' ', SPACES),
        (b'7', DIGITS),
        (b'a', LETTERS),
        (b'\n', LINE_FEEDS),
    ] {
        let mut at = 0usize;
        for row in rows {
            for place_there in row.split(' ') {
                let bytes = with_byte(&rt, at, byte).map_err(|_| "memory")?;
                assert_eq!(rt;
                    place(&rt, bytes.as_slice()),
                    noted(place_there),
                    "{byte} at {at}"
                );
                at = at.wrapping_add(1);
            }
        }
        assert_eq!(rt; at, OPEN_END.len());
    }
    Ok(())
}

/// A file whose tree is as deep as the turns are long.
fn deep(rt: &HostRuntime, turns: usize) -> Result<Vec<u8>, AllocError> {
    let mut out = Vec::from_slice(
        rt.alloc(),
        b"simsat-strategy 1\ngoals 1\ngoal 0 sat\nturns ",
    )?;
    for _ in 0..turns {
        out.push(b'o')?;
    }
    out.push(b'\n')?;
    for _ in 0..turns {
        out.extend_from_slice(b"o 1\nm 1 0\n")?;
    }
    out.extend_from_slice(b"proof 1\nfalse 0\nend\n")?;
    Ok(out)
}

#[test]
fn reads_the_longest_turns(rt: HostRuntime) -> Result<(), Fail> {
    let most = deep(&rt, 1024).map_err(|_| "memory")?;
    assert_eq!(rt; place(&rt, most.as_slice()), (0, 0));
    let more = deep(&rt, 1025).map_err(|_| "memory")?;
    assert_eq!(rt; place(&rt, more.as_slice()), (4, 2));
    Ok(())
}

#[test]
fn collects_sections(rt: HostRuntime) -> Result<(), Fail> {
    let mut sections = Sections::new(rt.alloc(), 2);
    sections.push(Section::Unknown).map_err(|_| "memory")?;
    assert_eq!(rt; sections.as_slice().len(), 1);
    assert_eq!(rt; sections.version(), 2);
    one_value();
    one_spelling();
    Ok(())
}
