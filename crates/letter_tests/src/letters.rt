//! Letters that are read of their lines, printed and read again; and lines that are refused.
use letter_lines::{Gathering, Letter, LetterFault, parts_of, print_part, read_part};
use std::alloc::{AllocError, Global};

/// Puts the lines of a letter behind others, parted by ` | `.
fn print_letter(printed: &mut String, letter: &Letter) -> Result<(), AllocError> {
    let alloc: Global = *printed.allocator();
    for part in &parts_of(alloc, letter)? {
        if !printed.is_empty() {
            printed.push_str(" | ")?;
        }
        printed.push_str(&print_part(alloc, part)?)?;
    }
    Ok(())
}

/// Reads a line, and prints the letter if one ends there.
fn read_line(
    gathering: &mut Gathering,
    printed: &mut String,
    line: &str,
) -> Result<(), LetterFault> {
    if let Some(letter) = gathering.take(read_part(line)?)? {
        print_letter(printed, &letter)?;
    }
    Ok(())
}

/// Reads lines that are parted by ` | `.
fn read_lines(
    gathering: &mut Gathering,
    printed: &mut String,
    lines: &str,
) -> Result<(), LetterFault> {
    for line in lines.split(" | ") {
        read_line(gathering, printed, line)?;
    }
    Ok(())
}

/// Whether the lines of letters are read and printed again as they are, and nothing is left.
fn is_again(alloc: Global, lines: &str) -> bool {
    let mut gathering = Gathering::new(alloc);
    let mut printed = String::new(alloc);
    read_lines(&mut gathering, &mut printed, lines).is_ok()
        && gathering.is_empty()
        && printed.as_str() == lines
}

/// How the first line is refused that is.
fn refusal(alloc: Global, lines: &str) -> &'static str {
    let mut gathering = Gathering::new(alloc);
    let mut printed = String::new(alloc);
    match read_lines(&mut gathering, &mut printed, lines) {
        Ok(()) => "",
        Err(fault) => fault.word(),
    }
}

#[test]
fn letters_are_printed_and_read_again(rt: HostRuntime) {
    let alloc = rt.alloc();
    let rows = [
        "ask lock a a.1",
        "ask global a/2 a/2.0",
        "answer lock a b.7 yes | answer lock a b.7 no",
        "give lock a b/4294967295.4294967295 ack | give global b b.0 quiet",
        "given a.0 | release a.3 | applied | join_refused | down",
        "put x a.1 exit | put y a.2 notify | put z a.3 notify_all",
        "remove x | strike a/2.5",
        "join_ask | +pair x a.1 exit | +pair y a.2 notify_all | join_ask",
        "admit c | +put x c.1 notify | +remove y | +kill a.1 | +notice b.2 y c.1 | +notice c.1 z | admit c/2",
        "+member a | +member c/2 | +pair x a.1 exit | +told b/3 | +kill c/2.1 | +notice c/2.2 y | welcome",
    ];
    for row in rows {
        assert!(rt; is_again(alloc, row));
    }
}

#[test]
fn other_lines_are_refused(rt: HostRuntime) {
    let alloc = rt.alloc();
    let rows = [
        ("", "bad_line"),
        ("Down", "bad_line"),
        ("down ", "bad_line"),
        (" down", "bad_line"),
        ("ask lock a", "bad_line"),
        ("ask  lock a a.1", "bad_line"),
        ("ask lock a a.1 yes", "bad_line"),
        ("answer lock ? a.1 maybe", "bad_line"),
        ("answer lock a a.1 yes more", "bad_line"),
        ("give lock a a.1 yes", "bad_line"),
        ("ask lock ? a.00", "bad_byte"),
        ("ask lock a a.00", "bad_serial"),
        ("given a", "bad_serial"),
        ("given a/1.1", "bad_creation"),
        ("put x a.1 never", "bad_rule"),
        ("remove ", "empty"),
        ("+pair x a.1 exit | applied", "bad_line"),
        ("+put x a.1 exit | welcome", "bad_line"),
        ("+told a | admit b", "bad_line"),
        ("+kill a.1 | join_ask", "bad_line"),
        (
            "+member a | +member b | +member c | +member d | +member e | +member f | +member g | +member h | +member i",
            "too_many_nodes",
        ),
    ];
    for (lines, word) in rows {
        assert_eq!(rt; refusal(alloc, lines), word);
    }
}

#[test]
fn a_refused_part_changes_nothing(rt: HostRuntime) {
    let alloc = rt.alloc();
    let mut gathering = Gathering::new(alloc);
    let mut printed = String::new(alloc);
    assert!(rt; read_lines(&mut gathering, &mut printed, "+pair x a.1 exit | applied").is_err());
    assert!(rt; read_line(&mut gathering, &mut printed, "join_ask").is_ok());
    assert_eq!(rt; printed.as_str(), "+pair x a.1 exit | join_ask");
    assert!(rt; read_line(&mut gathering, &mut printed, "+kill a.1").is_ok());
    gathering.clear();
    assert!(rt; gathering.is_empty());
}
