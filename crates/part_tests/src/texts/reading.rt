//! What comes of reading and printing a text.
use std::alloc::AllocError;
use term::TextFault;

/// Whether a text was refused for this.
pub(crate) fn is_refused<T: Drop>(read: Result<T, TextFault>, wanted: TextFault) -> bool {
    match read {
        Ok(_) => false,
        Err(fault) => fault == wanted,
    }
}

/// Whether the first of two texts spells less than the second.
pub(crate) fn are_rising<T: PartialOrd + Drop>(
    first: Result<T, TextFault>,
    second: Result<T, TextFault>,
) -> bool {
    match (first, second) {
        (Ok(first), Ok(second)) => first < second,
        _ => false,
    }
}

/// Whether this text was printed.
pub(crate) fn is_text(printed: Result<String, AllocError>, wanted: &str) -> bool {
    match printed {
        Ok(text) => text.as_str() == wanted,
        Err(_) => false,
    }
}

#[test]
fn shows_faults_as_words(rt: HostRuntime) {
    let (bad_byte, bad_serial) = (TextFault::BadByte(7), TextFault::BadSerial);
    let (empty, too_long, too_many) = (
        TextFault::Empty,
        TextFault::TooLong,
        TextFault::TooManyNodes,
    );
    let (bad_creation, bad_rule) = (TextFault::BadCreation, TextFault::BadRule);
    let shown = format!(in rt.alloc();
        "{empty} {too_long} {bad_byte} {bad_creation} {bad_serial} {bad_rule} {too_many}"
    );
    assert!(rt;
        is_text(
            shown,
            "empty too_long bad_byte bad_creation bad_serial bad_rule too_many_nodes"
        )
    );
}
