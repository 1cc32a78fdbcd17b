//! Pairs, entries, names, processes and notices, as the rows of the tests spell them.
use exchange::{Noted, Notice};
use name_table::{Pair, Registration};
use std::alloc::{AllocError, Global};
use term::{Name, Pid, parse_name, parse_pid, parse_rule};

/// What stands under a name, of a text such as `a.1:notify`; where no rule is named it is `exit`.
pub(crate) fn entry_of(text: &str) -> Option<Registration> {
    let (owner, rule) = text.split_once(':').unwrap_or((text, "exit"));
    let rule = parse_rule(rule).ok()?;
    match parse_pid(owner) {
        Ok(owner) => Some(Registration { owner, rule }),
        Err(_) => None,
    }
}

/// The pair of this name, and of a text that says what stands under it.
pub(crate) fn pair_of(name: &str, text: &str) -> Option<Pair> {
    match (parse_name(name), entry_of(text)) {
        (Ok(name), Some(entry)) => Some(Pair {
            name,
            owner: entry.owner,
            rule: entry.rule,
        }),
        _ => None,
    }
}

/// Puts the pair of a word such as `x=a.1` or `x=a.1:notify` behind the others.
fn push_pair(pairs: &mut Vec<Pair>, word: &str) -> bool {
    let Some((name, text)) = word.split_once('=') else {
        return false;
    };
    match pair_of(name, text) {
        Some(pair) => pairs.push(pair).is_ok(),
        None => false,
    }
}

/// The pairs of a text, parted by blanks, up to the first word that is none.
pub(crate) fn pairs_of(alloc: Global, text: &str) -> Vec<Pair> {
    let mut pairs = Vec::new(alloc);
    for word in text.split(' ') {
        if !push_pair(&mut pairs, word) {
            break;
        }
    }
    pairs
}

/// Puts the process of a word behind the others.
fn push_process(processes: &mut Vec<Pid>, word: &str) -> bool {
    match parse_pid(word) {
        Ok(process) => processes.push(process).is_ok(),
        Err(_) => false,
    }
}

/// The processes of a text, parted by blanks, up to the first word that is none.
pub(crate) fn processes_of(alloc: Global, text: &str) -> Vec<Pid> {
    let mut processes = Vec::new(alloc);
    for word in text.split(' ') {
        if !push_process(&mut processes, word) {
            break;
        }
    }
    processes
}

/// Puts the name that a word is behind the others, unless the word is `-`.
fn push_name(names: &mut Vec<Name>, word: &str) -> bool {
    match parse_name(word) {
        Ok(name) if word != "-" => names.push(name).is_ok(),
        _ => false,
    }
}

/// The names of a text, parted by blanks, up to the first word that is none.
pub(crate) fn names_of(alloc: Global, text: &str) -> Vec<Name> {
    let mut names = Vec::new(alloc);
    for word in text.split(' ') {
        if !push_name(&mut names, word) {
            break;
        }
    }
    names
}

/// The notice of a word: `x:a.1` to a.1 that another process has x, or `x:a.1:b.1` that it and b.1 lost x.
fn noted_of(word: &str) -> Option<Noted> {
    let (name, processes) = word.split_once(':')?;
    let (process, other) = processes.split_once(':').unwrap_or((processes, ""));
    match (parse_name(name), parse_pid(process)) {
        (Ok(name), Ok(process)) => Some(Noted {
            process,
            notice: Notice {
                name,
                other: parse_pid(other).ok(),
            },
        }),
        _ => None,
    }
}

/// Puts the notice of a word behind the others.
fn push_noted(notices: &mut Vec<Noted>, word: &str) -> bool {
    match noted_of(word) {
        Some(noted) => notices.push(noted).is_ok(),
        None => false,
    }
}

/// The notices of a text, parted by blanks, up to the first word that is none.
pub(crate) fn notices_of(alloc: Global, text: &str) -> Vec<Noted> {
    let mut notices = Vec::new(alloc);
    for word in text.split(' ') {
        if !push_noted(&mut notices, word) {
            break;
        }
    }
    notices
}

/// Whether these pairs were given.
pub(crate) fn are_pairs(given: Result<Vec<Pair>, AllocError>, wanted: &[Pair]) -> bool {
    match given {
        Ok(pairs) => pairs.as_slice() == wanted,
        Err(_) => false,
    }
}
