//! Tables of names, row by row; and the two of them side by side.
use crate::tables::reading::{are_pairs, entry_of, pair_of, pairs_of};
use name_table::{Change, IndexTable, ListTable, Names, Pair, Registration};
use std::alloc::Global;
use term::{Name, parse_name, parse_node, parse_pid};

/// Puts a name for the owner and under the rule of a text such as `a.1:notify`.
fn put<N: Names>(table: &mut N, name: &str, text: &str) -> bool {
    match pair_of(name, text) {
        Some(pair) => table.write(Change::Put(pair)).is_ok(),
        None => false,
    }
}

/// Removes a name.
fn remove<N: Names>(table: &mut N, name: &str) -> bool {
    match parse_name(name) {
        Ok(name) => table.write(Change::Remove(name)).is_ok(),
        Err(_) => false,
    }
}

/// Strikes the names of a process.
fn strike<N: Names>(table: &mut N, owner: &str) -> bool {
    match parse_pid(owner) {
        Ok(owner) => table.write(Change::StrikeOwner(owner)).is_ok(),
        Err(_) => false,
    }
}

/// Drops the names of a node.
fn drop_node<N: Names>(table: &mut N, node: &str) -> bool {
    match parse_node(node) {
        Ok(node) => {
            table.drop_node(&node);
            true
        }
        Err(_) => false,
    }
}

/// Whether the owner of a name is that of an entry, or nobody has it where there is none.
fn has_owner<N: Names>(table: &N, name: &Name, entry: Option<Registration>) -> bool {
    match entry {
        Some(entry) => table.owner(name) == Some(entry.owner),
        None => table.owner(name).is_none(),
    }
}

/// Whether this stands under a name and its owner is found so, or nothing does where the text is empty.
fn stands<N: Names>(table: &N, name: &str, text: &str) -> bool {
    match parse_name(name) {
        Ok(name) => table.get(&name) == entry_of(text) && has_owner(table, &name, entry_of(text)),
        Err(_) => false,
    }
}

/// Whether this is the least name of a process, or it has none where the text is empty.
fn is_least<N: Names>(table: &N, owner: &str, name: &str) -> bool {
    match parse_pid(owner) {
        Ok(owner) => table.owned_by(&owner) == parse_name(name).ok(),
        Err(_) => false,
    }
}

/// Whether these are the names of the pairs.
fn are_names(names: &[Name], pairs: &[Pair]) -> bool {
    names.len() == pairs.len()
        && names
            .iter()
            .zip(pairs)
            .all(|(name, pair)| *name == pair.name)
}

/// Whether a table has these pairs, and their names.
fn has_pairs<N: Names>(alloc: Global, table: &N, wanted: &[Pair]) -> bool {
    let has_names = match table.names(alloc) {
        Ok(names) => are_names(names.as_slice(), wanted),
        Err(_) => false,
    };
    has_names && are_pairs(table.pairs(alloc), wanted)
}

/// Whether a copy of a table has the pairs of a text, and the table has them too when the node of the other word is dropped
/// from the copy.
fn is_copied<N: Names<Memory = Global>>(alloc: Global, table: &N, node: &str, text: &str) -> bool {
    let wanted = pairs_of(alloc, text);
    match table.copy(alloc) {
        Ok(mut copy) => {
            has_pairs(alloc, &copy, wanted.as_slice())
                && drop_node(&mut copy, node)
                && has_pairs(alloc, table, wanted.as_slice())
        }
        Err(_) => false,
    }
}

/// Whether a table takes a row: `put NAME OWNER` or `put NAME OWNER:RULE`, `remove NAME`, `strike OWNER`, `drop NODE`, or what it answers.
fn takes<N: Names<Memory = Global>>(alloc: Global, table: &mut N, row: &str) -> bool {
    let Some((word, rest)) = row.split_once(' ') else {
        return false;
    };
    let (first, second) = rest.split_once(' ').unwrap_or((rest, ""));
    match word {
        "put" => put(table, first, second),
        "remove" => remove(table, first),
        "strike" => strike(table, first),
        "drop" => drop_node(table, first),
        "get" => stands(table, first, second),
        "least" => is_least(table, first, second),
        "has" => has_pairs(alloc, table, pairs_of(alloc, rest).as_slice()),
        "copy" => is_copied(alloc, table, first, second),
        _ => false,
    }
}

/// A name has the process that it was put for last, and the rule; of a process the least name is told. What a copy loses the table
/// keeps.
const ROWS: &str = "\
has none
put x a.1:notify
get x a.1:notify
put x a.1
get x a.1
put b b.2:notify_all
put m a.1:notify
put x c.3
put m b.2
get b b.2:notify_all
get m b.2
get x c.3
get a
get bb
least b.2 b
least a.1
has b=b.2:notify_all m=b.2 x=c.3
copy c b=b.2:notify_all m=b.2 x=c.3
remove c
has b=b.2:notify_all m=b.2 x=c.3
remove m
has b=b.2:notify_all x=c.3
strike c.1
has b=b.2:notify_all x=c.3
put a c.3
strike c.3
has b=b.2:notify_all
put y a.1
put z b.1
drop b
has y=a.1
";

#[test]
fn list_table_keeps_names(rt: HostRuntime) {
    let mut table: ListTable<Global> = Names::empty(rt.alloc());
    for row in ROWS.lines() {
        assert!(rt; takes(rt.alloc(), &mut table, row), "{row}");
    }
}

#[test]
fn index_table_keeps_names(rt: HostRuntime) {
    let mut table: IndexTable<Global> = Names::empty(rt.alloc());
    for row in ROWS.lines() {
        assert!(rt; takes(rt.alloc(), &mut table, row), "{row}");
    }
}

/// A name, a process, and the process with a rule, of a few, by a number.
fn picked(number: u32) -> (&'static str, &'static str, &'static str) {
    let name = match number % 6 {
        0 => "x",
        1 => "b",
        2 => "m",
        3 => "d",
        4 => "yy",
        _ => "a",
    };
    let (owner, text) = match (number / 6) % 5 {
        0 => ("a.1", "a.1"),
        1 => ("b.2", "b.2:notify"),
        2 => ("a.3", "a.3:notify_all"),
        3 => ("c.1", "c.1"),
        _ => ("c.1", "c.1:notify"),
    };
    (name, owner, text)
}

/// Makes the change that a number stands for: puts are the most. At each 32nd turn node a is lost.
fn change<N: Names>(table: &mut N, turn: u32, number: u32) -> bool {
    let (name, owner, text) = picked(number / 8);
    let is_changed = match number % 8 {
        0 | 1 => remove(table, name),
        2 => strike(table, owner),
        _ => put(table, name, text),
    };
    is_changed && (turn % 32 != 31 || drop_node(table, "a"))
}

/// Whether the same stands under a name in both tables.
fn have_same_entry<N: Names, M: Names>(list: &N, index: &M, name: &str) -> bool {
    match parse_name(name) {
        Ok(name) => {
            list.get(&name) == index.get(&name) && list.owner(&name) == index.owner(&name)
        }
        Err(_) => false,
    }
}

/// Whether both tables have the same least name of a process.
fn have_same_least<N: Names, M: Names>(list: &N, index: &M, owner: &str) -> bool {
    match parse_pid(owner) {
        Ok(owner) => list.owned_by(&owner) == index.owned_by(&owner),
        Err(_) => false,
    }
}

/// Whether both tables answer alike of each name and each process.
fn answer_alike<N: Names, M: Names>(list: &N, index: &M) -> bool {
    "x b m d yy a"
        .split(' ')
        .all(|name| have_same_entry(list, index, name))
        && "a.1 b.2 a.3 c.1"
            .split(' ')
            .all(|owner| have_same_least(list, index, owner))
}

/// Whether both tables have the same pairs and names.
fn have_same_pairs<N: Names, M: Names>(alloc: Global, list: &N, index: &M) -> bool {
    match list.pairs(alloc) {
        Ok(pairs) => has_pairs(alloc, index, pairs.as_slice()),
        Err(_) => false,
    }
}

/// Whether both tables stay alike in 400 changes.
fn stay_alike<N: Names, M: Names>(alloc: Global, list: &mut N, index: &mut M, first: u32) -> bool {
    let mut seed = first;
    for turn in 0..400_u32 {
        seed = seed.wrapping_mul(1_664_525).wrapping_add(1_013_904_223);
        let number = seed >> 8;
        if !change(list, turn, number)
            || !change(index, turn, number)
            || !answer_alike(list, index)
            || !have_same_pairs(alloc, list, index)
        {
            return false;
        }
    }
    true
}

/// Whether both stay so from three numbers on, one behind the other.
fn all_stay_alike<N: Names, M: Names>(alloc: Global, list: &mut N, index: &mut M) -> bool {
    stay_alike(alloc, list, index, 7)
        && stay_alike(alloc, list, index, 77)
        && stay_alike(alloc, list, index, 777)
}

#[test]
fn index_table_does_as_the_list_does(rt: HostRuntime) {
    let mut list: ListTable<Global> = Names::empty(rt.alloc());
    let mut index: IndexTable<Global> = Names::empty(rt.alloc());
    assert!(rt; all_stay_alike(rt.alloc(), &mut list, &mut index));
}

/// Puts the name of this number in the row n0001, n0002, and so on, for a.1, or removes it where it is the least one.
fn change_one<N: Names>(alloc: Global, table: &mut N, number: u32, is_put: bool) -> bool {
    match format!(in alloc; "n{number:04}") {
        Ok(name) if is_put => put(table, name.as_str(), "a.1"),
        Ok(name) => is_least(table, "a.1", name.as_str()) && remove(table, name.as_str()),
        Err(_) => false,
    }
}

/// Changes a row of 1,000 names so.
fn change_row<N: Names>(alloc: Global, table: &mut N, is_put: bool) -> bool {
    for number in 1..=1_000_u32 {
        if !change_one(alloc, table, number, is_put) {
            return false;
        }
    }
    true
}

/// Whether a table tells the least of 1,000 names of a process behind each removal of the one before, and none in the end.
fn finds_the_next<N: Names>(alloc: Global, table: &mut N) -> bool {
    change_row(alloc, table, true) && change_row(alloc, table, false) && is_least(table, "a.1", "")
}

#[test]
fn list_table_finds_the_next_of_a_row(rt: HostRuntime) {
    let mut list: ListTable<Global> = Names::empty(rt.alloc());
    assert!(rt; finds_the_next(rt.alloc(), &mut list));
}

#[test]
fn index_table_finds_the_next_of_a_row(rt: HostRuntime) {
    let mut index: IndexTable<Global> = Names::empty(rt.alloc());
    assert!(rt; finds_the_next(rt.alloc(), &mut index));
}
