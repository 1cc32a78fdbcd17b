//! Whether what was said twice is the same.
ghost use Rattle.std.specs.Prelude.{◌≡◌, ◌↔◌, IsTrue, map};
ghost use Rattle.std.specs.Option.{option_map};
ghost use Rattle.node_log.specs.NodeEventsSeen.{reply_of, answer_of};

use name_table::Pair;
use node_log::{Answer, NameList, Notice, Reply};

/// Whether two lists of names are the same.
fn same_names(some: &NameList, others: &NameList) -> bool
    ensures { IsTrue result ↔ (some.now.names.items ≡ others.now.names.items) }
{
    *some.as_slice() == *others.as_slice()
}

/// Whether two notices are the same.
fn same_notice(one: &Notice, other: &Notice) -> bool
    ensures { IsTrue result ↔ (one.now ≡ other.now) }
{
    *one == *other
}

/// Whether two lists of notices are the same.
fn same_notices(some: &[Notice], others: &[Notice]) -> bool
    ensures { IsTrue result ↔ (some.now ≡ others.now) }
{
    if some.len() != others.len() {
        return false;
    }
    for (place, one) in some.iter().enumerate() {
        if !same_notice(one, &others[place]) {
            return false;
        }
    }
    true
}

/// Whether two replies are the same.
fn same_reply(one: &Reply, other: &Reply) -> bool
    ensures { IsTrue result ↔ (reply_of one.now ≡ reply_of other.now) }
{
    match (one, other) {
        (Reply::Pid(one), Reply::Pid(other)) => *one == *other,
        (Reply::Names(some), Reply::Names(others)) => same_names(some, others),
        (Reply::Notices(some), Reply::Notices(others)) => {
            same_notices(some.as_slice(), others.as_slice())
        }
        (Reply::Yes, Reply::Yes)
        | (Reply::No, Reply::No)
        | (Reply::Ok, Reply::Ok)
        | (Reply::UnknownNode, Reply::UnknownNode)
        | (Reply::True, Reply::True)
        | (Reply::False, Reply::False)
        | (Reply::Joined, Reply::Joined)
        | (Reply::NotMember, Reply::NotMember)
        | (Reply::ContactLeft, Reply::ContactLeft)
        | (Reply::Undefined, Reply::Undefined) => true,
        _ => false,
    }
}

/// Whether two answers are the same.
pub(crate) fn same_answer(one: &Answer, other: &Answer) -> bool
    ensures { IsTrue result ↔ (answer_of one.now ≡ answer_of other.now) }
{
    one.node == other.node && one.call == other.call && same_reply(&one.reply, &other.reply)
}

/// Whether two lists of answers are the same.
pub(crate) fn same_answers(some: &[Answer], others: &[Answer]) -> bool
    ensures { IsTrue result ↔ (map answer_of some.now ≡ map answer_of others.now) }
{
    if some.len() != others.len() {
        return false;
    }
    for (place, one) in some.iter().enumerate() {
        if !same_answer(one, &others[place]) {
            return false;
        }
    }
    true
}

/// Whether two answers are the same, or both are none.
pub(crate) fn same_outcome(one: &Option<Answer>, other: Option<&Answer>) -> bool
    ensures { IsTrue result ↔ (option_map answer_of one.now ≡ option_map (λ r. answer_of r.now) other.entry) }
{
    match (one, other) {
        (Some(one), Some(other)) => same_answer(one, other),
        (None, None) => true,
        (Some(_), None) | (None, Some(_)) => false,
    }
}

/// Whether two pairs are the same.
fn same_pair(one: &Pair, other: &Pair) -> bool
    ensures { IsTrue result ↔ (one.now ≡ other.now) }
{
    *one == *other
}

/// Whether two lists of pairs are the same.
pub(crate) fn same_pairs(some: &[Pair], others: &[Pair]) -> bool
    ensures { IsTrue result ↔ (some.now ≡ others.now) }
{
    if some.len() != others.len() {
        return false;
    }
    for (place, one) in some.iter().enumerate() {
        if !same_pair(one, &others[place]) {
            return false;
        }
    }
    true
}
