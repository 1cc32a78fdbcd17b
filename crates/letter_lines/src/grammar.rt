//! The texts that are read: an arm for each. They stand by the number of their words.
ghost use Rattle.std.specs.Prelude.{◌≡◌, ◌∷◌, [], Bool, MatchOption, MatchResult};
ghost use Rattle.registry_model.specs.Settlement.{note};
ghost use Rattle.letter_lines.specs.declared.part.Part.TheVariants as part;
ghost use Rattle.term.specs.Rules.{SpellsRule};
ghost use Rattle.term.specs.Spelling.{SpellsText, SpellsNode};
ghost use Rattle.letter_lines.specs.Processes.{SpellsProcess};
ghost use Rattle.letter_lines.specs.Grammar.{WordsRead, TextReads, FirstRefused, words, id_for, pair_for, granted_text, ack_text, Name as AName, Pid as APid, Rule as ARule, Resource as AResource, Requester as ARequester};

use crate::faults::LetterFault;
use crate::part::Part;
use crate::processes::parse_process;
use exchange::{Noted, Notice};
use name_table::{Change, Pair};
use term::{
    LockId, Name, Pid, Requester, Rule, TextFault, parse_name, parse_node, parse_resource,
    parse_rule,
};

/// A text cut at its first space: what stands before it, and what stands behind it.
fn cut(text: &str) -> Option<(&str, &str)>
    ensures { MatchOption result (words text.now ≡ text.now ∷ []) (λ x. words text.now ≡ x.0.now ∷ words x.1.now) }
{
    text.split_once(' ')
}

/// Whether a lock is granted.
fn parse_granted(text: &str) -> Option<bool>
    ensures { MatchOption result ((v : Bool) → text.now ≡ granted_text v → ⊥) (λ v. text.now ≡ granted_text v) }
{
    match text {
        "yes" => Some(true),
        "no" => Some(false),
        _ => None,
    }
}

/// Whether an answer is asked for.
fn parse_ack(text: &str) -> Option<bool>
    ensures { MatchOption result ((v : Bool) → text.now ≡ ack_text v → ⊥) (λ v. text.now ≡ ack_text v) }
{
    match text {
        "ack" => Some(true),
        "quiet" => Some(false),
        _ => None,
    }
}

/// The id of a lock, and who asks for it, or the fault of the first text that spells none.
fn id_and_holder(resource: &str, requester: &str, holder: &str) -> Result<(LockId, Pid), TextFault>
    ensures { MatchResult result
        (λ v. SpellsText resource.now v.0.resource × SpellsNode requester.now v.0.requester × SpellsProcess holder.now v.1)
        (FirstRefused (AResource ∷ ARequester ∷ APid ∷ []) (resource.now ∷ requester.now ∷ holder.now ∷ [])) }
{
    let resource = parse_resource(resource)?;
    let requester = Requester::of_node(&parse_node(requester)?);
    let holder = parse_process(holder)?;
    Ok((
        LockId {
            resource,
            requester,
        },
        holder,
    ))
}

/// A name, its owner and its rule, or the fault of the first text that spells none.
fn name_owner_and_rule(name: &str, owner: &str, rule: &str) -> Result<(Name, Pid, Rule), TextFault>
    ensures { MatchResult result
        (λ v. SpellsText name.now v.0 × SpellsProcess owner.now v.1 × SpellsRule rule.now v.2)
        (FirstRefused (AName ∷ APid ∷ ARule ∷ []) (name.now ∷ owner.now ∷ rule.now ∷ [])) }
{
    Ok((parse_name(name)?, parse_process(owner)?, parse_rule(rule)?))
}

/// A name for a process, under this rule.
fn pair(parts: (Name, Pid, Rule)) -> Pair
    ensures { result ≡ pair_for parts.0 parts.1 parts.2 }
{
    let (name, owner, rule) = parts;
    Pair { name, owner, rule }
}

/// A notice of a name, and the other process that lost it, if there is one.
fn notice(process: Pid, name: Name, other: Option<Pid>) -> Part
    ensures { result ≡ part.Notice (note process name other) }
{
    Part::Notice(Noted {
        process,
        notice: Notice { name, other },
    })
}

/// A word alone.
fn bare(word: &str) -> Result<Part, LetterFault>
    ensures { WordsRead (word.now ∷ []) result }
{
    match word {
        "applied" => Ok(Part::Applied),
        "join_ask" => Ok(Part::JoinAsk),
        "join_refused" => Ok(Part::JoinRefused),
        "welcome" => Ok(Part::Welcome),
        "down" => Ok(Part::Down),
        _ => Err(LetterFault::BadLine),
    }
}

/// A word with one text.
fn with_one(word: &str, text: &str) -> Result<Part, LetterFault>
    ensures { WordsRead (word.now ∷ text.now ∷ []) result }
{
    match word {
        "given" => Ok(Part::GivenBack(parse_process(text)?)),
        "release" => Ok(Part::ReleaseOf(parse_process(text)?)),
        "remove" => Ok(Part::Apply(Change::Remove(parse_name(text)?))),
        "strike" => Ok(Part::Apply(Change::StrikeOwner(parse_process(text)?))),
        "admit" => Ok(Part::Admit(parse_node(text)?)),
        "+remove" => Ok(Part::Remove(parse_name(text)?)),
        "+kill" => Ok(Part::Kill(parse_process(text)?)),
        "+member" => Ok(Part::Member(parse_node(text)?)),
        "+told" => Ok(Part::Told(parse_node(text)?)),
        _ => Err(LetterFault::BadLine),
    }
}

/// A word with two texts.
fn with_two(word: &str, text: &str, next: &str) -> Result<Part, LetterFault>
    ensures { WordsRead (word.now ∷ text.now ∷ next.now ∷ []) result }
{
    match word {
        "+notice" => {
            let process = parse_process(text)?;
            Ok(notice(process, parse_name(next)?, None))
        }
        _ => Err(LetterFault::BadLine),
    }
}

/// The values of the texts of a notice of which two processes are told, or the fault of the first that spells none.
fn process_name_and_other(
    process: &str,
    name: &str,
    other: &str,
) -> Result<(Pid, Name, Pid), TextFault>
    ensures { MatchResult result
        (λ v. SpellsProcess process.now v.0 × SpellsText name.now v.1 × SpellsProcess other.now v.2)
        (FirstRefused (APid ∷ AName ∷ APid ∷ []) (process.now ∷ name.now ∷ other.now ∷ [])) }
{
    Ok((
        parse_process(process)?,
        parse_name(name)?,
        parse_process(other)?,
    ))
}

/// A word with three texts.
fn with_three(word: &str, text: &str, next: &str, last: &str) -> Result<Part, LetterFault>
    ensures { WordsRead (word.now ∷ text.now ∷ next.now ∷ last.now ∷ []) result }
{
    match word {
        "ask" => {
            let (id, holder) = id_and_holder(text, next, last)?;
            Ok(Part::SetLock(id, holder))
        }
        "put" => Ok(Part::Apply(Change::Put(pair(name_owner_and_rule(text, next, last)?)))),
        "+pair" => Ok(Part::Pair(pair(name_owner_and_rule(text, next, last)?))),
        "+put" => Ok(Part::Put(pair(name_owner_and_rule(text, next, last)?))),
        "+notice" => {
            let (process, name, other) = process_name_and_other(text, next, last)?;
            Ok(notice(process, name, Some(other)))
        }
        _ => Err(LetterFault::BadLine),
    }
}

/// A word with four texts. The last is read first: no other text is looked at where it is wrong.
fn with_four(
    word: &str,
    resource: &str,
    requester: &str,
    holder: &str,
    flag: &str,
) -> Result<Part, LetterFault>
    ensures { WordsRead (word.now ∷ resource.now ∷ requester.now ∷ holder.now ∷ flag.now ∷ []) result }
{
    match word {
        "answer" => {
            let Some(granted) = parse_granted(flag) else {
                return Err(LetterFault::BadLine);
            };
            let (id, holder) = id_and_holder(resource, requester, holder)?;
            Ok(Part::LockAnswer(id, holder, granted))
        }
        "give" => {
            let Some(ack) = parse_ack(flag) else {
                return Err(LetterFault::BadLine);
            };
            let (id, holder) = id_and_holder(resource, requester, holder)?;
            Ok(Part::GiveBack(id, holder, ack))
        }
        _ => Err(LetterFault::BadLine),
    }
}

/// A word with three texts and what stands behind them: a fourth text, or too many.
fn with_last(
    word: &str,
    first: &str,
    second: &str,
    third: &str,
    rest: &str,
) -> Result<Part, LetterFault>
    ensures { WordsRead (word.now ∷ first.now ∷ second.now ∷ third.now ∷ words rest.now) result }
{
    match cut(rest) {
        None => with_four(word, first, second, third, rest),
        Some(_) => Err(LetterFault::BadLine),
    }
}

/// Reads a part of a letter. Its words are parted by one space each. `BadLine`: there is no such word, or it has another number of
/// texts, or what says `yes` or `no`, or `ack` or `quiet`, says neither; `Text`: the first text from the left that spells nothing
/// is refused so. It takes no memory.
pub fn read_part(text: &str) -> Result<Part, LetterFault>
    ensures { TextReads text.now result }
{
    let Some((word, rest)) = cut(text) else {
        return bare(text);
    };
    let Some((first, rest)) = cut(rest) else {
        return with_one(word, rest);
    };
    let Some((second, rest)) = cut(rest) else {
        return with_two(word, first, rest);
    };
    let Some((third, rest)) = cut(rest) else {
        return with_three(word, first, second, rest);
    };
    with_last(word, first, second, third, rest)
}
