//! The parts of letters.
ghost use Rattle.std.specs.Prelude.{◌≡◌, ◌∷◌, ◌++◌, [], map, IfOk, OnOk};
ghost use Rattle.letter_lines.specs.declared.part.Part.TheVariants as part;
ghost use Rattle.letter_lines.specs.Laws.{HasSets, IsLetter};
ghost use Rattle.letter_lines.specs.Parts.{parts_of as parts_in, items_of, last_of, admit_items, welcome_items};

use crate::part::Part;
use exchange::{Admission, Noted, Welcome};
use name_table::Pair;
use node_events::Letter;
use std::alloc::{AllocError, Global};
use term::{Name, Node, Pid};

/// Names of a table are put behind parts.
fn push_pairs(parts: &mut Vec<Part>, pairs: &[Pair]) -> Result<(), AllocError>
    ensures { OnOk result (parts.new.items ≡ parts.old.items ++ map part.Pair pairs.now) }
{
    for pair in pairs {
        parts.push(Part::Pair(pair.copy()))?;
    }
    Ok(())
}

/// Names that are put are put behind parts.
fn push_puts(parts: &mut Vec<Part>, pairs: &[Pair]) -> Result<(), AllocError>
    ensures { OnOk result (parts.new.items ≡ parts.old.items ++ map part.Put pairs.now) }
{
    for pair in pairs {
        parts.push(Part::Put(pair.copy()))?;
    }
    Ok(())
}

/// Names that nobody has are put behind parts.
fn push_removes(parts: &mut Vec<Part>, names: &[Name]) -> Result<(), AllocError>
    ensures { OnOk result (parts.new.items ≡ parts.old.items ++ map part.Remove names.now) }
{
    for name in names {
        parts.push(Part::Remove(name.copy()))?;
    }
    Ok(())
}

/// Processes that die are put behind parts.
fn push_kills(parts: &mut Vec<Part>, processes: &[Pid]) -> Result<(), AllocError>
    ensures { OnOk result (parts.new.items ≡ parts.old.items ++ map part.Kill processes.now) }
{
    for process in processes {
        parts.push(Part::Kill(process.copy()))?;
    }
    Ok(())
}

/// Notices are put behind parts.
fn push_notices(parts: &mut Vec<Part>, notices: &[Noted]) -> Result<(), AllocError>
    ensures { OnOk result (parts.new.items ≡ parts.old.items ++ map part.Notice notices.now) }
{
    for noted in notices {
        parts.push(Part::Notice(noted.copy()))?;
    }
    Ok(())
}

/// Members are put behind parts.
fn push_members(parts: &mut Vec<Part>, nodes: &[Node]) -> Result<(), AllocError>
    ensures { OnOk result (parts.new.items ≡ parts.old.items ++ map part.Member nodes.now) }
{
    for node in nodes {
        parts.push(Part::Member(node.copy()))?;
    }
    Ok(())
}

/// Nodes that are told to have left are put behind parts.
fn push_told(parts: &mut Vec<Part>, nodes: &[Node]) -> Result<(), AllocError>
    ensures { OnOk result (parts.new.items ≡ parts.old.items ++ map part.Told nodes.now) }
{
    for node in nodes {
        parts.push(Part::Told(node.copy()))?;
    }
    Ok(())
}

/// The items of what a member is told of a join are put behind parts.
fn push_admission(parts: &mut Vec<Part>, body: &Admission) -> Result<(), AllocError>
    ensures { OnOk result (parts.new.items ≡ parts.old.items ++ admit_items body.now) }
{
    push_puts(parts, body.puts.as_slice())?;
    push_removes(parts, body.removes.as_slice())?;
    push_kills(parts, body.kills.as_slice())?;
    push_notices(parts, body.notices.as_slice())
}

/// The items of what a joiner is told are put behind parts.
fn push_welcome(parts: &mut Vec<Part>, body: &Welcome) -> Result<(), AllocError>
    ensures items { OnOk result (parts.new.items ≡ parts.old.items ++ welcome_items body.now) }
    ensures sets { OnOk result (HasSets body.now) }
{
    push_members(parts, body.members.as_slice())?;
    push_pairs(parts, body.pairs.as_slice())?;
    push_told(parts, body.told.as_slice())?;
    push_kills(parts, body.kills.as_slice())?;
    push_notices(parts, body.notices.as_slice())
}

/// The one part of a letter that has no lists; of one that has some, the last.
fn last_part(letter: &Letter) -> Part
    ensures { result ≡ last_of letter.now }
{
    match letter {
        Letter::SetLock(id, holder) => Part::SetLock(id.copy(), holder.copy()),
        Letter::LockAnswer(id, holder, granted) => {
            Part::LockAnswer(id.copy(), holder.copy(), *granted)
        }
        Letter::GiveBack(id, holder, ack) => Part::GiveBack(id.copy(), holder.copy(), *ack),
        Letter::GivenBack(holder) => Part::GivenBack(holder.copy()),
        Letter::ReleaseOf(holder) => Part::ReleaseOf(holder.copy()),
        Letter::Apply(change) => Part::Apply(change.copy()),
        Letter::Applied => Part::Applied,
        Letter::JoinAsk(_) => Part::JoinAsk,
        Letter::JoinRefused => Part::JoinRefused,
        Letter::Admit(body) => Part::Admit(body.joiner.copy()),
        Letter::Welcome(_) => Part::Welcome,
        Letter::Down => Part::Down,
    }
}

/// The items of a letter are put behind parts.
fn push_items(parts: &mut Vec<Part>, letter: &Letter) -> Result<(), AllocError>
    ensures items { OnOk result (parts.new.items ≡ parts.old.items ++ items_of letter.now) }
    ensures letter { OnOk result (IsLetter letter.now) }
{
    match letter {
        Letter::JoinAsk(pairs) => push_pairs(parts, pairs.as_slice()),
        Letter::Admit(body) => push_admission(parts, body),
        Letter::Welcome(body) => push_welcome(parts, body),
        _ => Ok(()),
    }
}

/// The parts of a letter, in the order in which they are to be printed: its items, and behind them the letter itself. The sets of the
/// letter are such that it is read from its parts again. `AllocError`: memory was refused.
pub fn parts_of(alloc: Global, letter: &Letter) -> Result<Vec<Part>, AllocError>
    ensures parts { IfOk result (λ parts. parts.items ≡ parts_in letter.now) }
    ensures letter { OnOk result (IsLetter letter.now) }
{
    let mut parts = Vec::new(alloc);
    push_items(&mut parts, letter)?;
    parts.push(last_part(letter))?;
    Ok(parts)
}
