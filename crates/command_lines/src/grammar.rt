//! The lines that are read: an arm for each. They stand by the number of their texts.
ghost use Rattle.std.specs.Prelude.{◌≡◌, ◌≢◌, codes, map, ◌∷◌, [], Err, true, is_some, MatchResult, IfOk, OnErr};
ghost use Rattle.protocol_model.specs.Event.{Exiting, LookUp, SetLock, DelLock};
ghost use Rattle.registry_model.specs.Call.{NoticesOf};
ghost use Rattle.term.specs.Rules.{SpellsRule};
ghost use Rattle.term.specs.Spelling.{SpellsText, SpellsNodeName, RefusesText, SpellsPid};
ghost use Rattle.transaction.specs.Calls.{target_of, retries_of};
ghost use Rattle.world_events.specs.NodeEventsSeen.{call_of};
ghost use Rattle.command_lines.specs.Commands.{asked_by, line_in};
ghost use Rattle.command_lines.specs.declared.faults.LineFault.TheVariants.{Memory};
ghost use Rattle.command_lines.specs.LockTexts.{SpellsTarget, NamesSome, target_in};
ghost use Rattle.command_lines.specs.Grammar.{WordsAsk, WordsNameNodes, FirstRefused, at_node, call_at, call_to, pair_for as a_pair_for, Node as ANode, Name as AName, Pid as APid, Rule as ARule, Resource as AResource, Requester as ARequester, Nodes as SomeNodes};

use crate::faults::LineFault;
use crate::lock_texts::{parse_retries, parse_target};
use name_table::Pair;
use std::alloc::{AllocError, Global};
use term::{
    LockId, Name, NodeName, NodeNames, Pid, Rule, TextFault, parse_name, parse_node,
    parse_node_name, parse_pid, parse_requester, parse_resource, parse_rule,
};
use transaction::{Nodes, Retries};
use world_events::{Call, LocalEvent, WorldEvent};

/// What a line asks for.
#[derive(Drop)]
pub enum LineCommand {
    /// An event is played.
    Play(WorldEvent),
    /// An event is played at the present node of this name.
    At(NodeName, LocalEvent),
    /// Letters are delivered until none waits.
    Settle,
    /// The same, and refused registrars are retried until none is left.
    Finish,
    /// The table of the present node of this name is shown.
    Table(NodeName),
    /// The members of the present node of this name are shown.
    Members(NodeName),
}

/// A call at the present node of a name.
fn call(node: NodeName, call: Call) -> LineCommand
    ensures { line_in result ≡ call_to node (call_of call) }
{
    LineCommand::At(node, LocalEvent::Call(call))
}

/// A name for a process, under this rule.
fn pair_for(name: Name, owner: Pid, rule: Rule) -> Pair
    ensures { result ≡ a_pair_for name owner rule }
{
    Pair { name, owner, rule }
}

/// The exit of a process, at its node.
fn exit(process: Pid) -> LineCommand
    ensures { line_in result ≡ at_node process.node (Exiting process) }
{
    LineCommand::Play(WorldEvent::At(process.node.copy(), LocalEvent::Exit(process)))
}

/// A look-up of what a process was sent, at its node.
fn notices(process: Pid) -> LineCommand
    ensures { line_in result ≡ call_at process.node (LookUp (NoticesOf process)) }
{
    LineCommand::Play(WorldEvent::At(
        process.node.copy(),
        LocalEvent::Call(Call::Notices(process)),
    ))
}

/// The nodes that a lock call asks: those that it names, or all members.
fn nodes_of(alloc: Global, named: Option<NodeNames>) -> Result<Nodes, AllocError>
    requires { NamesSome named }
    ensures ok { IfOk result (λ nodes. target_of nodes ≡ target_in named) }
    ensures memory { OnErr result (is_some named ≡ true) }
{
    match named {
        Some(named) => Ok(Nodes::named(alloc, named)?.unwrap_or(Nodes::All)),
        None => Ok(Nodes::All),
    }
}

/// A call of a process for a lock, at its node.
fn set_lock(
    alloc: Global,
    holder: Pid,
    id: LockId,
    named: Option<NodeNames>,
    retries: Retries,
) -> Result<LineCommand, AllocError>
    requires { NamesSome named }
    ensures ok { IfOk result (λ command. line_in command ≡ call_at holder.node
        (SetLock holder id.resource id.requester (target_in named) (retries_of retries))) }
    ensures memory { OnErr result (is_some named ≡ true) }
{
    let nodes = nodes_of(alloc, named)?;
    Ok(LineCommand::Play(WorldEvent::At(
        holder.node.copy(),
        LocalEvent::Call(Call::SetLock(holder, id, nodes, retries)),
    )))
}

/// A call of a process that gives a lock back, at its node.
fn del_lock(
    alloc: Global,
    holder: Pid,
    id: LockId,
    named: Option<NodeNames>,
) -> Result<LineCommand, AllocError>
    requires { NamesSome named }
    ensures ok { IfOk result (λ command. line_in command ≡ call_at holder.node (DelLock holder id.resource id.requester (target_in named))) }
    ensures memory { OnErr result (is_some named ≡ true) }
{
    let nodes = nodes_of(alloc, named)?;
    Ok(LineCommand::Play(WorldEvent::At(
        holder.node.copy(),
        LocalEvent::Call(Call::DelLock(holder, id, nodes)),
    )))
}

/// The values of three texts, or the fault of the first that spells none.
fn node_name_and_pid(node: &str, name: &str, pid: &str) -> Result<(NodeName, Name, Pid), TextFault>
    ensures { MatchResult result (λ v. SpellsNodeName node.now v.0 × SpellsText name.now v.1 × SpellsPid pid.now v.2)
        (FirstRefused (ANode ∷ AName ∷ APid ∷ []) (node.now ∷ name.now ∷ pid.now ∷ [])) }
{
    Ok((parse_node_name(node)?, parse_name(name)?, parse_pid(pid)?))
}

/// The same, and the rule that stands behind them.
fn node_name_pid_and_rule(
    node: &str,
    name: &str,
    pid: &str,
    rule: &str,
) -> Result<(NodeName, Name, Pid, Rule), TextFault>
    ensures { MatchResult result
        (λ v. SpellsNodeName node.now v.0 × SpellsText name.now v.1 × SpellsPid pid.now v.2 × SpellsRule rule.now v.3)
        (FirstRefused (ANode ∷ AName ∷ APid ∷ ARule ∷ []) (node.now ∷ name.now ∷ pid.now ∷ rule.now ∷ [])) }
{
    Ok((
        parse_node_name(node)?,
        parse_name(name)?,
        parse_pid(pid)?,
        parse_rule(rule)?,
    ))
}

/// The holder, the id and the named nodes of a lock call, or the fault of the first text that spells none.
fn holder_id_and_nodes(
    holder: &str,
    resource: &str,
    requester: &str,
    nodes: &str,
) -> Result<(Pid, LockId, Option<NodeNames>), TextFault>
    ensures { MatchResult result
        (λ v. SpellsPid holder.now v.0 × SpellsText resource.now v.1.resource × SpellsNodeName requester.now v.1.requester
        × SpellsTarget nodes.now (target_in v.2))
        (FirstRefused (APid ∷ AResource ∷ ARequester ∷ SomeNodes ∷ [])
        (holder.now ∷ resource.now ∷ requester.now ∷ nodes.now ∷ [])) }
{
    let holder = parse_pid(holder)?;
    let id = LockId {
        resource: parse_resource(resource)?,
        requester: parse_requester(requester)?,
    };
    Ok((holder, id, parse_target(nodes)?))
}

/// What a word alone asks for.
fn bare(word: &str) -> Result<LineCommand, LineFault>
    ensures { WordsAsk (word.now ∷ []) (asked_by result) }
{
    match word {
        "settle" => Ok(LineCommand::Settle),
        "finish" => Ok(LineCommand::Finish),
        _ => Err(LineFault::BadLine),
    }
}

/// What a word with one text asks for.
fn with_one(word: &str, text: &str) -> Result<LineCommand, LineFault>
    ensures { WordsAsk (word.now ∷ text.now ∷ []) (asked_by result) }
{
    match word {
        "spawn" => Ok(call(parse_node_name(text)?, Call::Spawn)),
        "exit" => Ok(exit(parse_pid(text)?)),
        "names" => Ok(call(parse_node_name(text)?, Call::RegisteredNames)),
        "notices" => Ok(notices(parse_pid(text)?)),
        "retry" => Ok(LineCommand::At(parse_node_name(text)?, LocalEvent::Retry)),
        "leave" => Ok(LineCommand::At(parse_node_name(text)?, LocalEvent::Leave)),
        "restart" => Ok(LineCommand::Play(WorldEvent::Restart(parse_node_name(text)?))),
        "members" => Ok(LineCommand::Members(parse_node_name(text)?)),
        "table" => Ok(LineCommand::Table(parse_node_name(text)?)),
        _ => Err(LineFault::BadLine),
    }
}

/// What a look-up of a name asks for.
fn whereis(node: &str, name: &str) -> Result<LineCommand, LineFault>
    ensures { WordsAsk (codes "whereis" ∷ node.now ∷ name.now ∷ []) (asked_by result) }
{
    Ok(call(parse_node_name(node)?, Call::Whereis(parse_name(name)?)))
}

/// What giving up a name asks for.
fn unregister(node: &str, name: &str) -> Result<LineCommand, LineFault>
    ensures { WordsAsk (codes "unregister" ∷ node.now ∷ name.now ∷ []) (asked_by result) }
{
    Ok(call(parse_node_name(node)?, Call::Unregister(parse_name(name)?)))
}

/// What a join asks for.
fn join(node: &str, contact: &str) -> Result<LineCommand, LineFault>
    ensures { WordsAsk (codes "join" ∷ node.now ∷ contact.now ∷ []) (asked_by result) }
{
    Ok(call(parse_node_name(node)?, Call::Join(parse_node(contact)?)))
}

/// What a delivery asks for.
fn deliver(sender: &str, receiver: &str) -> Result<LineCommand, LineFault>
    ensures { WordsAsk (codes "deliver" ∷ sender.now ∷ receiver.now ∷ []) (asked_by result) }
{
    let sender = parse_node_name(sender)?;
    Ok(LineCommand::Play(WorldEvent::Deliver(sender, parse_node_name(receiver)?)))
}

/// What a word with two texts asks for. Each word has a function of its own, so that a line pays for the values of its own word alone;
/// look-ups are tried first, since they come most often.
fn with_two(word: &str, text: &str, next: &str) -> Result<LineCommand, LineFault>
    ensures { WordsAsk (word.now ∷ text.now ∷ next.now ∷ []) (asked_by result) }
{
    match word {
        "whereis" => whereis(text, next),
        "unregister" => unregister(text, next),
        "join" => join(text, next),
        "deliver" => deliver(text, next),
        _ => Err(LineFault::BadLine),
    }
}

/// What a word with three texts asks for.
fn with_three(word: &str, text: &str, next: &str, last: &str) -> Result<LineCommand, LineFault>
    ensures { WordsAsk (word.now ∷ text.now ∷ next.now ∷ last.now ∷ []) (asked_by result) }
{
    match word {
        "register" => {
            let (node, name, owner) = node_name_and_pid(text, next, last)?;
            Ok(call(node, Call::Register(pair_for(name, owner, Rule::Exit))))
        }
        "re_register" => {
            let (node, name, owner) = node_name_and_pid(text, next, last)?;
            Ok(call(node, Call::ReRegister(pair_for(name, owner, Rule::Exit))))
        }
        _ => Err(LineFault::BadLine),
    }
}

/// What a word with four texts asks for.
fn with_four(
    alloc: Global,
    word: &str,
    text: &str,
    next: &str,
    third: &str,
    last: &str,
) -> Result<LineCommand, LineFault>
    ensures asks { result ≢ Err Memory → WordsAsk (word.now ∷ text.now ∷ next.now ∷ third.now ∷ last.now ∷ []) (asked_by result) }
    ensures memory { result ≡ Err Memory → WordsNameNodes (word.now ∷ text.now ∷ next.now ∷ third.now ∷ last.now ∷ []) }
{
    match word {
        "register" => {
            let (node, name, owner, rule) = node_name_pid_and_rule(text, next, third, last)?;
            Ok(call(node, Call::Register(pair_for(name, owner, rule))))
        }
        "re_register" => {
            let (node, name, owner, rule) = node_name_pid_and_rule(text, next, third, last)?;
            Ok(call(node, Call::ReRegister(pair_for(name, owner, rule))))
        }
        "del_lock" => {
            let (holder, id, named) = holder_id_and_nodes(text, next, third, last)?;
            Ok(del_lock(alloc, holder, id, named)?)
        }
        _ => Err(LineFault::BadLine),
    }
}

/// What a word with five texts asks for. The retries are read first: no other text is looked at where they are wrong.
fn with_five(
    alloc: Global,
    word: &str,
    holder: &str,
    resource: &str,
    requester: &str,
    nodes: &str,
    retries: &str,
) -> Result<LineCommand, LineFault>
    ensures asks { result ≢ Err Memory
        → WordsAsk (word.now ∷ holder.now ∷ resource.now ∷ requester.now ∷ nodes.now ∷ retries.now ∷ []) (asked_by result) }
    ensures memory { result ≡ Err Memory
        → WordsNameNodes (word.now ∷ holder.now ∷ resource.now ∷ requester.now ∷ nodes.now ∷ retries.now ∷ []) }
{
    match word {
        "set_lock" => {
            let Some(retries) = parse_retries(retries) else {
                return Err(LineFault::BadLine);
            };
            let (holder, id, named) = holder_id_and_nodes(holder, resource, requester, nodes)?;
            Ok(set_lock(alloc, holder, id, named, retries)?)
        }
        _ => Err(LineFault::BadLine),
    }
}

/// What the words of a line ask for, or why it is refused.
pub fn read_words(alloc: Global, words: &[&str]) -> Result<LineCommand, LineFault>
    ensures asks { result ≢ Err Memory → WordsAsk (map (λ word. word.now) words.now) (asked_by result) }
    ensures memory { result ≡ Err Memory → WordsNameNodes (map (λ word. word.now) words.now) }
{
    match words {
        [word] => bare(word),
        [word, text] => with_one(word, text),
        [word, text, next] => with_two(word, text, next),
        [word, text, next, last] => with_three(word, text, next, last),
        [word, text, next, third, last] => with_four(alloc, word, text, next, third, last),
        [word, holder, resource, requester, nodes, retries] => with_five(
            alloc, word, holder, resource, requester, nodes, retries,
        ),
        _ => Err(LineFault::BadLine),
    }
}
