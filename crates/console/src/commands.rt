//! What the lines of a console say: an arm for each.
ghost use Rattle.std.specs.Prelude.{◌≡◌, ◌≢◌, ◌∷◌, [], ℕ, Bool, List, Some, true, map, take, IfOk, MatchBool, MatchOption, MatchResult};
ghost use Rattle.std.specs.Option.{option_map};
ghost use Rattle.text_lines.specs.Lines.{IsKept};
ghost use Rattle.text_lines.specs.Words.{words as words_in};
ghost use Rattle.command_lines.specs.Commands.{asked_by};
ghost use Rattle.term.specs.Rules.{SpellsRule};
ghost use Rattle.term.specs.Spelling.{SpellsText, SpellsPid};
ghost use Rattle.command_lines.specs.Grammar.{WordsAsk, FirstRefused, Name as AName, Pid as APid, Rule as ARule};
ghost use Rattle.console.specs.Commands.{LineSays, WordsAskNode, WordsSay, SaysAtStaying, SaysElse, TextSays, AsksServer, BeginsNames, AsksOwn, AsksAsScript, OwnAsk, begins_lock, process_first, process_second, is_lock_word as any_lock_word, meant, meant_by, fence, help, names_with, quit, shutdown, spawn_link, status};
ghost use Rattle.console.specs.Links.{linked_in, own_text};

use crate::inquiries::{behind_word, described_in, inquiry_in, read_described};
use crate::links::Links;
use crate::orders::{Command, Inquiry, Order};
use arrayvec::ArrayVec;
use command_lines::{
    Call, LineCommand, LineFault, LocalEvent, Pair, WorldEvent, ran_out, read_words, text_of,
};
use std::alloc::{AllocError, Global};
use term::{MOST_WORDS, Name, Pid, Rule, TextFault, parse_name, parse_node, parse_pid, parse_rule};
use text_lines::{Line, first_words};

/// The values of two texts, or the fault of the first that spells none.
pub(crate) fn name_and_pid(name: &str, pid: &str) -> Result<(Name, Pid), TextFault>
    ensures { MatchResult result (λ v. SpellsText name.now v.0 × SpellsPid pid.now v.1)
        (FirstRefused (AName ∷ APid ∷ []) (name.now ∷ pid.now ∷ [])) }
{
    Ok((parse_name(name)?, parse_pid(pid)?))
}

/// The same behind which a rule stands.
fn name_pid_and_rule(name: &str, pid: &str, rule: &str) -> Result<(Name, Pid, Rule), TextFault>
    ensures { MatchResult result (λ v. SpellsText name.now v.0 × SpellsPid pid.now v.1 × SpellsRule rule.now v.2)
        (FirstRefused (AName ∷ APid ∷ ARule ∷ []) (name.now ∷ pid.now ∷ rule.now ∷ [])) }
{
    Ok((parse_name(name)?, parse_pid(pid)?, parse_rule(rule)?))
}

/// What a word alone asks.
fn bare(word: &str) -> Result<Order, LineFault>
    ensures { AsksOwn word.now [] result }
{
    match word {
        "spawn" => Ok(Order::Call(Call::Spawn)),
        "names" => Ok(Order::Call(Call::RegisteredNames)),
        "leave" => Ok(Order::Leave),
        _ => Err(LineFault::BadLine),
    }
}

/// What a word with one text asks.
fn with_one(word: &str, text: &str) -> Result<Order, LineFault>
    ensures { AsksOwn word.now (text.now ∷ []) result }
{
    match word {
        "exit" => Ok(Order::Exit(parse_pid(text)?)),
        "notices" => Ok(Order::Call(Call::Notices(parse_pid(text)?))),
        "unregister" => Ok(Order::Call(Call::Unregister(parse_name(text)?))),
        "whereis" => Ok(Order::Whereis(parse_name(text)?)),
        "join" => Ok(Order::Call(Call::Join(parse_node(text)?))),
        _ => Err(LineFault::BadLine),
    }
}

/// What a word with two texts asks.
fn with_two(word: &str, text: &str, next: &str) -> Result<Order, LineFault>
    ensures { AsksOwn word.now (text.now ∷ next.now ∷ []) result }
{
    match word {
        "register" => {
            let (name, owner) = name_and_pid(text, next)?;
            let rule = Rule::Exit;
            Ok(Order::Call(Call::Register(Pair { name, owner, rule })))
        }
        "re_register" => {
            let (name, owner) = name_and_pid(text, next)?;
            let rule = Rule::Exit;
            Ok(Order::Call(Call::ReRegister(Pair { name, owner, rule })))
        }
        _ => Err(LineFault::BadLine),
    }
}

/// What a word with three texts asks.
fn with_three(word: &str, text: &str, next: &str, last: &str) -> Result<Order, LineFault>
    ensures { AsksOwn word.now (text.now ∷ next.now ∷ last.now ∷ []) result }
{
    match word {
        "register" => {
            let (name, owner, rule) = name_pid_and_rule(text, next, last)?;
            Ok(Order::Call(Call::Register(Pair { name, owner, rule })))
        }
        "re_register" => {
            let (name, owner, rule) = name_pid_and_rule(text, next, last)?;
            Ok(Order::Call(Call::ReRegister(Pair { name, owner, rule })))
        }
        _ => Err(LineFault::BadLine),
    }
}

/// What words ask that are no lock call.
fn read_own(words: &[&str]) -> Result<Order, LineFault>
    ensures { OwnAsk (map (λ word. word.now) words.now) result }
{
    match words {
        [word] => bare(word),
        [word, text] => with_one(word, text),
        [word, text, next] => with_two(word, text, next),
        [word, text, next, last] => with_three(word, text, next, last),
        _ => Err(LineFault::BadLine),
    }
}

/// What a lock call asks that was read as one of a script.
#[tactic(auto, using(crate::proofs::LockCalls::lock_calls_call))]
fn order_of(task: Result<LineCommand, LineFault>) -> Result<Order, LineFault>
    ensures { (word : List ℕ) (texts : List (List ℕ)) → any_lock_word word ≡ true → WordsAsk (word ∷ texts) (asked_by task)
        → AsksAsScript word texts result }
{
    match task {
        Ok(LineCommand::Play(WorldEvent::At(_, LocalEvent::Call(call)))) => Ok(Order::Call(call)),
        // No lock call asks for anything else.
        Ok(_) => Err(LineFault::BadLine),
        Err(fault) => Err(fault),
    }
}

/// Whether a lock call begins with this word.
fn is_lock_word(word: &str) -> bool
    ensures { result ≡ any_lock_word word.now }
{
    matches!(word, "set_lock" | "del_lock")
}

/// Whether words begin as a lock call does.
fn is_lock_call(words: &[&str]) -> bool
    ensures { result ≡ begins_lock (map (λ word. word.now) words.now) }
{
    match words {
        [word, ..] => is_lock_word(word),
        [] => false,
    }
}

/// Whether words end a console.
fn is_quit(words: &[&str]) -> bool
    ensures { MatchBool result (map (λ word. word.now) words.now ≡ quit) (map (λ word. word.now) words.now ≢ quit) }
{
    match words {
        [word] => matches!(*word, "quit"),
        _ => false,
    }
}

/// Whether words shut a server down: in a console of one that stays.
fn is_shutdown(words: &[&str], stays: bool) -> bool
    ensures { MatchBool result (SaysAtStaying stays shutdown (map (λ word. word.now) words.now))
        (SaysElse stays shutdown (map (λ word. word.now) words.now)) }
{
    match words {
        [word] => stays && matches!(*word, "shutdown"),
        _ => false,
    }
}

/// Whether words ask how things stand: in a console of a server that stays.
fn is_status(words: &[&str], stays: bool) -> bool
    ensures { MatchBool result (SaysAtStaying stays status (map (λ word. word.now) words.now))
        (SaysElse stays status (map (λ word. word.now) words.now)) }
{
    match words {
        [word] => stays && matches!(*word, "status"),
        _ => false,
    }
}

/// Whether words ask by which step the console was granted a lock last: in a console of a server that stays.
fn is_fence(words: &[&str], stays: bool) -> bool
    ensures { MatchBool result (SaysAtStaying stays fence (map (λ word. word.now) words.now))
        (SaysElse stays fence (map (λ word. word.now) words.now)) }
{
    match words {
        [word] => stays && matches!(*word, "fence"),
        _ => false,
    }
}

/// Whether words ask which lines there are: in a console of a server that stays.
fn is_help(words: &[&str], stays: bool) -> bool
    ensures { MatchBool result (SaysAtStaying stays help (map (λ word. word.now) words.now))
        (SaysElse stays help (map (λ word. word.now) words.now)) }
{
    match words {
        [word] => stays && matches!(*word, "help"),
        _ => false,
    }
}

/// The text with which names begin that words ask for: in a console of a server that stays.
fn beginning_in<'a>(words: &[&'a str], stays: bool) -> Option<&'a str>
    ensures { MatchOption result ((text : List ℕ) → SaysElse stays (names_with text) (map (λ word. word.now) words.now))
        (λ text. SaysAtStaying stays (names_with text.now) (map (λ word. word.now) words.now)) }
{
    match words {
        [word, text] if stays && matches!(*word, "names") => Some(*text),
        _ => None,
    }
}

/// What words say that ask for the names which begin with this text.
fn read_beginning(text: &str) -> Result<Command, LineFault>
    ensures { BeginsNames text.now result }
{
    Ok(Command::NamesFrom(parse_name(text)?))
}

/// Whether words ask for a process that is linked to the console.
fn is_spawn_link(words: &[&str]) -> bool
    ensures { MatchBool result (map (λ word. word.now) words.now ≡ spawn_link) (map (λ word. word.now) words.now ≢ spawn_link) }
{
    match words {
        [word] => matches!(*word, "spawn_link"),
        _ => false,
    }
}

/// What a lock call asks. It is read as in a script.
fn read_lock_call(alloc: Global, words: &[&str]) -> Result<Result<Order, LineFault>, AllocError>
    requires { begins_lock (map (λ word. word.now) words.now) ≡ true }
    ensures { IfOk result (WordsAskNode (map (λ word. word.now) words.now)) }
{
    let task = read_words(alloc, words);
    if ran_out(&task) {
        return Err(AllocError);
    }
    Ok(order_of(task))
}

/// What words ask of the console's node.
fn read_order(alloc: Global, words: &[&str]) -> Result<Result<Order, LineFault>, AllocError>
    ensures { IfOk result (WordsAskNode (map (λ word. word.now) words.now)) }
{
    if is_lock_call(words) {
        read_lock_call(alloc, words)
    } else {
        Ok(read_own(words))
    }
}

/// What a line says that asks what a server knows.
fn asking(inquiry: Result<Inquiry, LineFault>) -> Result<Command, LineFault>
    ensures { (stays : Bool) (ws : List (List ℕ)) → AsksServer stays ws inquiry → WordsSay stays ws result }
{
    match inquiry {
        Ok(inquiry) => Ok(Command::Inquire(inquiry)),
        Err(fault) => Err(fault),
    }
}

/// What words say, in a console of a server that stays or of another.
fn read_said(
    alloc: Global,
    words: &[&str],
    stays: bool,
) -> Result<Result<Command, LineFault>, AllocError>
    ensures { IfOk result (WordsSay stays (map (λ word. word.now) words.now)) }
{
    if is_quit(words) {
        return Ok(Ok(Command::Quit));
    }
    if is_shutdown(words, stays) {
        return Ok(Ok(Command::Shutdown));
    }
    if is_spawn_link(words) {
        return Ok(Ok(Command::SpawnLink));
    }
    if is_status(words, stays) {
        return Ok(Ok(Command::Status));
    }
    if is_fence(words, stays) {
        return Ok(Ok(Command::Fence));
    }
    if is_help(words, stays) {
        return Ok(Ok(Command::Help));
    }
    if let Some(text) = beginning_in(words, stays) {
        return Ok(read_beginning(text));
    }
    if let Some(inquiry) = inquiry_in(words, stays) {
        return Ok(asking(inquiry));
    }
    match read_order(alloc, words)? {
        Ok(order) => Ok(Ok(Command::Ask(order))),
        Err(fault) => Ok(Err(fault)),
    }
}

/// Whether a process stands first behind this word.
fn takes_process_first(word: &str) -> bool
    ensures { result ≡ process_first word.now }
{
    matches!(
        word,
        "exit" | "notices" | "describe" | "set_lock" | "del_lock"
    )
}

/// Whether a process stands second behind this word.
fn takes_process_second(word: &str) -> bool
    ensures { result ≡ process_second word.now }
{
    matches!(word, "register" | "re_register" | "wait")
}

/// What a text means, by whether a process stands there: `self` is the console's own one then.
fn meant_text<'a>(text: &'a str, stands: bool, own: &'a str) -> &'a str
    ensures { result.now ≡ meant_by (Some own.now) stands text.now }
{
    if stands && matches!(text, "self") {
        own
    } else {
        text
    }
}

/// Puts the console's own process, where it has one, in the place of `self`, where a process stands.
fn spell_own<'a>(words: &mut [&'a str], own: Option<&'a str>)
    ensures { map (λ word. word.now) words.new
        ≡ meant (option_map (λ text. text.now) own.entry) (map (λ word. word.now) words.old) }
{
    let Some(own) = own else {
        return;
    };
    if words.len() > 1 {
        words[1] = meant_text(words[1], takes_process_first(words[0]), own);
    }
    if words.len() > 2 {
        words[2] = meant_text(words[2], takes_process_second(words[0]), own);
    }
}

/// The first words of a text, as they are meant in a console with this process of its own.
fn meant_words<'a>(text: &'a str, own: Option<&'a str>) -> ArrayVec<&'a str, MOST_WORDS>
    ensures { map (λ word. word.now) result.items ≡ meant (option_map (λ text. text.now) own.entry) (take MOST_WORDS (words_in text.now)) }
{
    let mut words = first_words(text);
    spell_own(&mut words, own);
    words
}

/// What the text of a process means: `self` is the console's own one, where it has one.
fn meant_process<'a>(text: &'a str, own: Option<&'a str>) -> &'a str
    ensures { result.now ≡ meant_by (option_map (λ text. text.now) own.entry) true text.now }
{
    match own {
        Some(own) => meant_text(text, true, own),
        None => text,
    }
}

/// What the words of a text say, in a console with this process of its own.
#[tactic(auto, using(crate::proofs::Meaning::first_words_say))]
fn read_meant(
    alloc: Global,
    text: &str,
    own: Option<&str>,
    stays: bool,
) -> Result<Result<Command, LineFault>, AllocError>
    ensures { IfOk result (WordsSay stays (meant (option_map (λ text. text.now) own.entry) (words_in text.now))) }
{
    read_said(alloc, &meant_words(text, own), stays)
}

/// What a text says, in a console with this process of its own.
#[tactic(auto, using(crate::proofs::Meaning::text_describes, crate::proofs::Meaning::text_says))]
fn read_text(
    alloc: Global,
    text: &str,
    own: Option<&str>,
    stays: bool,
) -> Result<Result<Command, LineFault>, AllocError>
    ensures { IfOk result (TextSays stays (option_map (λ text. text.now) own.entry) text.now) }
{
    match described_in(&first_words(text), stays) {
        Some(process) => {
            let said = behind_word(behind_word(text));
            Ok(read_described(meant_process(process, own), said))
        }
        None => read_meant(alloc, text, own, stays),
    }
}

/// What a line says, in a console of a server that stays or of another, or why it is refused. `self` is the process that was linked
/// last, where a process stands in the line and one is linked.
pub(crate) fn read_command(
    alloc: Global,
    line: &Line,
    links: &Links,
    stays: bool,
) -> Result<Result<Command, LineFault>, AllocError>
    ensures { IfOk result (λ command. (bytes : List ℕ) → IsKept bytes line.now
        → LineSays stays (own_text (linked_in links.now)) bytes command) }
{
    match text_of(line) {
        Ok(text) => {
            let own = links.own_text(alloc)?;
            read_text(alloc, text, own.as_deref(), stays)
        }
        Err(fault) => Ok(Err(fault)),
    }
}
