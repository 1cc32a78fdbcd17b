//! Rules for names that a joiner and the cluster have.
ghost use Rattle.std.specs.Prelude.{Some, MatchResult};
ghost use Rattle.term.specs.Rules.{SpellsRule, RefusesRule, rule_bytes};

use crate::faults::TextFault;
use std::fmt;

/// What becomes of a name when a lone node joins that has it too, for another process. The rule that stands in the cluster's table
/// decides. It is what `global`'s resolve functions are for, but that it is known which process is which: see docs/PROTOCOL.md.
#[derive(Clone, Copy, Debug, PartialEq, Eq)]
pub enum Rule {
    /// The process on the lesser node has the name, and the other one dies.
    Exit,
    /// The process on the lesser node has the name, and the other one is sent a notice.
    Notify,
    /// Nobody has the name, and both are sent notices.
    NotifyAll,
}

/// Reads a rule: `exit`, `notify` or `notify_all`. An empty text is refused, and any other.
pub fn parse_rule(text: &str) -> Result<Rule, TextFault>
    ensures { MatchResult result (SpellsRule text.now) (RefusesRule text.now) }
{
    match text {
        "exit" => Ok(Rule::Exit),
        "notify" => Ok(Rule::Notify),
        "notify_all" => Ok(Rule::NotifyAll),
        "" => Err(TextFault::Empty),
        _ => Err(TextFault::BadRule),
    }
}

impl fmt::Display for Rule {
    ghost output = { λ r. Some (rule_bytes r) };

    fn fmt<W: fmt::Write>(&self, f: &mut fmt::Formatter<W>) -> fmt::Result {
        f.write_str(match self {
            Rule::Exit => "exit",
            Rule::Notify => "notify",
            Rule::NotifyAll => "notify_all",
        })
    }
}
