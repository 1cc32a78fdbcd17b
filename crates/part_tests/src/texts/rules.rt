//! Worked rows of rules.
use crate::texts::reading::{is_refused, is_text};
use std::alloc::Global;
use term::{Rule, TextFault, parse_rule};

/// Whether a text is read as this rule, and shown as it.
fn is_rule(alloc: Global, text: &str, wanted: Rule) -> bool {
    match parse_rule(text) {
        Ok(rule) => rule == wanted && is_text(format!(in alloc; "{rule}"), text),
        Err(_) => false,
    }
}

#[test]
fn reads_and_shows_rules(rt: HostRuntime) {
    assert!(rt; is_rule(rt.alloc(), "exit", Rule::Exit));
    assert!(rt; is_rule(rt.alloc(), "notify", Rule::Notify));
    assert!(rt; is_rule(rt.alloc(), "notify_all", Rule::NotifyAll));
    assert!(rt;
        is_refused(parse_rule(""), TextFault::Empty)
            && is_refused(parse_rule("notif"), TextFault::BadRule)
    );
}
