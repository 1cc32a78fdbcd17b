//! Spans of serials, each under the last of them.
ghost use Rattle.std.specs.Prelude.{◌≡◌, ◌+◌, ℕ, true, false, IfNone, IfSome, OnOk, OnErr};
ghost use Rattle.exit_watch.specs.Spans.{AreApart, Covers, Gains, IsSpan, IsFirstFrom, IsNoneFrom};

use std::alloc::AllocError;
use std::collections::BTreeMap;

/// All serials from one to another.
#[derive(Clone, Copy)]
pub(crate) struct Span {
    first: u32,
    last: u32,
}

/// The first span that ends with a serial or behind it.
fn first_from(spans: &BTreeMap<u32, u32>, serial: u32) -> Option<Span>
    ensures some { IfSome result (λ span. IsFirstFrom spans.now.entries serial span.first span.last) }
    ensures none { IfNone result (IsNoneFrom spans.now.entries serial) }
{
    let (last, first) = spans.range(serial..).next()?;
    Some(Span {
        first: *first,
        last: *last,
    })
}

/// Whether a span has this serial.
pub(crate) fn has(spans: &BTreeMap<u32, u32>, serial: u32) -> bool
    requires { AreApart spans.now.entries }
    ensures yes { result ≡ true → Covers spans.now.entries serial }
    ensures no { result ≡ false → Covers spans.now.entries serial → ⊥ }
{
    match first_from(spans, serial) {
        Some(span) => span.first <= serial,
        None => false,
    }
}

/// The span that ends right before a serial, if one does.
fn before(spans: &BTreeMap<u32, u32>, serial: u32) -> Option<Span>
    ensures some { IfSome result (λ span. IsSpan spans.now.entries span.first span.last × (span.last + 1 ≡ serial)) }
    ensures none { IfNone result ((first last : ℕ) → IsSpan spans.now.entries first last → last + 1 ≡ serial → ⊥) }
{
    let last = serial.checked_sub(1)?;
    let first = *spans.get(&last)?;
    Some(Span { first, last })
}

/// The span that begins right behind a serial, if one does.
fn behind(spans: &BTreeMap<u32, u32>, serial: u32) -> Option<Span>
    requires { AreApart spans.now.entries }
    ensures some { IfSome result (λ span. IsSpan spans.now.entries span.first span.last × (span.first ≡ serial + 1)) }
    ensures none { IfNone result ((first last : ℕ) → IsSpan spans.now.entries first last → first ≡ serial + 1 → ⊥) }
{
    let span = first_from(spans, serial)?;
    if span.first > serial && span.first - serial == 1 {
        Some(span)
    } else {
        None
    }
}

/// Makes one span of a serial that no span has and of those that it touches. Memory is taken only where no span begins
/// right behind it, and where it is refused nothing changes.
fn join(spans: &mut BTreeMap<u32, u32>, serial: u32) -> Result<(), AllocError>
    requires apart { AreApart spans.old.entries }
    requires absent { Covers spans.old.entries serial → ⊥ }
    ensures apart { OnOk result (AreApart spans.new.entries) }
    ensures gains { OnOk result (Gains serial spans.old.entries spans.new.entries) }
    ensures err { OnErr result (spans.new.entries ≡ spans.old.entries) }
    ensures refused { OnErr result (Covers spans.old.entries (serial + 1) → ⊥) }
{
    let below = before(spans, serial);
    let above = behind(spans, serial);
    let alone = Span {
        first: serial,
        last: serial,
    };
    let first = below.unwrap_or(alone).first;
    let last = above.unwrap_or(alone).last;
    spans.insert(last, first)?;
    if let Some(span) = below {
        spans.remove(&span.last);
    }
    Ok(())
}

/// A span has this serial from now on. Where memory is refused nothing changes.
pub(crate) fn add(spans: &mut BTreeMap<u32, u32>, serial: u32) -> Result<(), AllocError>
    requires { AreApart spans.old.entries }
    ensures apart { OnOk result (AreApart spans.new.entries) }
    ensures gains { OnOk result (Gains serial spans.old.entries spans.new.entries) }
    ensures err { OnErr result (spans.new.entries ≡ spans.old.entries) }
    ensures refused { OnErr result (Covers spans.old.entries serial → ⊥) }
    ensures refused_next { OnErr result (Covers spans.old.entries (serial + 1) → ⊥) }
{
    if has(spans, serial) {
        return Ok(());
    }
    join(spans, serial)
}
