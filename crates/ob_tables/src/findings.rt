//! What was found to be broken: the first of it, and whether rows can be followed. Rooms
//! that look for broken cells add here what they find.

ghost use Rattle.std.specs.Prelude.{◌≡◌, ◌⊎◌, None, Some, true, IfSome, IsSomeAnd, IsTrue};
ghost use Rattle.ob_base.specs.declared.refusal.Broken.{Broken};
ghost use Rattle.ob_tables.specs.Finding.{Finds, IsUpTo, unties};

use ob_base::{Broken, BrokenKind, Cell, broken_cmp};

/// The first that was found so far, by cell, then kind.
#[derive(Clone, Copy, Debug, PartialEq, Eq)]
pub(crate) struct Findings {
    pub(crate) first: Option<Broken>,
    /// Whether rows lead to rows that are there, and trees are trees, as far as was found.
    pub(crate) is_tied: bool,
}

/// Nothing is found yet.
pub(crate) fn no_findings() -> Findings
    ensures first { result.first ≡ None }
    ensures tied { result.is_tied ≡ true }
{
    Findings {
        first: None,
        is_tied: true,
    }
}

/// Adds that a cell is broken in this way, if it is.
pub(crate) fn add_if(findings: &mut Findings, is_broken: bool, kind: BrokenKind, cell: Cell)
    ensures { Finds (λ b. (b ≡ record { kind = kind; cell = cell }) × IsTrue is_broken) findings.old findings.new }
{
    if is_broken {
        add(findings, Broken { kind, cell });
    }
}

/// Adds a broken cell.
fn add(findings: &mut Findings, broken: Broken)
    ensures { Finds (λ b. b ≡ broken) findings.old findings.new }
{
    findings.is_tied = findings.is_tied && !unties(broken.kind);
    findings.first = first_of(findings.first, broken);
}

/// Whether rows can't be followed where a cell is broken in this way.
fn unties(kind: BrokenKind) -> bool
    ensures { result ≡ unties kind }
{
    matches!(
        kind,
        BrokenKind::MissingRef | BrokenKind::Tree | BrokenKind::Depth
    )
}

/// The first of what was found before and another.
fn first_of(before: Option<Broken>, broken: Broken) -> Option<Broken>
    ensures among { IfSome result (λ b. (before ≡ Some b) ⊎ (b ≡ broken)) }
    ensures least { (b : Broken) → (before ≡ Some b) ⊎ (b ≡ broken) → IsSomeAnd result (λ first. IsUpTo first b) }
{
    match before {
        Some(first) if broken_cmp(&first, &broken).is_lt() => Some(first),
        _ => Some(broken),
    }
}
