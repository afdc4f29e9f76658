//! Every answer of a call that is not Ok, each with what it names. A new way of being
//! broken gets its variant here, at its place in the order, and its name in specs/Names.

ghost use Rattle.std.specs.Prelude.{◌≡◌};
ghost use Rattle.std.specs.Cmp.{IsTotalOrder};
ghost use Rattle.std.specs.FinMap.{IsAntisymmetric};
ghost use Rattle.ob_base.specs.BrokenOrder.{broken_order, kind_place};
ghost use Rattle.ob_base.specs.Names.{op_name, kind_name};

use crate::id::{Cell, FieldNo, ModelNo, RecId, cell_cmp};
use crate::memory::NoMemory;
use crate::place::Place;
use crate::word::Word;
use std::alloc::AllocFailed;
use std::cmp::Ordering;
use std::fmt;

/// What a call does to rows, where a right or a rule is asked for it.
#[derive(Clone, Copy, Debug, PartialEq, Eq, PartialOrd, Ord, Hash)]
pub enum Op {
    Read,
    Create,
    Write,
    Unlink,
}

impl Op {
    /// The operation in small letters, such as `read`.
    pub fn name(&self) -> &'static str
        ensures { result.now ≡ op_name self.now }
    {
        match self {
            Op::Read => "read",
            Op::Create => "create",
            Op::Write => "write",
            Op::Unlink => "unlink",
        }
    }
}

impl fmt::Display for Op {
    ghost use Rattle.std.specs.Prelude.{Some};
    ghost use Rattle.ob_base.specs.Names.{op_name};

    ghost output = { λ op. Some (op_name op) };

    fn fmt<W: fmt::Write>(&self, f: &mut fmt::Formatter<W>) -> fmt::Result {
        write!(f, "{}", self.name())
    }
}

/// How a cell can break what tables must keep. They are declared in the order in which
/// a cell's kinds are named, the first one first.
#[derive(Clone, Copy, Debug, PartialEq, Eq, Hash)]
pub enum BrokenKind {
    Required,
    MissingRef,
    Unique,
    Tree,
    Depth,
    Restrict,
    Check,
    Overflow,
    TooLong,
    ZeroDivisor,
    Locked,
    Fixed,
    Managed,
    Limit,
    Short,
    WrongState,
    BackorderChoice,
    RouteDepth,
    LotNeeded,
    Outside,
}

impl BrokenKind {
    /// The kind as its variant is spelled, such as `MissingRef`.
    pub fn name(&self) -> &'static str
        ensures { result.now ≡ kind_name self.now }
    {
        match self {
            BrokenKind::Required => "Required",
            BrokenKind::MissingRef => "MissingRef",
            BrokenKind::Unique => "Unique",
            BrokenKind::Tree => "Tree",
            BrokenKind::Depth => "Depth",
            BrokenKind::Restrict => "Restrict",
            BrokenKind::Check => "Check",
            BrokenKind::Overflow => "Overflow",
            BrokenKind::TooLong => "TooLong",
            BrokenKind::ZeroDivisor => "ZeroDivisor",
            BrokenKind::Locked => "Locked",
            BrokenKind::Fixed => "Fixed",
            BrokenKind::Managed => "Managed",
            BrokenKind::Limit => "Limit",
            BrokenKind::Short => "Short",
            BrokenKind::WrongState => "WrongState",
            BrokenKind::BackorderChoice => "BackorderChoice",
            BrokenKind::RouteDepth => "RouteDepth",
            BrokenKind::LotNeeded => "LotNeeded",
            BrokenKind::Outside => "Outside",
        }
    }

    /// The place of the kind among those that one cell may have, from 0.
    fn place(self) -> u8
        ensures { result ≡ kind_place self }
    {
        match self {
            BrokenKind::Required => 0,
            BrokenKind::MissingRef => 1,
            BrokenKind::Unique => 2,
            BrokenKind::Tree => 3,
            BrokenKind::Depth => 4,
            BrokenKind::Restrict => 5,
            BrokenKind::Check => 6,
            BrokenKind::Overflow => 7,
            BrokenKind::TooLong => 8,
            BrokenKind::ZeroDivisor => 9,
            BrokenKind::Locked => 10,
            BrokenKind::Fixed => 11,
            BrokenKind::Managed => 12,
            BrokenKind::Limit => 13,
            BrokenKind::Short => 14,
            BrokenKind::WrongState => 15,
            BrokenKind::BackorderChoice => 16,
            BrokenKind::RouteDepth => 17,
            BrokenKind::LotNeeded => 18,
            BrokenKind::Outside => 19,
        }
    }
}

impl fmt::Display for BrokenKind {
    ghost use Rattle.std.specs.Prelude.{Some};
    ghost use Rattle.ob_base.specs.Names.{kind_name};

    ghost output = { λ kind. Some (kind_name kind) };

    fn fmt<W: fmt::Write>(&self, f: &mut fmt::Formatter<W>) -> fmt::Result {
        write!(f, "{}", self.name())
    }
}

/// A cell and how it is broken.
#[derive(Clone, Copy, Debug, PartialEq, Eq, Hash)]
pub struct Broken {
    pub kind: BrokenKind,
    pub cell: Cell,
}

/// Compares broken cells by cell, then by kind in the order in which the kinds are
/// declared: the least of several is the first kind of the first cell. The order is
/// total, and only the same cell, broken in the same way, compares as equal.
#[tactic(auto, using(crate::proofs::BrokenOrderLaws::broken_order_total, crate::proofs::BrokenOrderLaws::broken_order_exact))]
pub fn broken_cmp(a: &Broken, b: &Broken) -> Ordering
    ensures order { result ≡ broken_order a.now b.now }
    ensures total { IsTotalOrder broken_order }
    ensures exact { IsAntisymmetric broken_order }
{
    cell_cmp(&a.cell, &b.cell).then(a.kind.place().cmp(&b.kind.place()))
}

/// Why a request is refused. Each names the part, right, row, rule or cell that
/// stands against it; `Keeper` and `NoMemory` say that the world outside did.
#[derive(Debug, Drop)]
pub enum Refusal {
    /// The part of the request at this place is not of its form.
    Request(Place),
    /// The caller has no right to do this on the model.
    Right(ModelNo, Op),
    /// The caller has no right on the field.
    FieldRight(ModelNo, FieldNo),
    /// There is no such row.
    Missing(ModelNo, RecId),
    /// A rule denies the row. The rule's name is absent for a read, since it would
    /// tell of the row.
    Rule(ModelNo, Op, RecId, Option<Word>),
    /// The tables after the call would break a constraint.
    Constraint(Broken),
    /// The keeper of the rows failed.
    Keeper,
    /// An allocation failed.
    NoMemory,
}

impl From<NoMemory> for Refusal {
    ghost use Rattle.ob_base.specs.declared.refusal.Refusal.TheVariants as refusal;

    ghost from_gives = { λ _ why. why ≡ refusal.NoMemory };

    fn from(_error: NoMemory) -> Refusal {
        Refusal::NoMemory
    }
}

impl<T: Drop> From<AllocFailed<T>> for Refusal {
    ghost use Rattle.ob_base.specs.declared.refusal.Refusal.TheVariants as refusal;

    ghost from_gives = { λ _ why. why ≡ refusal.NoMemory };

    fn from(_error: AllocFailed<T>) -> Refusal {
        Refusal::NoMemory
    }
}
