//! Reading a domain from JSON, term by term in the order of its list. What a list stands for
//! is defined in `specs/Stands`, and which fault is told first in `specs/Reading`.

ghost use Rattle.std.specs.Prelude.{◌≡◌, ◌≢◌, ◌≤◌, List, Err, IfErr, IfOk, MatchResult, Ok, Some, map};
ghost use Rattle.serde_json.specs.View.{view, number_view};
ghost use Rattle.ob_base.specs.Limits.{max_domain_terms};
ghost use Rattle.ob_schema.specs.Models.{HasField, HasModel};
ghost use Rattle.ob_domain.specs.Over.{AreLinks, IsItemOver, IsOver, end_of};
ghost use Rattle.ob_domain.specs.Reading.{any_from, aimed, are_whole, constant_from, constant_of, counted_left, criterion_at, domain_from, item_from, logical_from, taken_in, three_from, tree_from};
ghost use Rattle.ob_domain.specs.Places.{IsCounted, IsRead};
ghost use Rattle.ob_domain.specs.Stands.{Stands, terms_in};
ghost use Rattle.ob_domain.specs.Trees.{Tree, behind, item_of, leaf, tree_of, tree_of_domain};
ghost use Rattle.ob_schema.specs.declared.info.ModelInfo.{ModelInfo};
ghost use Rattle.ob_base.specs.declared.id.ModelNo.{ModelNo};
ghost use Rattle.serde_json.specs.Data.{Data};

use crate::Json;
use crate::aim::{Aim, aim_of, link_at};
use crate::criterion::criterion_of;
use crate::domain::Domain;
use crate::fault::{DomainFault, Unfit};
use crate::operator::{Logical, Operator, Sense, logical_of, operator_of};
use crate::place::{fault_at, inner_of, shape, told_at};
use crate::term::Term;
use ob_base::limits::MAX_DOMAIN_TERMS;
use ob_base::{ModelNo, NoMemory, Sequence};
use ob_expr::Link;
use ob_schema::Schema;
use serde_json::Number;
use std::alloc::Global;

/// The domain of a model that JSON is: a list of terms and of `"&"`, `"|"` (two terms) and
/// `"!"` (one term) before the terms that they take, as the Odoo 17 developer documentation,
/// ORM API, "Search domains", has it. Terms that follow one another must all hold. The first
/// fault in the order of the list is told, of a criterion that of its field, then of its
/// operator, then of its operand.
pub fn read(
    alloc: Global,
    json: &Json,
    schema: &Schema,
    model: ModelNo,
) -> Result<Domain, DomainFault>
    requires { HasModel schema.now model }
    ensures stands { IfOk result (λ domain. Stands schema.now model (view json.now) (tree_of_domain domain)) }
    ensures few { IfOk result (λ _. terms_in (view json.now) ≤ max_domain_terms) }
    ensures over { IfOk result (λ domain. IsOver schema.now model (tree_of_domain domain)) }
    // A list that stands for a tree is read as it, unless it is too long or memory is wanting.
    ensures complete { (tree : Tree) → Stands schema.now model (view json.now) tree
        → terms_in (view json.now) ≤ max_domain_terms
        → MatchResult result (λ domain. tree_of_domain domain ≡ tree) (λ fault. fault ≡ DomainFault.NoMemory) }
    ensures fault { IfErr result (λ fault. fault ≢ DomainFault.NoMemory
        → domain_from schema.now model (view json.now) ≡ Err fault) }
{
    let reader = Reader { alloc, schema };
    let whole = Within {
        model,
        numbers: &[],
    };
    let (terms, _) = reader.terms(json, whole, MAX_DOMAIN_TERMS)?;
    Ok(Domain::new(terms))
}

/// JSON is read as the tree for which it stands, and as no other, unless it is too long.
pub fn one_domain()
    ensures read { (models : List ModelInfo) (model : ModelNo) (d : Data) (tree : Tree)
        → domain_from models model d ≡ Ok tree → Stands models model d tree × (terms_in d ≤ max_domain_terms) }
    ensures taken { (models : List ModelInfo) (model : ModelNo) (d : Data) (tree : Tree)
        → Stands models model d tree → terms_in d ≤ max_domain_terms → domain_from models model d ≡ Ok tree }
{}

/// What goes through a domain and its inner ones. Each part gives what it has read, and how
/// many terms more there may be.
#[derive(Clone, Copy)]
struct Reader<'s> {
    alloc: Global,
    schema: &'s Schema,
}

/// The texts with which a criterion begins.
#[derive(Clone, Copy)]
struct Asked<'j> {
    name: &'j str,
    operator: &'j str,
}

/// A domain that is read: the model whose rows it asks, and the numbers of the items in which
/// it stands.
#[derive(Clone, Copy)]
struct Within<'n> {
    model: ModelNo,
    numbers: &'n [usize],
}

impl Reader<'_> {
    /// The terms of a domain.
    #[cycle(reading)]
    fn terms(
        &self,
        json: &Json,
        within: Within<'_>,
        left: usize,
    ) -> Result<(Vec<Term>, usize), DomainFault>
        requires { HasModel self.now.schema.now within.model }
        ensures told { IsCounted (λ terms. tree_of terms.items) result
            (tree_from self.now.schema.now within.entry.model within.entry.numbers.now left (view json.now)) }
        ensures over { IfOk result (λ read. IsOver self.now.schema.now within.entry.model (tree_of read.0.items)) }
    {
        let Json::Array(items) = json else {
            return Err(shape(self.alloc, within.numbers));
        };
        let mut terms = Vec::new(self.alloc);
        let mut left = left;
        for (number, item) in items.iter().enumerate() {
            let (term, rest) = self.term(item, within, number, left)?;
            terms.push(term)?;
            left = rest;
        }
        if !are_whole(terms.as_slice()) {
            return Err(shape(self.alloc, within.numbers));
        }
        Ok((terms, left))
    }

    /// The term of this number of a domain.
    #[cycle(reading)]
    fn term(
        &self,
        json: &Json,
        within: Within<'_>,
        number: usize,
        left: usize,
    ) -> Result<(Term, usize), DomainFault>
        requires { HasModel self.now.schema.now within.model }
        ensures told { IsCounted item_of result
            (item_from self.now.schema.now within.entry.model within.entry.numbers.now number left (view json.now)) }
        ensures over { IfOk result (λ read. IsItemOver self.now.schema.now within.entry.model (item_of read.0)) }
    {
        match json {
            Json::String(text) => self.logical(text.as_str(), within, left),
            Json::Array(items) => match items.as_slice() {
                [first, operator, operand] => {
                    self.three(operand, first, operator, within, number, left)
                }
                _ => Err(shape(self.alloc, within.numbers)),
            },
            _ => Err(shape(self.alloc, within.numbers)),
        }
    }

    /// The term of three items.
    #[cycle(reading)]
    fn three(
        &self,
        operand: &Json,
        first: &Json,
        operator: &Json,
        within: Within<'_>,
        number: usize,
        left: usize,
    ) -> Result<(Term, usize), DomainFault>
        requires { HasModel self.now.schema.now within.model }
        ensures told { IsCounted item_of result
            (three_from self.now.schema.now within.entry.model within.entry.numbers.now number left (view first.now) (view operator.now) (view operand.now)
            (λ target numbers left. tree_from self.now.schema.now target numbers left (view operand.now))) }
        ensures over { IfOk result (λ read. IsItemOver self.now.schema.now within.entry.model (item_of read.0)) }
    {
        match first {
            Json::String(name) => match operator {
                Json::String(operator) => {
                    let left = self.count(left)?;
                    let numbers = inner_of(self.alloc, within.numbers, number)?;
                    let own = Within {
                        model: within.model,
                        numbers: numbers.as_slice(),
                    };
                    let asked = Asked {
                        name: name.as_str(),
                        operator: operator.as_str(),
                    };
                    self.criterion(operand, asked, own, left)
                }
                _ => Err(shape(self.alloc, within.numbers)),
            },
            Json::Number(first) => self.constant(first, operator, operand, within, left),
            _ => Err(shape(self.alloc, within.numbers)),
        }
    }

    /// The criterion of a field's name and an operator, and of an operand.
    #[cycle(reading)]
    fn criterion(
        &self,
        operand: &Json,
        asked: Asked<'_>,
        own: Within<'_>,
        left: usize,
    ) -> Result<(Term, usize), DomainFault>
        requires { HasModel self.now.schema.now own.model }
        ensures told { IsCounted item_of result
            (criterion_at self.now.schema.now own.entry.model own.entry.numbers.now left asked.entry.name.now asked.entry.operator.now (view operand.now)
            (λ target numbers left. tree_from self.now.schema.now target numbers left (view operand.now))) }
        ensures over { IfOk result (λ read. IsItemOver self.now.schema.now own.entry.model (item_of read.0)) }
    {
        let (alloc, schema) = (self.alloc, self.schema);
        let aim = told_at(
            alloc,
            own.numbers,
            aim_of(alloc, schema, own.model, asked.name),
        )?;
        let Some((sense, operator)) = operator_of(asked.operator) else {
            return Err(fault_at(alloc, Unfit::Operator, own.numbers));
        };
        match operator {
            Operator::Any => self.any(operand, aim, sense, own, left),
            _ => {
                let term = criterion_of(alloc, schema, aim.field, sense, operator, operand);
                let term = told_at(alloc, own.numbers, term)?;
                Ok((behind(alloc, aim.links, term)?, left))
            }
        }
    }

    /// The criterion that some row to which a relation leads meets an inner domain.
    #[cycle(reading)]
    fn any(
        &self,
        operand: &Json,
        aim: Aim,
        sense: Sense,
        own: Within<'_>,
        left: usize,
    ) -> Result<(Term, usize), DomainFault>
        requires field { HasField self.now.schema.now aim.field.model aim.field.field }
        requires links { AreLinks self.now.schema.now own.model aim.links }
        requires end { end_of own.model aim.links ≡ aim.field.model }
        ensures told { IsCounted item_of result
            (aimed aim (any_from self.now.schema.now own.entry.numbers.now left aim sense
            (λ target numbers left. tree_from self.now.schema.now target numbers left (view operand.now)))) }
        ensures over { IfOk result (λ read. IsItemOver self.now.schema.now own.entry.model (item_of read.0)) }
    {
        let link = told_at(self.alloc, own.numbers, link_at(self.schema, aim.field))?;
        let numbers = inner_of(self.alloc, own.numbers, 2)?;
        let inner = Within {
            model: link.target,
            numbers: numbers.as_slice(),
        };
        let (terms, left) = self.terms(operand, inner, left)?;
        let mut links = Vec::new(self.alloc);
        links.push(link)?;
        let term = Term::Any(sense, links, terms);
        Ok((behind(self.alloc, aim.links, term)?, left))
    }

    /// An operator before its terms.
    fn logical(
        &self,
        text: &str,
        within: Within<'_>,
        left: usize,
    ) -> Result<(Term, usize), DomainFault>
        ensures { IsCounted item_of result (logical_from within.entry.numbers.now left text.now) }
    {
        match logical_of(text) {
            Some(logical) => Ok((Term::Logical(logical), self.count(left)?)),
            None => Err(shape(self.alloc, within.numbers)),
        }
    }

    /// The term of three items that begin with a number.
    fn constant(
        &self,
        first: &Number,
        operator: &Json,
        second: &Json,
        within: Within<'_>,
        left: usize,
    ) -> Result<(Term, usize), DomainFault>
        ensures { IsCounted item_of result
            (constant_of within.entry.numbers.now left (number_view first.now) (view operator.now) (view second.now)) }
    {
        match operator {
            Json::String(operator) => match second {
                Json::Number(second) => self.truth(first, operator.as_str(), second, within, left),
                _ => Err(shape(self.alloc, within.numbers)),
            },
            _ => Err(shape(self.alloc, within.numbers)),
        }
    }

    /// `[1,"=",1]` or `[0,"=",1]`.
    fn truth(
        &self,
        first: &Number,
        operator: &str,
        second: &Number,
        within: Within<'_>,
        left: usize,
    ) -> Result<(Term, usize), DomainFault>
        ensures { IsCounted item_of result
            (constant_from within.entry.numbers.now left (number_view first.now) operator.now (number_view second.now)) }
    {
        match (first.as_u64(), operator, second.as_u64()) {
            (Some(1), "=", Some(1)) => Ok((Term::Constant(true), self.count(left)?)),
            (Some(0), "=", Some(1)) => Ok((Term::Constant(false), self.count(left)?)),
            _ => Err(shape(self.alloc, within.numbers)),
        }
    }

    /// How many terms more there may be behind one; a term too many is told of the whole
    /// domain.
    fn count(&self, left: usize) -> Result<usize, DomainFault>
        ensures { IsRead (λ left. left) result (counted_left left) }
    {
        match left.checked_sub(1) {
            Some(left) => Ok(left),
            None => Err(shape(self.alloc, &[])),
        }
    }
}

/// A term that is asked of the rows behind links.
fn behind(alloc: Global, links: Sequence<Link>, term: Term) -> Result<Term, NoMemory>
    ensures { (tree : Tree) → item_of term ≡ leaf tree
        → IfOk result (λ whole. item_of whole ≡ leaf (behind links tree)) }
{
    if links.is_empty() {
        return Ok(term);
    }
    let mut terms = Vec::new(alloc);
    terms.push(term)?;
    Ok(Term::Any(Sense::Positive, links.into_vec(), terms))
}

/// Whether each operator has the terms that it takes. A term is one of those that are still
/// wanted, and wants its own.
fn are_whole(terms: &[Term]) -> bool
    ensures { result ≡ are_whole (map item_of terms.now) }
{
    let mut wanted: usize = 0;
    for term in terms {
        wanted = wanted.saturating_sub(1) + taken_by(term);
    }
    wanted == 0
}

/// How many terms a term takes.
fn taken_by(term: &Term) -> usize
    ensures { result ≡ taken_in (item_of term.now) }
{
    match term {
        Term::Logical(Logical::Not) => 1,
        Term::Logical(_) => 2,
        _ => 0,
    }
}
