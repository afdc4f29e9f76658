//! The fields that terms name, as one wants them who asks for a caller's rights to them. A row
//! meets a domain by these fields, whatever else it has. Which they are is defined in
//! `specs/Naming`.

ghost use Rattle.std.specs.Prelude.{◌≡◌, ◌++◌, List, IfOk, true};
ghost use Rattle.std.specs.List.{list_any};
ghost use Rattle.ob_base.specs.declared.id.ModelNo.{ModelNo};
ghost use Rattle.ob_base.specs.declared.id.RecId.{RecId};
ghost use Rattle.ob_domain.specs.Holding.{holds};
ghost use Rattle.ob_domain.specs.Naming.{AgreeOn, fields_along, item_asks, item_fields, named_fields, paths_asked};
ghost use Rattle.ob_domain.specs.Over.{end_of};
ghost use Rattle.ob_domain.specs.Trees.{Tree, item_of, tree_of};
ghost use Rattle.ob_expr.specs.Meaning.{row_at};
ghost use Rattle.ob_schema.specs.Facts.{Told};

use crate::term::Term;
use ob_base::{FieldNo, ModelNo, NoMemory};
use ob_expr::Link;
use ob_schema::Step;

/// Whether a known row meets a domain goes by which rows are known, by the fields that the
/// domain names, and by the paths of the trees in which it asks where rows stand: by nothing
/// else that facts tell.
pub fn domains_go_by_fields()
    ensures { (model : ModelNo) (tree : Tree) (one other : Told)
        → AgreeOn (named_fields model tree ++ paths_asked tree) one other
        → (user id : RecId) → one.knows model id ≡ true
        → holds one user tree (row_at model id) ≡ holds other user tree (row_at model id) }
{}

/// Adds the fields that terms of a model name.
#[cycle(naming)]
pub(crate) fn add_fields(
    terms: &[Term],
    model: ModelNo,
    fields: &mut Vec<Step>,
) -> Result<(), NoMemory>
    ensures { IfOk result
        (λ _. fields.new.items ≡ fields.old.items ++ named_fields model (tree_of terms.now)) }
{
    for term in terms {
        add_named(term, model, fields)?;
    }
    Ok(())
}

/// Adds the fields that a term names.
#[cycle(naming)]
fn add_named(term: &Term, model: ModelNo, fields: &mut Vec<Step>) -> Result<(), NoMemory>
    ensures { IfOk result
        (λ _. fields.new.items ≡ fields.old.items ++ item_fields model (item_of term.now)) }
{
    match term {
        Term::Criterion(_, field, _) => {
            let field = *field;
            Ok(fields.push(Step { model, field })?)
        }
        Term::Any(_, links, inner) => {
            let end = add_along(links, model, fields)?;
            add_fields(inner, end, fields)
        }
        _ => Ok(()),
    }
}

/// Adds the fields of links, and tells the model to whose rows they lead.
fn add_along(links: &[Link], model: ModelNo, fields: &mut Vec<Step>) -> Result<ModelNo, NoMemory>
    ensures fields { IfOk result
        (λ _. fields.new.items ≡ fields.old.items ++ fields_along model links.now) }
    ensures end { IfOk result (λ end. end ≡ end_of model links.now) }
{
    let mut model = model;
    for link in links {
        let field = link.field;
        fields.push(Step { model, field })?;
        model = link.target;
    }
    Ok(model)
}

/// Whether some term is a criterion on this field.
pub(crate) fn is_asked(terms: &[Term], field: FieldNo) -> bool
    ensures { result ≡ list_any (λ term. item_asks field (item_of term)) terms.now }
{
    terms.iter().any(|term| is_on(term, field))
}

/// Whether a term is a criterion on this field.
fn is_on(term: &Term, field: FieldNo) -> bool
    ensures { result ≡ item_asks field (item_of term.now) }
{
    match term {
        Term::Criterion(_, own, _) => own.0 == field.0,
        _ => false,
    }
}
