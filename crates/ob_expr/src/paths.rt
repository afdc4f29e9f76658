//! What crates above ask of a checked expression without knowing its forms: the paths that
//! it reads, and the same expression over other numbers of fields. A form that is added to
//! `typed` gets its parts here.

ghost use Rattle.std.specs.Prelude.{◌≡◌, ◌++◌, IfOk, map};
ghost use Rattle.std.specs.List.{flat_map};
ghost use Rattle.ob_base.specs.declared.id.FieldNo.{FieldNo};
ghost use Rattle.ob_base.specs.declared.id.ModelNo.{ModelNo};
ghost use Rattle.ob_expr.specs.Renumbering.{end_model, renumbered, renumbered_links, renumbered_route};
ghost use Rattle.ob_expr.specs.Route.{behind, through};
ghost use Rattle.ob_expr.specs.TypedTree.{paths_of, typed_tree_of};

use crate::typed::{Link, Path, Typed};
use ob_base::{FieldNo, ModelNo, NoMemory};
use std::alloc::Global;

/// Other numbers for the fields of the models.
pub trait Renumbering {
    /// The number of a field of a model.
    ghost renumbers: { Self → ModelNo → FieldNo → FieldNo };

    fn number(&self, model: ModelNo, field: FieldNo) -> FieldNo
        ensures { result ≡ renumbers self.now model field };
}

impl Path {
    /// Gives each of its fields its other number; it begins at a row of the model.
    fn renumber<N: Renumbering>(&mut self, numbers: &N, model: ModelNo)
        ensures { self.new ≡ renumbered_route (N.renumbers numbers.now) model self.old }
    {
        let end = renumber_links(self.links.as_mut_slice(), numbers, model);
        self.field = numbers.number(end, self.field);
    }

    /// The path behind links.
    fn behind(&self, alloc: Global, before: &[Link]) -> Result<Path, NoMemory>
        ensures { IfOk result (λ path. path ≡ behind before.now self.now) }
    {
        let mut links = Vec::new(alloc);
        links.extend_from_slice(before)?;
        links.extend_from_slice(self.links())?;
        Ok(Path::new(links, self.field(), self.kind()))
    }

    /// The links to rows of a model through the field at its end, behind links.
    fn through(
        &self,
        alloc: Global,
        before: &[Link],
        target: ModelNo,
    ) -> Result<Vec<Link>, NoMemory>
        ensures { IfOk result (λ links. links.items ≡ before.now ++ through self.now target) }
    {
        let mut links = Vec::new(alloc);
        links.extend_from_slice(before)?;
        links.extend_from_slice(self.links())?;
        links.push(Link {
            field: self.field(),
            target,
        })?;
        Ok(links)
    }
}

/// Gives links from a row of the model their other numbers, and tells the model whose rows
/// they lead to.
fn renumber_links<N: Renumbering>(links: &mut [Link], numbers: &N, model: ModelNo) -> ModelNo
    ensures links { links.new ≡ renumbered_links (N.renumbers numbers.now) model links.old }
    ensures end { result ≡ end_model model links.old }
{
    let mut model = model;
    for link in links.iter_mut() {
        link.field = numbers.number(model, link.field);
        model = link.target;
    }
    model
}

impl Typed {
    /// The paths that it reads, from its row on; those that it reads at targets lead through
    /// the path to them.
    pub fn paths(&self, alloc: Global) -> Result<Vec<Path>, NoMemory>
        ensures { IfOk result (λ paths. paths.items ≡ paths_of (typed_tree_of self.now)) }
    {
        let mut paths = Vec::new(alloc);
        self.add_paths(alloc, &[], &mut paths)?;
        Ok(paths)
    }

    /// Adds its paths, behind links.
    #[cycle(adding)]
    fn add_paths(
        &self,
        alloc: Global,
        before: &[Link],
        paths: &mut Vec<Path>,
    ) -> Result<(), NoMemory>
        ensures { IfOk result (λ _. paths.new.items ≡ paths.old.items ++ map (behind before.now) (paths_of (typed_tree_of self.now))) }
    {
        match self {
            Typed::Path(path) => {
                paths.push(path.behind(alloc, before)?)?;
                Ok(())
            }
            Typed::Prefix(_, inner) => inner.add_paths(alloc, before, paths),
            Typed::Digits(inner) => inner.add_paths(alloc, before, paths),
            Typed::Binary(_, left, right) => {
                left.add_paths(alloc, before, paths)?;
                right.add_paths(alloc, before, paths)
            }
            Typed::Chosen(_, left, right) => {
                left.add_paths(alloc, before, paths)?;
                right.add_paths(alloc, before, paths)
            }
            Typed::If(condition, first, second) => {
                condition.add_paths(alloc, before, paths)?;
                first.add_paths(alloc, before, paths)?;
                second.add_paths(alloc, before, paths)
            }
            Typed::Joined(parts) => add_paths_of(parts, alloc, before, paths),
            Typed::Over(_, path, target, inner) => {
                let links = path.through(alloc, before, *target)?;
                paths.push(path.behind(alloc, before)?)?;
                inner.add_paths(alloc, links.as_slice(), paths)
            }
            _ => Ok(()),
        }
    }

    /// Gives each field that it names its other number; it is evaluated in rows of the model.
    #[cycle(new_numbers)]
    pub fn renumber<N: Renumbering>(&mut self, numbers: &N, model: ModelNo)
        ensures { typed_tree_of self.new
            ≡ renumbered (N.renumbers numbers.now) model (typed_tree_of self.old) }
    {
        match self {
            Typed::Path(path) => path.renumber(numbers, model),
            Typed::Prefix(_, inner) => inner.renumber(numbers, model),
            Typed::Digits(inner) => inner.renumber(numbers, model),
            Typed::Binary(_, left, right) => {
                left.renumber(numbers, model);
                right.renumber(numbers, model);
            }
            Typed::Chosen(_, left, right) => {
                left.renumber(numbers, model);
                right.renumber(numbers, model);
            }
            Typed::If(condition, first, second) => {
                condition.renumber(numbers, model);
                first.renumber(numbers, model);
                second.renumber(numbers, model);
            }
            Typed::Joined(parts) => renumber_parts(parts.as_mut_slice(), numbers, model),
            Typed::Over(_, path, target, inner) => {
                path.renumber(numbers, model);
                inner.renumber(numbers, *target);
            }
            _ => {}
        }
    }
}

/// Adds the paths of parts, behind links.
#[cycle(adding)]
fn add_paths_of(
    parts: &[Typed],
    alloc: Global,
    before: &[Link],
    paths: &mut Vec<Path>,
) -> Result<(), NoMemory>
    ensures { IfOk result (λ _. paths.new.items ≡ paths.old.items ++ flat_map (λ part. map (behind before.now) (paths_of (typed_tree_of part))) parts.now) }
{
    for part in parts {
        part.add_paths(alloc, before, paths)?;
    }
    Ok(())
}

/// Gives each field that parts name its other number.
#[cycle(new_numbers)]
fn renumber_parts<N: Renumbering>(parts: &mut [Typed], numbers: &N, model: ModelNo)
    ensures { map typed_tree_of parts.new ≡ map (λ part. renumbered (N.renumbers numbers.now) model (typed_tree_of part)) parts.old }
{
    for part in parts.iter_mut() {
        part.renumber(numbers, model);
    }
}
