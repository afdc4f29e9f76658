//! Where in a request's body something is wrong: a path of keys and items.

ghost use Rattle.std.specs.Prelude.{◌≡◌, ◌∷◌, ◌++◌, [], IfOk, OnOk, OnErr};
ghost use Rattle.ob_base.specs.PathText.{path_text};
ghost use Rattle.ob_base.specs.declared.place.PathStep.TheVariants.{Key};

use crate::memory::NoMemory;
use crate::word::Word;
use std::alloc::Global;
use std::fmt;
use std::marker::Model;

/// One step of a path: a key of an object, or an item of a list, from 0.
#[derive(Debug, Drop)]
pub enum PathStep {
    Key(Word),
    Item(u64),
}

impl PathStep {
    /// The same step again.
    pub fn try_clone(&self, alloc: Global) -> Result<PathStep, NoMemory>
        ensures { IfOk result (λ step. step ≡ self.now) }
    {
        match self {
            PathStep::Key(name) => Ok(PathStep::Key(name.try_clone(alloc)?)),
            PathStep::Item(number) => Ok(PathStep::Item(*number)),
        }
    }
}

impl fmt::Display for PathStep {
    ghost use Rattle.std.specs.Prelude.{Some};
    ghost use Rattle.ob_base.specs.PathText.{step_text};

    ghost output = { λ step. Some (step_text step) };

    fn fmt<W: fmt::Write>(&self, f: &mut fmt::Formatter<W>) -> fmt::Result {
        match self {
            PathStep::Key(name) => write!(f, "{name}"),
            PathStep::Item(number) => write!(f, "{number}"),
        }
    }
}

/// A path from the whole body to the part that is meant. The whole body is the
/// empty path. Its text has the steps with dots between them, such as
/// `params.args.5.0.name`.
#[derive(Debug, Drop)]
pub struct Place {
    steps: Vec<PathStep>,
}

impl Model for Place {
    ghost use Rattle.std.specs.Prelude.{List};
    ghost use Rattle.ob_base.specs.declared.place.PathStep.{PathStep};

    ghost Value = { List PathStep };

    ghost view = { λ p. p.steps.items };
}

impl Place {
    /// The whole body.
    pub fn whole(alloc: Global) -> Place
        ensures { result ≡ [] }
    {
        Place {
            steps: Vec::new(alloc),
        }
    }

    /// Goes on to a part of the part that is meant, or leaves the path as it was.
    pub fn push(&mut self, step: PathStep) -> Result<(), NoMemory>
        ensures ok { OnOk result (self.new ≡ self.old ++ step ∷ []) }
        ensures err { OnErr result (self.new ≡ self.old) }
    {
        self.steps.push(step)?;
        Ok(())
    }

    /// Goes on to a key of the part that is meant, or leaves the path as it was.
    pub fn push_key(&mut self, alloc: Global, name: &str) -> Result<(), NoMemory>
        ensures ok { OnOk result (self.new ≡ self.old ++ Key name.now ∷ []) }
        ensures err { OnErr result (self.new ≡ self.old) }
    {
        self.push(PathStep::Key(Word::from_text(alloc, name)?))
    }

    /// Goes on by the steps of a path below the part that is meant, or leaves the path as
    /// it was.
    pub fn extend(&mut self, alloc: Global, below: &Place) -> Result<(), NoMemory>
        ensures ok { OnOk result (self.new ≡ self.old ++ below.now) }
        ensures err { OnErr result (self.new ≡ self.old) }
    {
        let mut steps = same_steps(alloc, below.steps())?;
        self.steps.append(&mut steps)?;
        Ok(())
    }

    /// The steps from the whole body on.
    pub fn steps(&self) -> &[PathStep]
        ensures { result.now ≡ self.now }
    {
        self.steps.as_slice()
    }

    /// The path's text as a word.
    pub fn to_word(&self, alloc: Global) -> Result<Word, NoMemory>
        ensures { IfOk result (λ word. word ≡ path_text self.now) }
    {
        Ok(Word::new(format!(in alloc; "{self}")?))
    }
}

/// The same steps again.
fn same_steps(alloc: Global, steps: &[PathStep]) -> Result<Vec<PathStep>, NoMemory>
    ensures { IfOk result (λ copy. copy.items ≡ steps.now) }
{
    let mut copy = Vec::new(alloc);
    for step in steps {
        copy.push(step.try_clone(alloc)?)?;
    }
    Ok(copy)
}

impl fmt::Display for Place {
    ghost use Rattle.std.specs.Prelude.{Some};
    ghost use Rattle.ob_base.specs.PathText.{path_text};

    ghost output = { λ place. Some (path_text place) };

    fn fmt<W: fmt::Write>(&self, f: &mut fmt::Formatter<W>) -> fmt::Result {
        if let [first, rest @ ..] = self.steps.as_slice() {
            write!(f, "{first}")?;
            for step in rest {
                write!(f, ".{step}")?;
            }
        }
        Ok(())
    }
}
