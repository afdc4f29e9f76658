//! What an audit tells.

ghost use Rattle.std.specs.Prelude.{◌≡◌, ◌++◌, ◌∷◌, ◌&&◌, [], OnOk};

use ob_base::{NoMemory, Sequence, Word};

/// The lines of a report, and whether what is kept is what it should be. The last line says
/// the latter too.
#[derive(Debug, Drop)]
pub struct Report {
    pub lines: Sequence<Word>,
    pub equal: bool,
}

impl Report {
    /// Adds a line, and whether what it tells is as it should be.
    pub(crate) fn add(&mut self, line: Word, agrees: bool) -> Result<(), NoMemory>
        ensures lines { OnOk result (self.new.lines ≡ self.old.lines ++ line ∷ []) }
        ensures equal { OnOk result (self.new.equal ≡ (self.old.equal && agrees)) }
    {
        self.lines.push(line)?;
        self.equal = self.equal && agrees;
        Ok(())
    }
}
