//! Which rows an object of values makes: its own one and parents of this. A parent is told by its
//! link: another link to the same model may be given the id of the row that is made.

use ob_base::FieldNo;

/// What an object of values makes of the rows that it gives something.
#[derive(Clone, Copy)]
pub(crate) enum Made<'l> {
    /// Its own row, and the parents behind these links.
    Row(&'l [FieldNo]),
    /// None: it is written to rows that are there.
    Nothing,
}

impl Made<'_> {
    /// Whether the parent behind a link is made.
    pub(crate) fn has_parent(&self, link: FieldNo) -> bool {
        match self {
            Made::Row(links) => links.contains(&link),
            Made::Nothing => false,
        }
    }

    /// Whether the parent behind a link is made, or without a link the row itself.
    pub(crate) fn has_row(&self, behind: Option<FieldNo>) -> bool {
        match behind {
            Some(link) => self.has_parent(link),
            None => matches!(self, Made::Row(_)),
        }
    }
}
