//! Rights on models and on fields.

ghost use Rattle.std.specs.Prelude.{◌≡◌, option_map};
ghost use Rattle.std.specs.List.{list_any};
ghost use Rattle.ob_schema.specs.Built.{numbered};
ghost use Rattle.ob_access.specs.Groups.{is_open_to, is_superuser};
ghost use Rattle.ob_access.specs.Rights.{allows, field_access_at, field_right, is_for, right};

use crate::groups::GroupSet;
use crate::index::listed;
use crate::policy::{FieldAccess, Policy};
use ob_base::{FieldNo, ModelNo, Op, RecId};

impl Policy {
    /// Whether a caller has the right to an operation on a model's rows.
    pub fn right(&self, groups: &GroupSet, user: RecId, model: ModelNo, op: Op) -> bool
        ensures { result ≡ right self.now groups.now user model op }
    {
        is_superuser(user) || is_for_some(groups, listed(&self.lines, model, op))
    }

    /// Whether a caller has the right to read a field of a model, or to write it; on a field
    /// that isn't there nobody has one.
    pub fn field_right(
        &self,
        groups: &GroupSet,
        user: RecId,
        model: ModelNo,
        field: FieldNo,
        writing: bool,
    ) -> bool
        ensures { result ≡ field_right self.now groups.now user model field writing }
    {
        match self.field_access(model, field) {
            Some(access) => allows(groups, user, writing, access),
            None => false,
        }
    }

    /// Who may use a field, where there is one.
    fn field_access(&self, model: ModelNo, field: FieldNo) -> Option<&FieldAccess>
        ensures { option_map (λ access. access.now) result ≡ field_access_at self.now model field }
    {
        let fields = numbered(self.fields.as_slice(), model.0)?;
        numbered(fields.as_slice(), field.0)
    }
}

/// What has this number, counted from 1.
fn numbered<T>(items: &[T], number: u16) -> Option<&T>
    ensures { option_map (λ item. item.now) result ≡ numbered items.now number }
{
    items.get(usize::from(number).checked_sub(1)?)
}

/// Whether the caller is user 1.
pub(crate) fn is_superuser(user: RecId) -> bool
    ensures { result ≡ is_superuser user }
{
    user.0 == 1
}

/// Whether one of some lines is for every user, or for one of these groups.
fn is_for_some(groups: &GroupSet, lines: &[Option<RecId>]) -> bool
    ensures { result ≡ list_any (is_for groups.now) lines.now }
{
    lines.iter().any(|group| is_for(groups, *group))
}

/// Whether a line is for every user, or for one of these groups.
fn is_for(groups: &GroupSet, group: Option<RecId>) -> bool
    ensures { result ≡ is_for groups.now group }
{
    match group {
        Some(id) => groups.has(id),
        None => true,
    }
}

/// Whether a field may be read, or written, by a caller with these groups.
fn allows(groups: &GroupSet, user: RecId, writing: bool, access: &FieldAccess) -> bool
    ensures { result ≡ allows groups.now user writing access.now }
{
    if access.secret {
        writing && is_open_to(groups, access)
    } else {
        is_superuser(user) || is_open_to(groups, access)
    }
}

/// Whether a field names no groups, or one of these.
fn is_open_to(groups: &GroupSet, access: &FieldAccess) -> bool
    ensures { result ≡ is_open_to groups.now access.now.groups }
{
    match &access.groups {
        Some(ids) => groups.has_some(ids.as_slice()),
        None => true,
    }
}
