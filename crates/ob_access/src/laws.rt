//! Laws of the definitions, as clauses of functions that do nothing.

ghost use Rattle.std.specs.Prelude.{◌≡◌, ◌≢◌, ◌↔◌, [], List, All, Bool, Contains, None, Some, true, filter};
ghost use Rattle.ob_base.specs.declared.id.FieldNo.{FieldNo};
ghost use Rattle.ob_base.specs.declared.id.ModelNo.{ModelNo};
ghost use Rattle.ob_base.specs.declared.id.RecId.{RecId};
ghost use Rattle.ob_base.specs.declared.refusal.Op.{Op};
ghost use Rattle.ob_expr.specs.declared.row.Row.{Row};
ghost use Rattle.ob_schema.specs.Facts.{Told};
ghost use Rattle.ob_schema.specs.Models.{field_at};
ghost use Rattle.ob_schema.specs.declared.info.FieldInfo.{FieldInfo};
ghost use Rattle.ob_schema.specs.declared.info.ModelInfo.{ModelInfo};
ghost use Rattle.ob_access.specs.Admission.{admits, applies_to, denier, rules_for};
ghost use Rattle.ob_access.specs.Groups.{IsMember, implied_by, is_superuser};
ghost use Rattle.ob_access.specs.Policies.{IsPolicyOver, PolicyData, field_access};
ghost use Rattle.ob_access.specs.Rights.{allows, field_right, right};
ghost use Rattle.ob_access.specs.Views.{seen_ids, sees};
ghost use Rattle.ob_access.specs.declared.policy.Group.{Group};

/// A user's groups are the least there can be: each set with the stated groups, and with each
/// group the ones that it implies, has them all.
pub fn groups_are_least()
    ensures { (groups : List Group) (stated : List RecId) (chosen : RecId → Bool)
        → ((id : RecId) → Contains stated id → chosen id ≡ true)
        → ((by id : RecId) → chosen by ≡ true → Contains (implied_by groups by) id → chosen id ≡ true)
        → (id : RecId) → IsMember groups stated id → chosen id ≡ true }
{}

/// Of a caller's groups nothing counts but which they are: two callers of one id who are in
/// the same groups have the same rights, the same rows are admitted to them, and they see the same.
pub fn rights_go_by_groups()
    ensures right { (policy : PolicyData) (a b : List RecId) → ((id : RecId) → Contains a id ↔ Contains b id)
        → (user : RecId) (model : ModelNo) (op : Op) → right policy a user model op ≡ right policy b user model op }
    ensures field_right { (policy : PolicyData) (a b : List RecId) → ((id : RecId) → Contains a id ↔ Contains b id)
        → (user : RecId) (model : ModelNo) (field : FieldNo) (writing : Bool)
        → field_right policy a user model field writing ≡ field_right policy b user model field writing }
    ensures denier { (policy : PolicyData) (told : Told) (a b : List RecId) → ((id : RecId) → Contains a id ↔ Contains b id)
        → (user : RecId) (op : Op) (row : Row) → denier policy told a user op row ≡ denier policy told b user op row }
    ensures admits { (policy : PolicyData) (told : Told) (a b : List RecId) → ((id : RecId) → Contains a id ↔ Contains b id)
        → (user : RecId) (op : Op) (row : Row) → admits policy told a user op row ≡ admits policy told b user op row }
    ensures sees { (policy : PolicyData) (told : Told) (a b : List RecId) → ((id : RecId) → Contains a id ↔ Contains b id)
        → (user : RecId) (model : ModelNo) (id : RecId) → sees policy told a user model id ≡ sees policy told b user model id }
{}

/// The field rights of a policy over a registry are those of the fields' definitions.
pub fn field_rights_of_the_registry()
    ensures { (models : List ModelInfo) (policy : PolicyData) → IsPolicyOver models policy
        → (model : ModelNo) (field : FieldNo) (info : FieldInfo) → field_at models model field ≡ Some info
        → (own : List RecId) (user : RecId) (writing : Bool)
        → field_right policy own user model field writing ≡ allows own user writing (field_access policy.groups info) }
{}

/// More groups take no right away.
pub fn rights_grow_with_groups()
    ensures right { (policy : PolicyData) (a b : List RecId) → ((id : RecId) → Contains a id → Contains b id)
        → (user : RecId) (model : ModelNo) (op : Op) → right policy a user model op ≡ true → right policy b user model op ≡ true }
    ensures field_right { (policy : PolicyData) (a b : List RecId) → ((id : RecId) → Contains a id → Contains b id)
        → (user : RecId) (model : ModelNo) (field : FieldNo) (writing : Bool)
        → field_right policy a user model field writing ≡ true → field_right policy b user model field writing ≡ true }
{}

/// More groups take no admission away from a caller to whom one of the model's group rules for
/// the operation applied before. From others they can: the first group rule that comes to apply
/// narrows what was open.
pub fn admissions_grow_with_groups()
    ensures { (policy : PolicyData) (told : Told) (a b : List RecId) → ((id : RecId) → Contains a id → Contains b id)
        → (user : RecId) (op : Op) (row : Row) → filter (applies_to a) (rules_for policy row.model op) ≢ []
        → admits policy told a user op row ≡ true → admits policy told b user op row ≡ true }
{}

/// Where a model has no rules for an operation, every row is admitted to it.
pub fn nothing_denied_without_rules()
    ensures { (policy : PolicyData) (told : Told) (own : List RecId) (user : RecId) (op : Op) (row : Row)
        → rules_for policy row.model op ≡ [] → admits policy told own user op row ≡ true }
{}

/// A rule denies a row exactly where it isn't admitted.
pub fn denier_denies()
    ensures { (policy : PolicyData) (told : Told) (own : List RecId) (user : RecId) (op : Op) (row : Row)
        → (denier policy told own user op row ≡ None) ↔ (admits policy told own user op row ≡ true) }
{}

/// User 1 sees each row that is known, and of a list of rows those that are.
pub fn user_1_sees_all()
    ensures rows { (policy : PolicyData) (told : Told) (own : List RecId) (user : RecId) → is_superuser user ≡ true
        → (model : ModelNo) (id : RecId) → sees policy told own user model id ≡ told.knows model id }
    ensures lists { (policy : PolicyData) (told : Told) (own : List RecId) (user : RecId) → is_superuser user ≡ true
        → (model : ModelNo) (ids : List RecId) → seen_ids policy told own user model ids ≡ filter (told.knows model) ids }
{}

/// Each row that a caller sees is known, and so are those that he sees of a list: he sees each of
/// them by itself too.
pub fn seen_rows_are_known()
    ensures rows { (policy : PolicyData) (told : Told) (own : List RecId) (user : RecId) (model : ModelNo) (id : RecId)
        → sees policy told own user model id ≡ true → told.knows model id ≡ true }
    ensures lists { (policy : PolicyData) (told : Told) (own : List RecId) (user : RecId) (model : ModelNo) (ids : List RecId)
        → All (λ id. sees policy told own user model id ≡ true) (seen_ids policy told own user model ids) }
{}
