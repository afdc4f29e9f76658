//! The module `base`, which is loaded in any case: users and their groups, and who may use
//! them. The text is a module file as docs/MODULES.md has it, and is changed here.

/// The text of `base`.
pub(crate) const BASE: &str = r#"
name = "base"

[[model]]
name = "res.groups"
managed = true
unique = [["name"]]

[model.field]
name = { type = "char", required = true }

[[model]]
name = "res.users"
unique = [["login"]]

[model.field]
name = { type = "char", required = true }
login = { type = "char", required = true }
key = { type = "char", required = true, secret = true }
active = { type = "boolean", default = true }
groups_id = { type = "many2many", relation = "res.groups" }

[[group]]
name = "group_user"

[[group]]
name = "group_system"
implies = ["base.group_user"]

[[access]]
model = "res.users"
group = "base.group_user"
read = true

[[access]]
model = "res.users"
group = "base.group_system"
read = true
create = true
write = true
unlink = true

[[access]]
model = "res.groups"
group = "base.group_user"
read = true
"#;
