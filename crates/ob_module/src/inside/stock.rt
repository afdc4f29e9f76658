//! The module `stock`, which is loaded in any case: places, products, and how goods move between
//! places, with the groups of those who handle them. The text is a module file as docs/MODULES.md
//! has it, and is changed here.

/// The text of `stock`.
pub(crate) const STOCK: &str = r#"
name = "stock"
depends = ["base"]

# Places. Goods are kept in those of usage internal and transit.
[[model]]
name = "stock.location"
parent = "location_id"

[model.field]
name = { type = "char", required = true }
location_id = { type = "many2one", relation = "stock.location", ondelete = "restrict" }
child_ids = { type = "one2many", relation = "stock.location", inverse = "location_id" }
scrap_location = { type = "boolean" }
removal = { type = "selection", selection = [["fifo", "fifo"], ["lifo", "lifo"], ["fefo", "fefo"], ["closest", "closest"]] }
active = { type = "boolean", default = true }

[model.field.usage]
type = "selection"
required = true
fixed = true
default = "internal"
selection = [
    ["supplier", "supplier"],
    ["view", "view"],
    ["internal", "internal"],
    ["customer", "customer"],
    ["inventory", "inventory"],
    ["production", "production"],
    ["transit", "transit"],
]

[model.field.complete_name]
type = "char"
store = true
recursive = true
compute = 'if(location_id = unset or usage = "view", name, cat(location_id.complete_name, "/", name))'
depends = ["location_id.complete_name", "usage", "name"]

[[model]]
name = "product.category"
parent = "parent_id"

[model.field]
name = { type = "char", required = true }
parent_id = { type = "many2one", relation = "product.category", ondelete = "cascade" }
removal = { type = "selection", selection = [["fifo", "fifo"], ["lifo", "lifo"], ["fefo", "fefo"], ["closest", "closest"]] }

[model.field.complete_name]
type = "char"
store = true
recursive = true
compute = 'if(parent_id = unset, name, cat(parent_id.complete_name, " / ", name))'
depends = ["parent_id.complete_name", "name"]

[[model]]
name = "product.template"

[model.field]
name = { type = "char", required = true }
categ_id = { type = "many2one", relation = "product.category", ondelete = "restrict" }
tracking = { type = "selection", required = true, fixed = true, default = "none", selection = [["none", "none"], ["lot", "lot"]] }
active = { type = "boolean", default = true }

# What is bought, kept and sold: a template with a code of its own.
[[model]]
name = "product.product"
inherits = [["product.template", "product_tmpl_id"]]

[model.field]
default_code = { type = "char" }
active = { type = "boolean", default = true }

[[model]]
name = "stock.lot"
unique = [["name", "product_id"]]

[model.field]
name = { type = "char", required = true }
product_id = { type = "many2one", relation = "product.product", required = true, ondelete = "restrict", fixed = true }
removal_date = { type = "datetime" }

# How much of a product, of a lot or of none, is in a place, and how much of that is promised.
[[model]]
name = "stock.quant"
managed = true

[model.field]
product_id = { type = "many2one", relation = "product.product", required = true, ondelete = "restrict" }
location_id = { type = "many2one", relation = "stock.location", required = true, ondelete = "restrict" }
lot_id = { type = "many2one", relation = "stock.lot", ondelete = "restrict" }
quantity = { type = "integer" }
reserved_quantity = { type = "integer" }
in_date = { type = "datetime", required = true }
available_quantity = { type = "integer", compute = "quantity - reserved_quantity", depends = ["quantity", "reserved_quantity"] }

[model.check]
no_view = 'location_id.usage != "view"'
guarded = '''
(location_id.usage != "internal" and location_id.usage != "transit")
or (0 <= reserved_quantity and reserved_quantity <= quantity)'''
lot = "lot_id = unset or lot_id.product_id = product_id"

[[model]]
name = "stock.warehouse"
managed = true
unique = [["name"], ["code"]]

[model.field]
name = { type = "char", required = true }
code = { type = "char", required = true }
view_location_id = { type = "many2one", relation = "stock.location", required = true, ondelete = "restrict" }
lot_stock_id = { type = "many2one", relation = "stock.location", required = true, ondelete = "restrict" }
wh_input_stock_loc_id = { type = "many2one", relation = "stock.location", required = true, ondelete = "restrict" }
wh_qc_stock_loc_id = { type = "many2one", relation = "stock.location", required = true, ondelete = "restrict" }
wh_output_stock_loc_id = { type = "many2one", relation = "stock.location", required = true, ondelete = "restrict" }
wh_pack_stock_loc_id = { type = "many2one", relation = "stock.location", required = true, ondelete = "restrict" }
in_type_id = { type = "many2one", relation = "stock.picking.type", required = true, ondelete = "restrict" }
out_type_id = { type = "many2one", relation = "stock.picking.type", required = true, ondelete = "restrict" }
pick_type_id = { type = "many2one", relation = "stock.picking.type", required = true, ondelete = "restrict" }
pack_type_id = { type = "many2one", relation = "stock.picking.type", required = true, ondelete = "restrict" }
int_type_id = { type = "many2one", relation = "stock.picking.type", required = true, ondelete = "restrict" }

[model.field.reception_steps]
type = "selection"
required = true
selection = [["one_step", "one_step"], ["two_steps", "two_steps"], ["three_steps", "three_steps"]]

[model.field.delivery_steps]
type = "selection"
required = true
selection = [["ship_only", "ship_only"], ["pick_ship", "pick_ship"], ["pick_pack_ship", "pick_pack_ship"]]

[[model]]
name = "stock.picking.type"

[model.field]
name = { type = "char", required = true }
sequence_code = { type = "char", required = true }
default_location_src_id = { type = "many2one", relation = "stock.location", ondelete = "restrict" }
default_location_dest_id = { type = "many2one", relation = "stock.location", ondelete = "restrict" }

[model.field.code]
type = "selection"
required = true
selection = [["incoming", "incoming"], ["outgoing", "outgoing"], ["internal", "internal"]]

[model.field.create_backorder]
type = "selection"
required = true
default = "ask"
selection = [["ask", "ask"], ["always", "always"], ["never", "never"]]

# What is pulled to a place, or pushed on from it.
[[model]]
name = "stock.rule"

[model.field]
name = { type = "char", required = true }
action = { type = "selection", required = true, selection = [["pull", "pull"], ["push", "push"]] }
location_src_id = { type = "many2one", relation = "stock.location", required = true, ondelete = "restrict" }
location_dest_id = { type = "many2one", relation = "stock.location", required = true, ondelete = "restrict" }
picking_type_id = { type = "many2one", relation = "stock.picking.type", required = true, ondelete = "restrict" }
active = { type = "boolean", default = true }

# Moves that go together.
[[model]]
name = "stock.picking"
locked = 'state = "done" or state = "cancel"'

[model.field]
picking_type_id = { type = "many2one", relation = "stock.picking.type", required = true, ondelete = "restrict" }
location_id = { type = "many2one", relation = "stock.location", required = true, ondelete = "restrict" }
location_dest_id = { type = "many2one", relation = "stock.location", required = true, ondelete = "restrict" }
origin = { type = "char" }
backorder_id = { type = "many2one", relation = "stock.picking", managed = true }
move_ids = { type = "one2many", relation = "stock.move", inverse = "picking_id" }

[model.field.name]
type = "char"
store = true
compute = 'cat(picking_type_id.sequence_code, "/", text(id))'
depends = ["picking_type_id.sequence_code"]

[model.field.state]
type = "char"
store = true
compute = '''
if(count(move_ids) = 0 or any(move_ids, state = "draft"), "draft",
if(all(move_ids, state = "cancel"), "cancel",
if(all(move_ids, state = "done" or state = "cancel"), "done",
if(all(move_ids, state = "assigned" or state = "done" or state = "cancel"), "assigned",
if(any(move_ids, state = "waiting"), "waiting", "confirmed")))))'''
depends = ["move_ids.state"]

# So much of a product from a place to another.
[[model]]
name = "stock.move"
locked = 'state != "draft"'

[model.field]
picking_id = { type = "many2one", relation = "stock.picking", ondelete = "cascade" }
product_id = { type = "many2one", relation = "product.product", required = true, ondelete = "restrict" }
location_id = { type = "many2one", relation = "stock.location", required = true, ondelete = "restrict" }
location_dest_id = { type = "many2one", relation = "stock.location", required = true, ondelete = "restrict" }
product_uom_qty = { type = "integer" }
date = { type = "datetime", managed = true }
rule_id = { type = "many2one", relation = "stock.rule", ondelete = "restrict", managed = true }
move_orig_ids = { type = "many2many", relation = "stock.move", managed = true }
move_dest_ids = { type = "many2many", relation = "stock.move", mirror = "move_orig_ids", managed = true }
move_line_ids = { type = "one2many", relation = "stock.move.line", inverse = "move_id", managed = true }
quantity = { type = "integer", store = true, compute = "sum(move_line_ids, quantity)", depends = ["move_line_ids.quantity"] }

[model.field.state]
type = "selection"
required = true
managed = true
default = "draft"
selection = [
    ["draft", "draft"],
    ["waiting", "waiting"],
    ["confirmed", "confirmed"],
    ["partially_available", "partially_available"],
    ["assigned", "assigned"],
    ["done", "done"],
    ["cancel", "cancel"],
]

[model.check]
demand = "1 <= product_uom_qty and product_uom_qty <= 1000000000"
within = "quantity <= product_uom_qty"

# What is reserved for a move, or was moved by it, from one quant each.
[[model]]
name = "stock.move.line"
managed = true

[model.field]
move_id = { type = "many2one", relation = "stock.move", required = true, ondelete = "cascade" }
product_id = { type = "many2one", relation = "product.product", required = true, ondelete = "restrict" }
lot_id = { type = "many2one", relation = "stock.lot", ondelete = "restrict" }
location_id = { type = "many2one", relation = "stock.location", required = true, ondelete = "restrict" }
location_dest_id = { type = "many2one", relation = "stock.location", required = true, ondelete = "restrict" }
quantity = { type = "integer" }
picked = { type = "boolean" }
done = { type = "boolean", store = true, compute = 'move_id.state = "done"', depends = ["move_id.state"] }

[model.check]
positive = "1 <= quantity"
lot = "lot_id = unset or lot_id.product_id = product_id"

[[model]]
name = "stock.scrap"
managed = true

[model.field]
product_id = { type = "many2one", relation = "product.product", required = true, ondelete = "restrict" }
location_id = { type = "many2one", relation = "stock.location", required = true, ondelete = "restrict" }
lot_id = { type = "many2one", relation = "stock.lot", ondelete = "restrict" }
quantity = { type = "integer" }
move_id = { type = "many2one", relation = "stock.move", required = true, ondelete = "restrict" }

[[group]]
name = "group_stock_user"
implies = ["base.group_user"]

[[group]]
name = "group_stock_manager"
implies = ["stock.group_stock_user"]

[[access]]
model = "product.category"
group = "base.group_user"
read = true

[[access]]
model = "product.category"
group = "stock.group_stock_manager"
read = true
create = true
write = true
unlink = true

[[access]]
model = "product.template"
group = "base.group_user"
read = true

[[access]]
model = "product.template"
group = "stock.group_stock_manager"
read = true
create = true
write = true
unlink = true

[[access]]
model = "product.product"
group = "base.group_user"
read = true

[[access]]
model = "product.product"
group = "stock.group_stock_manager"
read = true
create = true
write = true
unlink = true

[[access]]
model = "stock.location"
group = "stock.group_stock_user"
read = true

[[access]]
model = "stock.location"
group = "stock.group_stock_manager"
read = true
create = true
write = true
unlink = true

[[access]]
model = "stock.rule"
group = "stock.group_stock_user"
read = true

[[access]]
model = "stock.rule"
group = "stock.group_stock_manager"
read = true
create = true
write = true
unlink = true

[[access]]
model = "stock.picking.type"
group = "stock.group_stock_user"
read = true

[[access]]
model = "stock.picking.type"
group = "stock.group_stock_manager"
read = true
create = true
write = true
unlink = true

[[access]]
model = "stock.warehouse"
group = "stock.group_stock_user"
read = true

[[access]]
model = "stock.warehouse"
group = "stock.group_stock_manager"
read = true
create = true
write = true
unlink = true

[[access]]
model = "stock.lot"
group = "stock.group_stock_user"
read = true
create = true
write = true
unlink = true

[[access]]
model = "stock.picking"
group = "stock.group_stock_user"
read = true
create = true
write = true
unlink = true

[[access]]
model = "stock.move"
group = "stock.group_stock_user"
read = true
create = true
write = true
unlink = true

[[access]]
model = "stock.quant"
group = "stock.group_stock_user"
read = true
write = true

[[access]]
model = "stock.move.line"
group = "stock.group_stock_user"
read = true

[[access]]
model = "stock.scrap"
group = "stock.group_stock_user"
read = true
create = true

[[row]]
model = "res.users"
ref = "user_system"
values = { name = "__system__", login = "__system__", key = "system" }

[[row]]
model = "res.users"
ref = "user_admin"

[row.values]
name = "admin"
login = "admin"
key = "admin"
groups_id = [{ ref = "base.group_system" }, { ref = "stock.group_stock_manager" }]

[[row]]
model = "stock.location"
ref = "location_partners"
values = { name = "Partners", usage = "view" }

[[row]]
model = "stock.location"
ref = "location_vendors"
values = { name = "Vendors", usage = "supplier", location_id = { ref = "stock.location_partners" } }

[[row]]
model = "stock.location"
ref = "location_customers"
values = { name = "Customers", usage = "customer", location_id = { ref = "stock.location_partners" } }

[[row]]
model = "stock.location"
ref = "location_virtual"
values = { name = "Virtual Locations", usage = "view" }

[[row]]
model = "stock.location"
ref = "location_inventory"
values = { name = "Inventory adjustment", usage = "inventory", location_id = { ref = "stock.location_virtual" } }

[[row]]
model = "stock.location"
ref = "location_production"
values = { name = "Production", usage = "production", location_id = { ref = "stock.location_virtual" } }

[[row]]
model = "stock.location"
ref = "location_scrap"
values = { name = "Scrap", usage = "inventory", location_id = { ref = "stock.location_virtual" }, scrap_location = true }

[[row]]
model = "product.category"
ref = "category_all"
values = { name = "All" }
"#;
