//! Which library a line asks, by its first word. A new word gets its line here.
//!
//! | line | answer |
//! |---|---|
//! | `row HEX` | the values of the kept fields of the row with this body, or `bad` |
//! | `body HEX` | the body of the row with those values |
//! | `kept DEFINITIONS > HEX` | the values of a row of the model `m` of these definitions, whose body was written again as it is read; or `bad` |
//! | `value FIELD JSON` | the value that JSON gives the field, as a reply tells it; of a list its commands; or the fault |
//! | `given FIELD JSON` | the value itself, or `commands`, or the fault |
//! | `order FIELD [JSON,JSON]` | `Less`, `Equal` or `Greater`: how the order of values has the two |
//! | `targets FIELD [ID,..]` | the JSON of a list that names these rows |
//! | `arguments FORM [ARGS,KW]` | where each argument that the form expects is given, or the place that is wrong |
//! | `below SPOT PART STEP ..` | the places of a part of an argument, and of what is below that |
//! | `id JSON` | the id that a value is, or `none` |
//! | `day TEXT`, `moment TEXT` | the number that the text names and its text again, or `none` |
//! | `expression TEXT` | `read`, or the fault |
//! | `long PIECES` | the same of a text in pieces |
//! | `tree TEXT` | the offset of its first token, how many names it is of, and the expression's tree |
//! | `kinds MODEL TEXT` | the expression's kind and the paths that it reads, or the fault |
//! | `swapped MODEL TEXT` | the same, once `qty` and `price` have changed places |
//! | `evaluate MODEL ID with CELL .. \| TEXT` | its kind, its value in that row or the fault, how many steps it took, and the cells that were read, in their order |
//! | `word TEXT` | its length, whether it is empty, the text, and a copy of it |
//! | `sequence TEXT ..` | how many they are, whether there are none, and the texts |
//! | `ids [ID,..]` | the same of a list of ids |
//! | `ticks TOTAL COUNT` | what a ledger tells that begins with the total, after so many ticks; and one that is silent |
//! | `place STEP .. \| STEP ..` | how many steps the place has, and its text |
//! | `operations`, `limits` | the names of the operations; the limits |
//! | `values VALUE ..` | the values, and between two of them how a copy of the one stands to the other |
//! | `broken MODEL:ID:FIELD:KIND ..` | the kinds' names, and between two of them how the cells stand to each other, then how the broken cells do |
//! | `laws` | `called`, once each law was called |
//!
//! `row`, `body`, `value`, `given`, `order`, `targets` and `arguments` ask about the model of
//! `registry`. DEFINITIONS are written as `probe_parts::definitions` has them.
//!
//! In the TEXT of an expression `\n` and `\r` stand for the ends of lines, `\` before another
//! character for it. A MODEL is `order`, `person` or `line`, a cell `MODEL:ID:FIELD:VALUE`;
//! `cells` says how a value is written. Without cells ` with ` may be left out. A cell that
//! the line doesn't give has no value: to read it is a fault, `no value`.
//!
//! A VALUE is `-` where it is unset, else a word and a value as `cells` has it: `bool:yes`,
//! `int:5`, `word:1*a`, `day:5`, `moment:5`, `id:5` or `ids:5,6`. A KIND is the number of how a
//! cell is broken, from 0.
//!
//! The FORM `ids` expects the arguments `ids`, which must be given, and `more`; `fields` one of
//! names of fields, `load` one that may be any value. A SPOT is an argument's number or its
//! name; a PART is an item's number, a key, or `-`, the whole. A STEP is an item's number or a
//! key.
//!
//! PIECES stand one after the other, with `|` between them: `COUNT*TEXT` is a text so many
//! times. The JSON of `given` and the HEX of `kept` are in pieces too, and their answer is its
//! length where it is longer than 1,000 bytes.
//!
//! `times N` before `row`, `body`, `value`, `expression`, `kinds` or `evaluate` makes that call N
//! times and tells the last answer; `evaluate` then reads and checks its text once.

use crate::arguments::{put_arguments_of, put_below, put_id_of};
use crate::base::{
    call_laws, put_ids_of, put_limits, put_operations, put_place, put_sequence, put_ticks, put_word,
};
use crate::evaluations::put_evaluation;
use crate::expressions::{put_expression, put_kinds, put_long_expression, put_tree};
use crate::fields::Fields;
use crate::orders::{put_broken, put_values};
use crate::registry::{MODEL, registry};
use crate::rows::{put_body, put_kept, put_row};
use crate::texts::{put_day, put_moment};
use crate::values::put_of_field;
use ob_schema::Schema;
use probe_parts::told::Told;
use std::alloc::Global;

/// The registry and the fields that these words ask about.
#[derive(Drop)]
pub struct Values {
    schema: Schema,
    fields: Fields,
}

impl Values {
    /// Those of the lines; none where memory is wanting.
    pub fn new(alloc: Global) -> Option<Values> {
        match (registry(alloc), Fields::new(alloc)) {
            (Some(schema), Ok(fields)) => Some(Values { schema, fields }),
            _ => None,
        }
    }

    /// Tells the answer to a line of this word, whose call is made so many times; false where
    /// the word isn't one of these.
    pub fn put_answer(
        &self,
        alloc: Global,
        told: &mut Told,
        times: u32,
        word: &str,
        rest: &str,
    ) -> bool {
        let schema = &self.schema;
        let Some(model) = schema.model(MODEL) else {
            return false;
        };
        match word {
            "row" => put_row(alloc, told, schema, model, times, rest),
            "body" => put_body(alloc, told, schema, model, times, rest),
            "kept" => put_kept(alloc, told, rest),
            "value" | "given" | "order" | "targets" => {
                put_of_field(alloc, told, schema, model, times, word, rest);
            }
            "arguments" => put_arguments_of(alloc, told, schema, model, rest),
            _ => return put_of_expressions(alloc, told, &self.fields, times, word, rest),
        }
        true
    }
}

/// Tells the answer to a line about expressions.
fn put_of_expressions(
    alloc: Global,
    told: &mut Told,
    fields: &Fields,
    times: u32,
    name: &str,
    rest: &str,
) -> bool {
    match name {
        "expression" => put_expression(alloc, told, times, rest),
        "long" => put_long_expression(alloc, told, rest),
        "tree" => put_tree(alloc, told, rest),
        "kinds" => put_kinds(alloc, told, fields, times, false, rest),
        "swapped" => put_kinds(alloc, told, fields, times, true, rest),
        "evaluate" => put_evaluation(alloc, told, fields, times, rest),
        _ => return put_of_base(alloc, told, name, rest),
    }
    true
}

/// Tells the answer to a line about the words that all libraries speak.
fn put_of_base(alloc: Global, told: &mut Told, name: &str, rest: &str) -> bool {
    match name {
        "word" => put_word(alloc, told, rest),
        "sequence" => put_sequence(alloc, told, rest),
        "ids" => put_ids_of(alloc, told, rest),
        "ticks" => put_ticks(told, rest),
        "place" => put_place(alloc, told, rest),
        "values" => put_values(alloc, told, rest),
        "broken" => put_broken(alloc, told, rest),
        "below" => put_below(alloc, told, rest),
        "id" => put_id_of(alloc, told, rest),
        _ => return put_rest(alloc, told, name, rest),
    }
    true
}

/// Tells the answer to a line of one of the other words.
fn put_rest(alloc: Global, told: &mut Told, name: &str, rest: &str) -> bool {
    match name {
        "day" => put_day(alloc, told, rest),
        "moment" => put_moment(alloc, told, rest),
        "operations" => put_operations(told),
        "limits" => put_limits(told),
        "laws" => call_laws(told),
        _ => return false,
    }
    true
}
