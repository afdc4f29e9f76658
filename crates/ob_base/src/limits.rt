//! Every bound that a caller can meet, by name. The value of a bound is part of
//! the documented profile: change none without its page under docs/.

/// The greatest id of a row.
pub const MAX_ID: u64 = 4_294_967_295;

/// How many targets a many2many cell may have.
pub const MAX_TARGETS: usize = 65_536;

/// The length in bytes of a char, a selection, a login and a key.
pub const MAX_CHAR_BYTES: usize = 8_192;

/// The length in bytes of a text.
pub const MAX_TEXT_BYTES: usize = 65_536;

/// The first day that a date may name, 0001-01-01, in days from 1970-01-01.
pub const MIN_DAY: i32 = -719_162;

/// The last day that a date may name, 9999-12-31, in days from 1970-01-01.
pub const MAX_DAY: i32 = 2_932_896;

/// The first moment of the year 0001, in seconds from 1970-01-01 00:00:00 UTC.
pub const MIN_MOMENT: i64 = -62_135_596_800;

/// The last second of the year 9999, in seconds from 1970-01-01 00:00:00 UTC.
pub const MAX_MOMENT: i64 = 253_402_300_799;

// The moments are the seconds of the days, from the first of the first day on.
const _: () = prove!(MIN_MOMENT == MIN_DAY as i64 * 86_400);

// They end with the last second of the last day.
const _: () = prove!(MAX_MOMENT == (MAX_DAY as i64 + 1) * 86_400 - 1);

/// How deep a tree of rows may be; a root has depth 1.
pub const MAX_TREE_DEPTH: usize = 64;

/// How many modules may be loaded, base and stock among them.
pub const MAX_MODULES: usize = 64;

/// How many models there may be.
pub const MAX_MODELS: usize = 512;

/// How many fields a model may have, delegated ones among them.
pub const MAX_FIELDS: usize = 256;

/// How many checks a model may have.
pub const MAX_CHECKS: usize = 256;

/// The length in bytes of a module file.
pub const MAX_MODULE_BYTES: usize = 1_048_576;

/// The length in bytes of an expression.
pub const MAX_EXPRESSION_BYTES: usize = 4_096;

/// How deep an expression may nest.
pub const MAX_EXPRESSION_DEPTH: usize = 24;

/// How many steps a path may have.
pub const MAX_PATH_STEPS: usize = 6;

/// The greatest stratum of a field.
pub const MAX_STRATUM: u16 = 8;

/// How many rules a chain of routes may have.
pub const MAX_CHAIN_RULES: usize = 8;

/// How many operators and criteria a domain may have, inner domains included.
pub const MAX_DOMAIN_TERMS: usize = 4_096;

/// How many steps a dotted field of a domain may have.
pub const MAX_DOTTED_STEPS: usize = 16;

/// The greatest quantity of a move.
pub const MAX_MOVE_QUANTITY: i64 = 1_000_000_000;

/// The length in bytes of a line of requests, without its line feed, and of an HTTP body.
pub const MAX_BODY_BYTES: usize = 8_388_608;

/// The length in bytes of the whole input of a run, and of one connection.
pub const MAX_INPUT_BYTES: u64 = 1_099_511_627_776;

/// The length in bytes of an HTTP head.
pub const MAX_HEAD_BYTES: usize = 16_384;

/// How many fields an HTTP head may have.
pub const MAX_HEAD_FIELDS: usize = 64;

/// How deep a JSON text may nest.
pub const MAX_JSON_DEPTH: usize = 127;
