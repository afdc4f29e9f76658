//! Which library a line asks, by its first word. A new word gets its line here.
//!
//! | line | answer |
//! |---|---|
//! | `takes ORDER WANT STOCK ..` | `quant:amount` of each take |
//! | `lines NOW NEXT QUANT .. \| LINE ..` | the quants after the lines, or `short at` or `overflow at` a line's number `of` a quant's id |
//! | `state RESERVED DEMAND WAITS` | the state of such a move |
//! | `split DEMAND DONE` | the done part and the rest |
//! | `chain PLACE RULE ..` | the ids of the chain of pull rules, or `too deep` |
//! | `push PLACE RULE ..` | the id of the push rule |
//! | `http CUT,.. FAILS HEX ..` | for each CUT each item of the connection, with what is written while it comes in and its reply; then how many bytes were taken |
//! | `written BODY` | what two replies write: one with the body that keeps the connection, and one of status 405 |
//! | `envelope every BODY`, `envelope execute_kw BODY` | the id, the service, the method and the elements of a request, where so many methods are served; or the first place that is wrong, and the id |
//! | `words WORD ..` | what the words of a command line ask for, each option behind the action; where they have rows kept; the port at which connections come |
//! | `reply result ID JSON`, `reply error ID NAME MESSAGE`, `reply no_memory` | the text of the reply |
//!
//! A stock is `quant:free:in_date:removal:place`, a quant
//! `id:product:place:lot:quantity:reserved:in_date:guarded`, a line
//! `product:from:to:lot:amount:guarded_from:guarded_to`, a rule `id:pull:src:dest` or
//! `id:push:src:dest`. `-` is unset; `yes` or `no` tells what is guarded and what waits;
//! ORDER is `fifo`, `lifo`, `fefo` or `closest`. An empty answer is `none`, and
//! `not asked` stands where the call requires what isn't so.
//!
//! A connection in memory sends the bytes of all HEX, where `COUNT*HEX` stands for bytes so many
//! times, at most CUT in a read (`whole`: all). Of the door's calls the one of number FAILS
//! fails (0: none; 1 lets the connection come). An item is `post:keep:"BODY"` or
//! `post:close:"BODY"`, `bad:STATUS`, `ended`, `cut`, or `failed`; of a BODY longer than 256
//! bytes its length and its checksum are told. Each message is answered by `{}`. Behind ` | `
//! stands the answer for a further CUT where it is another than the one before.
//!
//! The BODY of `envelope` is a text, or `hex:` and digits. An ID has no space in it; NAME and
//! MESSAGE are written as `probe_parts::words` has them.
//!
//! The words of `words` have one space between two, so that an empty one stands between two
//! spaces, and are written as `probe_parts::words` has them.
//!
//! `times N` before `takes`, `lines`, `chain` or `http` makes that call N times and tells the
//! last answer.

use crate::command_lines::put_asked;
use crate::connections::{put_connections, put_replies};
use crate::envelopes::{put_envelope_of, put_reply_of};
use crate::moves::{put_parts, put_state};
use crate::quants::put_moved;
use crate::removals::put_taken;
use crate::routes::{put_chain, put_push};
use probe_parts::told::Told;
use std::alloc::Global;

/// Tells the answer to a line of this word, whose call is made so many times; false where the
/// word isn't one of these.
pub fn put_answer(alloc: Global, told: &mut Told, times: u32, word: &str, rest: &str) -> bool {
    match word {
        "takes" => put_taken(alloc, told, times, rest),
        "lines" => put_moved(alloc, told, times, rest),
        "state" => put_state(told, rest),
        "split" => put_parts(told, rest),
        "chain" => put_chain(alloc, told, times, rest),
        "push" => put_push(alloc, told, rest),
        _ => return put_of_messages(alloc, told, times, word, rest),
    }
    true
}

/// Tells the answer to a line about messages.
fn put_of_messages(alloc: Global, told: &mut Told, times: u32, word: &str, rest: &str) -> bool {
    match word {
        "http" => put_connections(alloc, told, times, rest),
        "written" => put_replies(alloc, told, rest),
        "envelope" => put_envelope_of(alloc, told, rest),
        "reply" => put_reply_of(alloc, told, rest),
        "words" => put_asked(alloc, told, rest),
        _ => return false,
    }
    true
}
