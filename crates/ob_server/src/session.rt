//! Serving lines: each line that isn't blank is a body, and its reply is written
//! before the next line is read. A last line without a line feed ends the session,
//! and nothing is read after it.
//!
//! How a stream is cut into lines and how a body is answered is settled in `lines` and
//! `answering`; only the order of reading, answering and writing may be changed here.

ghost use Rattle.std.specs.Prelude.{◌≡◌, ◌≤◌, ◌<◌, ◌++◌, ◌∷◌, [], ℕ, List, Some, false, IsErr, IfOk, IfErr, IfNone, IfSome, OnOk, OnErr, MatchOption};
ghost use Rattle.ob_base.specs.Limits.{max_input_bytes};
ghost use Rattle.ob_access.specs.Policies.{IsPolicyOver};
ghost use Rattle.ob_cache.specs.Kept.{OthersStay};
ghost use Rattle.ob_cache.specs.Standing.{IsAtRest, RestsAt};
ghost use Rattle.ob_io.specs.Cause.{HasCause, Rose};
ghost use Rattle.ob_schema.specs.Tables.{Tables};
ghost use Rattle.ob_server.specs.Ending.{IsSessionEnding};
ghost use Rattle.ob_server.specs.Lines.{is_blank_line, bodies_of};
ghost use Rattle.ob_server.specs.Outside.{engaged, surroundings};
ghost use Rattle.ob_server.specs.Session.{Session, WritesReplies, reply_lines};
ghost use Rattle.ob_server.specs.SessionSteps.{Beginning, Ends, HasRead, HasReadTo, StopsReading, GoesOn, ServesMore, StopsAt};
ghost use Rattle.ob_server.specs.Setup.{over};

use crate::answering::answer;
use crate::ending::Ending;
use crate::lines::{LineFault, LineReader, is_blank};
use crate::output::write_line;
use crate::terms::Terms;
use ob_base::{Silent, Steps};
use ob_cache::Engine;
use ob_io::{Clock, Failed, Keeper, Sink, Source};
use std::alloc::Global;

/// Serves the lines of the input to its end.
pub(crate) fn serve_lines<K: Keeper, S: Source, W: Sink, C: Clock>(
    alloc: Global,
    engine: &mut Engine<'_, K>,
    terms: &Terms<'_>,
    input: &mut S,
    output: &mut W,
    clock: &mut C,
) -> Ending
    requires rest { IsAtRest engine.old.held.models engine.old.held }
    requires policy { IsPolicyOver engine.old.held.models terms.now.policy.now }
    // Over an engine that rests at tables, where its keeper tells its rows, it is a run of the machine.
    ensures session { (first : Tables) → RestsAt (K.kept engine.old.keeper.now) engine.old.held first
        → Session (over terms.now engine.old.held.models) first result (S.left input.old) (S.left input.new)
        (surroundings K.Keeper W.Sink C.Clock engine.old.keeper.now output.old clock.old) (surroundings K.Keeper W.Sink C.Clock engine.new.keeper.now output.new clock.new) }
    ensures kind { IsSessionEnding result }
    ensures read_fault { result ≡ Ending.ReadFault → Rose (S.faults input.old) (S.faults input.new) }
    ensures write_fault { result ≡ Ending.WriteFault → Rose (W.faults output.old) (W.faults output.new) }
    ensures input_count { S.faults input.old ≤ S.faults input.new }
    ensures output_count { W.faults output.old ≤ W.faults output.new }
    ensures keeper_count { K.faults engine.old.keeper.now ≤ K.faults engine.new.keeper.now }
    ensures others { OthersStay engine.old.held.models (K.kept engine.old.keeper.now) (K.kept engine.new.keeper.now) }
    ensures lender { engine.new.keeper.ghost_name ≡ engine.old.keeper.ghost_name }
{
    let Ok(mut reader) = LineReader::new(alloc) else {
        return Ending::NoMemory;
    };
    'lines: loop {
        if let Some(ending) = serve_next(alloc, engine, terms, input, output, clock, &mut reader) {
            return ending;
        }
    }
}

/// Reads and serves the next line. Answers how the session ends, where it does.
fn serve_next<K: Keeper, S: Source, W: Sink, C: Clock>(
    alloc: Global,
    engine: &mut Engine<'_, K>,
    terms: &Terms<'_>,
    input: &mut S,
    output: &mut W,
    clock: &mut C,
    reader: &mut LineReader,
) -> Option<Ending>
    requires rest { IsAtRest engine.old.held.models engine.old.held }
    requires policy { IsPolicyOver engine.old.held.models terms.now.policy.now }
    // A session goes on, or ends.
    ensures session { (from : Beginning) → GoesOn terms.now from reader.old (S.left input.old) (engaged K.Keeper W.Sink C.Clock engine.old output.old clock.old)
        → MatchOption result (GoesOn terms.now from reader.new (S.left input.new) (engaged K.Keeper W.Sink C.Clock engine.new output.new clock.new))
        (λ why. Ends (over terms.now engine.old.held.models) from why (S.left input.new) (surroundings K.Keeper W.Sink C.Clock engine.new.keeper.now output.new clock.new)) }
    ensures rests { IsAtRest engine.old.held.models engine.new.held }
    ensures kind { IfSome result IsSessionEnding }
    ensures moved { IfNone result (reader.old.consumed < reader.new.consumed) }
    ensures in_input { reader.new.consumed ≤ max_input_bytes }
    ensures read_fault { result ≡ Some Ending.ReadFault → Rose (S.faults input.old) (S.faults input.new) }
    ensures write_fault { result ≡ Some Ending.WriteFault → Rose (W.faults output.old) (W.faults output.new) }
    ensures input_count { S.faults input.old ≤ S.faults input.new }
    ensures output_count { W.faults output.old ≤ W.faults output.new }
    ensures keeper_count { K.faults engine.old.keeper.now ≤ K.faults engine.new.keeper.now }
    ensures others { OthersStay engine.old.held.models (K.kept engine.old.keeper.now) (K.kept engine.new.keeper.now) }
    ensures lender { engine.new.keeper.ghost_name ≡ engine.old.keeper.ghost_name }
{
    let whole = match next_line(reader, input) {
        Ok(whole) => whole,
        Err(ending) => return Some(ending),
    };
    if serve_line(alloc, engine, terms, output, clock, reader.line()).is_err() {
        return Some(Ending::WriteFault);
    }
    if whole { None } else { Some(Ending::Done) }
}

/// Reads the next line, and says whether it ends with a line feed. Without one it is the
/// last. Where no line is read, answers how the session ends.
fn next_line<S: Source>(reader: &mut LineReader, input: &mut S) -> Result<bool, Ending>
    ensures line { IfOk result (λ whole. (stream : List ℕ) (lines : List (List ℕ)) → HasRead stream reader.old (S.left input.old) lines
        → HasReadTo whole stream reader.new (S.left input.new) (lines ++ reader.new.line ∷ [])) }
    ensures end { IfErr result (λ why. (stream : List ℕ) (lines : List (List ℕ)) → HasRead stream reader.old (S.left input.old) lines
        → StopsReading why stream (S.left input.new) lines) }

    // After such an ending each reply stands whole.
    ensures whole_replies { IfErr result (λ why. (replies : List (List ℕ)) → WritesReplies why replies (reply_lines replies)) }
    ensures read_fault { result ≡ Err Ending.ReadFault → Rose (S.faults input.old) (S.faults input.new) }
    ensures moved { IfOk result (λ whole. reader.old.consumed < reader.new.consumed) }
    ensures in_input { reader.new.consumed ≤ max_input_bytes }
    ensures count { S.faults input.old ≤ S.faults input.new }
{
    let before = reader.consumed();
    match reader.advance(input) {
        // With its line feed a line takes a byte more.
        Ok(true) => Ok(reader.consumed() - before > reader.line().len() as u64),
        Ok(false) => Err(Ending::Done),
        Err(fault) => Err(reading_fault(fault)),
    }
}

/// Serves one line: nothing where it is blank, else its reply.
fn serve_line<K: Keeper, W: Sink, C: Clock>(
    alloc: Global,
    engine: &mut Engine<'_, K>,
    terms: &Terms<'_>,
    output: &mut W,
    clock: &mut C,
    line: &[u8],
) -> Result<(), Failed>
    requires rest { IsAtRest engine.old.held.models engine.old.held }
    requires policy { IsPolicyOver engine.old.held.models terms.now.policy.now }
    ensures ok { OnOk result (ServesMore terms.now (bodies_of (line.now ∷ []))
        (engaged K.Keeper W.Sink C.Clock engine.old output.old clock.old)
        (engaged K.Keeper W.Sink C.Clock engine.new output.new clock.new)) }
    ensures err { OnErr result (StopsAt terms.now line.now
        (engaged K.Keeper W.Sink C.Clock engine.old output.old clock.old)
        (engaged K.Keeper W.Sink C.Clock engine.new output.new clock.new)) }
    ensures body { OnErr result (is_blank_line line.now ≡ false) }
    ensures cause { HasCause (W.faults output.old) (W.faults output.new) (IsErr result) }
    ensures rests { IsAtRest engine.old.held.models engine.new.held }
    ensures count { K.faults engine.old.keeper.now ≤ K.faults engine.new.keeper.now }
    ensures others { OthersStay engine.old.held.models (K.kept engine.old.keeper.now) (K.kept engine.new.keeper.now) }
    ensures lender { engine.new.keeper.ghost_name ≡ engine.old.keeper.ghost_name }
{
    if is_blank(line) {
        return Ok(());
    }
    serve_body(alloc, engine, terms, output, clock, line)
}

/// Answers one body, and writes the reply on a line.
fn serve_body<K: Keeper, W: Sink, C: Clock>(
    alloc: Global,
    engine: &mut Engine<'_, K>,
    terms: &Terms<'_>,
    output: &mut W,
    clock: &mut C,
    body: &[u8],
) -> Result<(), Failed>
    requires rest { IsAtRest engine.old.held.models engine.old.held }
    requires policy { IsPolicyOver engine.old.held.models terms.now.policy.now }
    ensures ok { OnOk result (ServesMore terms.now (body.now ∷ [])
        (engaged K.Keeper W.Sink C.Clock engine.old output.old clock.old)
        (engaged K.Keeper W.Sink C.Clock engine.new output.new clock.new)) }
    ensures err { OnErr result (StopsAt terms.now body.now
        (engaged K.Keeper W.Sink C.Clock engine.old output.old clock.old)
        (engaged K.Keeper W.Sink C.Clock engine.new output.new clock.new)) }
    ensures cause { HasCause (W.faults output.old) (W.faults output.new) (IsErr result) }
    ensures rests { IsAtRest engine.old.held.models engine.new.held }
    ensures count { K.faults engine.old.keeper.now ≤ K.faults engine.new.keeper.now }
    ensures others { OthersStay engine.old.held.models (K.kept engine.old.keeper.now) (K.kept engine.new.keeper.now) }
    ensures lender { engine.new.keeper.ghost_name ≡ engine.old.keeper.ghost_name }
{
    let mut steps = Steps::new(Silent);
    let reply = answer(alloc, engine, terms, clock, &mut steps, body);
    write_line(output, reply.as_str())
}

/// How a run ends whose input gives no further line.
fn reading_fault(fault: LineFault) -> Ending
    ensures failed { fault ≡ LineFault.Failed → result ≡ Ending.ReadFault }
    ensures too_long { (line : ℕ) → fault ≡ LineFault.TooLong line → result ≡ Ending.TooLong line }
    ensures no_memory { fault ≡ LineFault.NoMemory → result ≡ Ending.NoMemory }
{
    match fault {
        LineFault::Failed => Ending::ReadFault,
        LineFault::TooLong(line) => Ending::TooLong(line),
        LineFault::NoMemory => Ending::NoMemory,
    }
}
