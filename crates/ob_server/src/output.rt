//! Writing whole texts to a sink that takes them piece by piece.

ghost use Rattle.std.specs.Prelude.{◌≡◌, ◌++◌, [], ◌∷◌, option_map, IsErr, OnOk, OnErr};
ghost use Rattle.ob_io.specs.Cause.{HasCause};
ghost use Rattle.ob_server.specs.Ending.{WritesPart};

use ob_io::{Failed, Sink};

/// Writes all bytes, in as many pieces as the sink takes; or, where it fails, a front of them that
/// lacks a byte at least, and answers `Failed`.
pub fn write_all<W: Sink>(output: &mut W, bytes: &[u8]) -> Result<(), Failed>
    ensures ok { OnOk result
        (W.written output.new ≡ option_map (λ before. before ++ bytes.now) (W.written output.old)) }
    ensures err { OnErr result (WritesPart (W.written output.old) (W.written output.new) bytes.now) }
    ensures cause { HasCause (W.faults output.old) (W.faults output.new) (IsErr result) }
{
    let mut done = 0;
    while done < bytes.len() {
        done += output.write(&bytes[done..])?;
    }
    Ok(())
}

/// Writes a text and a line feed behind it; or, where the sink fails, a front of both that lacks a
/// byte at least, and answers `Failed`. Line feeds in the text stay as they are.
pub fn write_line<W: Sink>(output: &mut W, text: &str) -> Result<(), Failed>
    ensures ok { OnOk result (W.written output.new
        ≡ option_map (λ before. before ++ (text.now ++ 10 ∷ [])) (W.written output.old)) }
    ensures err { OnErr result
        (WritesPart (W.written output.old) (W.written output.new) (text.now ++ 10 ∷ [])) }
    ensures cause { HasCause (W.faults output.old) (W.faults output.new) (IsErr result) }
{
    write_all(output, text.as_bytes())?;
    write_all(output, b"\n")
}
