//! Bytes written to a sink.
ghost use Rattle.std.specs.Prelude.{OnOk, OnErr};
ghost use Rattle.std.specs.Io.KnownBytes.{Appends};
ghost use Rattle.icu_locale_core.specs.Sinks.{AppendsPart};

use std::io;

/// Writes bytes to a sink, all of them. It takes no memory.
///
/// # Errors
///
/// That of the write that failed, which is not tried again, or `WriteZero` where a write took no byte. A beginning of the
/// bytes was written, and not all.
#[tactic(auto, using(crate::proofs::Sinks::not_empty))]
pub fn write_whole<W: io::Write>(bytes: &[u8], sink: &mut W) -> io::Result<()>
    ensures whole { OnOk result
        (Appends (W.contents sink.old) (W.contents sink.new) bytes.now) }
    ensures part { OnErr result
        (AppendsPart (W.contents sink.old) (W.contents sink.new) bytes.now) }
{
    let mut rest = bytes;
    while !rest.is_empty() {
        let count = sink.write(rest)?;
        if count == 0 {
            return Err(io::ErrorKind::WriteZero.into());
        }
        let (_, left) = rest.split_at(count);
        rest = left;
    }
    Ok(())
}
