//! Where a text is written: a formatter, or a list of bytes.
ghost use Rattle.std.specs.Prelude.{◌++◌, codes};
ghost use Rattle.std.specs.Fmt.{WritesOnOk};
ghost use Rattle.icu_locale_core.specs.TextSinks.{AppendsOrKeeps};
ghost use Rattle.icu_locale_core.specs.laws.TextSinks.{appended_nothing, appended_further, appended_broken, formatted_nothing, formatted_further, formatted_broken};

use crate::langid::append_front;
use std::fmt;

/// Where a text is written piece by piece. Writing says one thing of all sinks: `Writes` holds for the sink before, the
/// whole text, what came of it, and the sink after.
pub trait TextSink {
    ghost use Rattle.std.specs.Prelude.{List, ℕ, Result, Ok, Err, [], ◌∷◌, ◌++◌, take, ◌≤◌, ◌<◌};
    ghost use Rattle.std.specs.Str.{IsUtf8};
    ghost use Rattle.std.specs.declared.fmt.Error.{Error};

    ghost Writes: { Self → List ℕ → Result (Unit {0}) Error → Self → Type 0 };

    /// Writes a text.
    ///
    /// # Errors
    ///
    /// That of the sink, which has a part of the text then.
    fn write_text(&mut self, text: &str) -> fmt::Result
        ensures { Writes self.old text.now result self.new };

    /// Writes a character of ASCII.
    ///
    /// # Errors
    ///
    /// Those of `write_text`.
    fn write_ascii(&mut self, byte: u8) -> fmt::Result
        requires { byte < 128 }
        ensures { Writes self.old (byte ∷ []) result self.new };

    /// Writes the front of a buffer.
    ///
    /// # Errors
    ///
    /// Those of `write_text`.
    fn write_front(&mut self, buffer: &[u8; 14], end: usize) -> fmt::Result
        requires within { end ≤ 14 }
        requires plain { IsUtf8 (take end buffer.now) }
        ensures { Writes self.old (take end buffer.now) result self.new };

    ghost nothing: { (s : Self) → Writes s [] (Ok tt) s };

    ghost further: { (s t u : Self) (front rest : List ℕ) (r : Result (Unit {0}) Error)
        → Writes s front (Ok tt) t → Writes t rest r u → Writes s (front ++ rest) r u };

    ghost broken: { (s t : Self) (text other : List ℕ) (e f : Error)
        → Writes s text (Err e) t → Writes s other (Err f) t };
}

impl TextSink for Vec<u8> {
    ghost Writes = { λ old text result new. AppendsOrKeeps old.items text result new.items };

    #[inline(always)]
    fn write_text(&mut self, text: &str) -> fmt::Result {
        match self.extend_from_slice(text.as_bytes()) {
            Ok(()) => Ok(()),
            Err(_) => Err(fmt::Error),
        }
    }

    #[inline(always)]
    fn write_ascii(&mut self, byte: u8) -> fmt::Result {
        match self.push(byte) {
            Ok(()) => Ok(()),
            Err(_) => Err(fmt::Error),
        }
    }

    #[inline(always)]
    fn write_front(&mut self, buffer: &[u8; 14], end: usize) -> fmt::Result {
        match append_front(self, buffer, end) {
            Ok(()) => Ok(()),
            Err(_) => Err(fmt::Error),
        }
    }

    ghost nothing = { λ s. appended_nothing s.items };

    ghost further = { λ s t u. appended_further s.items t.items u.items };

    ghost broken = { λ s t. appended_broken s.items t.items };
}

impl<W: fmt::Write> TextSink for fmt::Formatter<W> {
    ghost Writes = { λ old text result new. WritesOnOk W.write_str_gives old result text new };

    fn write_text(&mut self, text: &str) -> fmt::Result {
        self.write_str(text)
    }

    fn write_ascii(&mut self, byte: u8) -> fmt::Result {
        self.write_char(char::from(byte))
    }

    fn write_front(&mut self, buffer: &[u8; 14], end: usize) -> fmt::Result {
        self.write_str(unsafe { str::from_utf8_unchecked(&buffer[..end]) })
    }

    ghost nothing = { formatted_nothing W.write_str_gives };

    ghost further = { formatted_further W.write_str_gives };

    ghost broken = { formatted_broken W.write_str_gives };
}

/// Writes a text with `-` before it.
///
/// # Errors
///
/// That of the sink, which has a part of the text then.
pub fn write_after_dash<S: TextSink>(text: &str, sink: &mut S) -> fmt::Result
    ensures { S.Writes sink.old (codes "-" ++ text.now) result sink.new }
{
    sink.write_ascii(b'-')?;
    sink.write_text(text)
}
