//! The language of an answer: what is served for the header of a request.
ghost use Rattle.std.specs.Prelude.{IfOk};
ghost use Rattle.uses.specs.Answering.{IsAnswered};

use icu_locale_matching::LocaleServer;
use std::alloc::{AllocError, Global};

/// The place of the language to answer in: what is served for the header Accept-Language, else the first. It takes the
/// memory that `serve` takes.
pub fn place_to_answer_in(
    alloc: Global,
    server: &LocaleServer<'_>,
    header: &[u8],
) -> Result<usize, AllocError>
    ensures { IfOk result (IsAnswered server.now header.now) }
{
    match server.serve(alloc, header) {
        Ok(Some(place)) => Ok(place),
        Ok(None) => Ok(0),
        Err(refused) => Err(refused),
    }
}
