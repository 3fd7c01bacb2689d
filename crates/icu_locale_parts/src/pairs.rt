//! Rows of keywords, fields and other extensions.
ghost use Rattle.std.specs.Prelude.{◌≡◌, ◌++◌, codes, length, take, OnOk, OnErr};
ghost use Rattle.std.specs.List.{join_by};
ghost use Rattle.icu_locale_parts.specs.Parts.{joined};

use icu_locale_core::{RowKey, RowValue};
use std::alloc::AllocError;

// Rows after a tab, a space between two.
pub fn append_pairs<K: RowKey<V>, V: RowValue>(
    rows: &[(K, V)],
    text: &mut Vec<u8>,
) -> Result<(), AllocError>
    ensures appended { OnOk result (text.new.items ≡ text.old.items ++ (codes "\t"
        ++ join_by (λ row. K.text row.0 ++ (codes "=" ++ joined (V.pieces row.1))) (codes " ")
        rows.now)) }
    ensures part { OnErr result (take (length text.old.items) text.new.items ≡ text.old.items) }
{
    text.push(b'\t')?;
    let Some((first, rest)) = rows.split_first() else {
        return Ok(());
    };
    append_pair(first, text)?;
    for row in rest {
        text.push(b' ')?;
        append_pair(row, text)?;
    }
    Ok(())
}

// A key or a singleton, `=` and its pieces.
fn append_pair<K: RowKey<V>, V: RowValue>(
    row: &(K, V),
    text: &mut Vec<u8>,
) -> Result<(), AllocError>
    ensures appended { OnOk result (text.new.items ≡ text.old.items
        ++ (K.text row.now.0 ++ (codes "=" ++ joined (V.pieces row.now.1)))) }
    ensures part { OnErr result (take (length text.old.items) text.new.items ≡ text.old.items) }
{
    text.extend_from_slice(row.0.name().as_bytes())?;
    text.push(b'=')?;
    match row.1.write_joined(text) {
        Ok(()) => Ok(()),
        Err(_) => Err(AllocError),
    }
}
