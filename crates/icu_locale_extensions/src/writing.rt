//! What follows the identifier of a locale identifier, written to a sink.
ghost use Rattle.std.specs.Prelude.{◌≡◌, ◌++◌, codes, map, true};
ghost use Rattle.std.specs.Option.{option_to_list};
ghost use Rattle.icu_locale_core.specs.Subtag.{is_alphanumeric, lowercase};
ghost use Rattle.icu_locale_core.specs.TextSet.{rising};
ghost use Rattle.icu_locale_extensions.specs.Locales.{extension_pieces, lower_subtags, marked, marked_if_any, transform_pieces, unicode_pieces};
ghost use Rattle.icu_locale_extensions.specs.Rows.{dashed, flat, above_t, below_t};

use crate::attributes::Attributes;
use crate::identifier::{LocaleIdentifier, has_transform, has_unicode};
use crate::others::Others;
use crate::texts::Subtags;
use icu_locale_core::{
    LanguageIdentifier, Region, Script, TextSink, Variants, write_after_dash, write_row,
};
use std::fmt;

// The extensions and private use, with `-` before each piece.
pub fn write_extensions<S: TextSink>(x: &LocaleIdentifier, sink: &mut S) -> fmt::Result
    ensures { S.Writes sink.old (dashed (extension_pieces x.now)) result sink.new }
{
    write_below_t(&x.others, sink)?;
    write_transform(x, sink)?;
    write_unicode(x, sink)?;
    write_above_t(&x.others, sink)?;
    write_private_use(&x.private_use, sink)
}

// The extensions that are written before `t`.
fn write_below_t<S: TextSink>(others: &Others, sink: &mut S) -> fmt::Result
    ensures { S.Writes sink.old (dashed (flat (below_t others.now))) result sink.new }
{
    for row in others.as_slice() {
        if row.0.is_below_t() {
            write_row(row, sink)?;
        }
    }
    Ok(())
}

// Those that are written after `t` and `u`.
fn write_above_t<S: TextSink>(others: &Others, sink: &mut S) -> fmt::Result
    ensures { S.Writes sink.old (dashed (flat (above_t others.now))) result sink.new }
{
    for row in others.as_slice() {
        if !row.0.is_below_t() {
            write_row(row, sink)?;
        }
    }
    Ok(())
}

// The transform extension, where it has a language or a field.
fn write_transform<S: TextSink>(x: &LocaleIdentifier, sink: &mut S) -> fmt::Result
    ensures { S.Writes sink.old (dashed (marked (codes "t") (transform_pieces x.now)))
        result sink.new }
{
    if !has_transform(x) {
        return Ok(());
    }
    sink.write_text("-t")?;
    write_language(&x.locale.extensions.transform.lang, sink)?;
    x.fields.write_to(sink)
}

// The subtags of a language in lower case, if there is one.
fn write_language<S: TextSink>(lang: &Option<LanguageIdentifier>, sink: &mut S) -> fmt::Result
    ensures { S.Writes sink.old (dashed (lower_subtags lang.now)) result sink.new }
{
    let Some(lang) = lang else {
        return Ok(());
    };
    write_lower(lang.language.as_str().as_bytes(), sink)?;
    write_script(&lang.script, sink)?;
    write_region(&lang.region, sink)?;
    write_variants(&lang.variants, sink)
}

fn write_script<S: TextSink>(script: &Option<Script>, sink: &mut S) -> fmt::Result
    ensures { S.Writes sink.old (dashed (map lowercase (option_to_list script.now)))
        result sink.new }
{
    match script {
        Some(script) => write_lower(script.as_str().as_bytes(), sink),
        None => Ok(()),
    }
}

fn write_region<S: TextSink>(region: &Option<Region>, sink: &mut S) -> fmt::Result
    ensures { S.Writes sink.old (dashed (map lowercase (option_to_list region.now)))
        result sink.new }
{
    match region {
        Some(region) => write_lower(region.as_str().as_bytes(), sink),
        None => Ok(()),
    }
}

fn write_variants<S: TextSink>(variants: &Variants, sink: &mut S) -> fmt::Result
    ensures { S.Writes sink.old (dashed (map lowercase (rising variants.now)))
        result sink.new }
{
    for variant in variants.iter() {
        write_lower(variant.as_str().as_bytes(), sink)?;
    }
    Ok(())
}

// A text in lower case, with `-` before it.
pub fn write_lower<S: TextSink>(text: &[u8], sink: &mut S) -> fmt::Result
    requires { is_alphanumeric text.now ≡ true }
    ensures { S.Writes sink.old (codes "-" ++ lowercase text.now) result sink.new }
{
    sink.write_ascii(b'-')?;
    for byte in text {
        sink.write_ascii(byte.to_ascii_lowercase())?;
    }
    Ok(())
}

// The Unicode extension, where it has an attribute or a keyword.
fn write_unicode<S: TextSink>(x: &LocaleIdentifier, sink: &mut S) -> fmt::Result
    ensures { S.Writes sink.old (dashed (marked (codes "u") (unicode_pieces x.now)))
        result sink.new }
{
    if !has_unicode(x) {
        return Ok(());
    }
    sink.write_text("-u")?;
    write_attributes(&x.attributes, sink)?;
    x.locale.extensions.unicode.keywords.write_to(sink)
}

fn write_attributes<S: TextSink>(attributes: &Attributes, sink: &mut S) -> fmt::Result
    ensures { S.Writes sink.old (dashed attributes.now) result sink.new }
{
    for attribute in attributes.iter() {
        write_after_dash(attribute.as_str(), sink)?;
    }
    Ok(())
}

// `x` and the pieces of private use, if there are any.
fn write_private_use<S: TextSink>(pieces: &Option<Subtags<1>>, sink: &mut S) -> fmt::Result
    ensures { S.Writes sink.old (dashed (marked_if_any (codes "x") pieces.now))
        result sink.new }
{
    let Some(pieces) = pieces else {
        return Ok(());
    };
    sink.write_text("-x-")?;
    sink.write_text(pieces.as_str())
}
