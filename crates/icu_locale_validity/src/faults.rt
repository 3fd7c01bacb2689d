//! What is told of the parts of one kind.
ghost use Rattle.std.specs.Prelude.{◌≡◌, ◌++◌, [], ◌∷◌, codes, length, map, take, None, Some, OnOk, OnErr};
ghost use Rattle.std.specs.Option.{option_to_list};
ghost use Rattle.icu_locale_core.specs.TextSet.{rising};
ghost use Rattle.icu_locale_validity.specs.Parts.{code_part, id_parts, keyword_part, lang_parts, row_part};
ghost use Rattle.icu_locale_validity.specs.inner.Lines.{line, lines, tail_lines, transform_lines, unicode_lines, unlisted, whole_lines};
ghost use Rattle.icu_locale_validity.specs.inner.Marks.{marks};

use crate::lines::{append_code, append_row, append_row_fault};
use crate::place::Behind;
use crate::region::is_of_region;
use crate::table::is_valid_status;
use crate::{PartKind, Status, Validity};
use icu_locale_core::{Key, LanguageIdentifier, Region, Script, Value, Variants};
use icu_locale_extensions::{Attributes, FieldKey, LocaleIdentifier, Singleton, Subtags};
use std::alloc::AllocError;

// Appends each part of a locale that is not valid, with a tab after it.
pub fn append_faults(
    table: &Validity,
    text: &[u8],
    x: &LocaleIdentifier,
    report: &mut Vec<u8>,
) -> Result<(), AllocError>
    ensures appended { OnOk result
        (report.new.items ≡ report.old.items ++ whole_lines table.now text.now x.now) }
    ensures part { OnErr result
        (take (length report.old.items) report.new.items ≡ report.old.items) }
{
    append_id(table, text, None, &x.locale.id, report)?;
    append_unicode(table, text, x, report)?;
    append_transform(table, text, x, report)?;
    append_others(text, x.others.iter().as_slice(), report)
}

// Attributes and keywords.
fn append_unicode(
    table: &Validity,
    text: &[u8],
    x: &LocaleIdentifier,
    report: &mut Vec<u8>,
) -> Result<(), AllocError>
    ensures appended { OnOk result
        (report.new.items ≡ report.old.items ++ unicode_lines table.now text.now x.now) }
    ensures part { OnErr result
        (take (length report.old.items) report.new.items ≡ report.old.items) }
{
    append_attributes(text, &x.attributes, report)?;
    append_keywords(
        table,
        text,
        &x.locale.id.region,
        x.locale.extensions.unicode.keywords.iter().as_slice(),
        report,
    )
}

// The language of the transform extension, and its fields.
fn append_transform(
    table: &Validity,
    text: &[u8],
    x: &LocaleIdentifier,
    report: &mut Vec<u8>,
) -> Result<(), AllocError>
    ensures appended { OnOk result
        (report.new.items ≡ report.old.items ++ transform_lines table.now text.now x.now) }
    ensures part { OnErr result
        (take (length report.old.items) report.new.items ≡ report.old.items) }
{
    append_lang(table, text, &x.locale.extensions.transform.lang, report)?;
    append_fields(table, text, x.fields.iter().as_slice(), report)
}

// The parts of an identifier, behind a singleton if it is in an extension.
fn append_id(
    table: &Validity,
    text: &[u8],
    singleton: Option<u8>,
    x: &LanguageIdentifier,
    report: &mut Vec<u8>,
) -> Result<(), AllocError>
    ensures appended { OnOk result (report.new.items ≡ report.old.items
        ++ lines table.now text.now (id_parts (marks singleton None) x.now)) }
    ensures part { OnErr result
        (take (length report.old.items) report.new.items ≡ report.old.items) }
{
    let front = Behind {
        singleton,
        language: None,
    };
    let status = table.language(x.language);
    append_code(
        text,
        &front,
        PartKind::Language,
        x.language.as_str(),
        status,
        report,
    )?;
    append_tail(table, text, singleton, x, report)
}

// What follows the language of an identifier.
fn append_tail(
    table: &Validity,
    text: &[u8],
    singleton: Option<u8>,
    x: &LanguageIdentifier,
    report: &mut Vec<u8>,
) -> Result<(), AllocError>
    ensures appended { OnOk result (report.new.items ≡ report.old.items
        ++ tail_lines table.now text.now (marks singleton (Some x.now.language)) x.now) }
    ensures part { OnErr result
        (take (length report.old.items) report.new.items ≡ report.old.items) }
{
    let behind = Behind {
        singleton,
        language: Some(x.language),
    };
    append_script(table, text, &behind, &x.script, report)?;
    append_region(table, text, &behind, &x.region, report)?;
    append_variants(table, text, &behind, &x.variants, report)
}

fn append_script(
    table: &Validity,
    text: &[u8],
    behind: &Behind,
    script: &Option<Script>,
    report: &mut Vec<u8>,
) -> Result<(), AllocError>
    ensures appended { OnOk result (report.new.items
        ≡ report.old.items ++ lines table.now text.now
        (map (code_part PartKind.Script (marks behind.now.singleton behind.now.language))
        (option_to_list script.now))) }
    ensures part { OnErr result
        (take (length report.old.items) report.new.items ≡ report.old.items) }
{
    match script {
        Some(script) => {
            let status = table.script(*script);
            append_code(
                text,
                behind,
                PartKind::Script,
                script.as_str(),
                status,
                report,
            )
        }
        None => Ok(()),
    }
}

fn append_region(
    table: &Validity,
    text: &[u8],
    behind: &Behind,
    region: &Option<Region>,
    report: &mut Vec<u8>,
) -> Result<(), AllocError>
    ensures appended { OnOk result (report.new.items
        ≡ report.old.items ++ lines table.now text.now
        (map (code_part PartKind.Region (marks behind.now.singleton behind.now.language))
        (option_to_list region.now))) }
    ensures part { OnErr result
        (take (length report.old.items) report.new.items ≡ report.old.items) }
{
    match region {
        Some(region) => {
            let status = table.region(*region);
            append_code(
                text,
                behind,
                PartKind::Region,
                region.as_str(),
                status,
                report,
            )
        }
        None => Ok(()),
    }
}

fn append_variants(
    table: &Validity,
    text: &[u8],
    behind: &Behind,
    variants: &Variants,
    report: &mut Vec<u8>,
) -> Result<(), AllocError>
    ensures appended { OnOk result (report.new.items
        ≡ report.old.items ++ lines table.now text.now
        (map (code_part PartKind.Variant (marks behind.now.singleton behind.now.language))
        (rising variants.now))) }
    ensures part { OnErr result
        (take (length report.old.items) report.new.items ≡ report.old.items) }
{
    for variant in variants.iter() {
        let status = table.variant(variant);
        append_code(
            text,
            behind,
            PartKind::Variant,
            variant.as_str(),
            status,
            report,
        )?;
    }
    Ok(())
}

fn append_attributes(
    text: &[u8],
    attributes: &Attributes,
    report: &mut Vec<u8>,
) -> Result<(), AllocError>
    ensures appended { OnOk result (report.new.items ≡ report.old.items ++ unlisted text.now
        (map (code_part PartKind.Attribute (codes "u" ∷ [])) attributes.now)) }
    ensures part { OnErr result
        (take (length report.old.items) report.new.items ≡ report.old.items) }
{
    let behind = Behind {
        singleton: Some(b'u'),
        language: None,
    };
    for attribute in attributes.iter() {
        append_code(
            text,
            &behind,
            PartKind::Attribute,
            attribute.as_str(),
            None,
            report,
        )?;
    }
    Ok(())
}

fn append_keywords(
    table: &Validity,
    text: &[u8],
    region: &Option<Region>,
    rows: &[(Key, Value)],
    report: &mut Vec<u8>,
) -> Result<(), AllocError>
    ensures appended { OnOk result (report.new.items
        ≡ report.old.items ++ lines table.now text.now
        (map (keyword_part region.now) rows.now)) }
    ensures part { OnErr result
        (take (length report.old.items) report.new.items ≡ report.old.items) }
{
    for row in rows {
        let status = table.keyword(row.0, &row.1);
        append_keyword(text, region, row, status, report)?;
    }
    Ok(())
}

fn append_keyword(
    text: &[u8],
    region: &Option<Region>,
    row: &(Key, Value),
    status: Option<Status>,
    report: &mut Vec<u8>,
) -> Result<(), AllocError>
    ensures appended { OnOk result (report.new.items
        ≡ report.old.items ++ line text.now status (keyword_part region.now row.now)) }
    ensures part { OnErr result
        (take (length report.old.items) report.new.items ≡ report.old.items) }
{
    if is_of_region(region, row) && is_valid_status(status) {
        return Ok(());
    }
    let behind = Behind {
        singleton: Some(b'u'),
        language: None,
    };
    append_row_fault(text, &behind, PartKind::Keyword, row, status, report)
}

fn append_lang(
    table: &Validity,
    text: &[u8],
    lang: &Option<LanguageIdentifier>,
    report: &mut Vec<u8>,
) -> Result<(), AllocError>
    ensures appended { OnOk result
        (report.new.items ≡ report.old.items ++ lines table.now text.now (lang_parts lang.now)) }
    ensures part { OnErr result
        (take (length report.old.items) report.new.items ≡ report.old.items) }
{
    match lang {
        Some(lang) => append_id(table, text, Some(b't'), lang, report),
        None => Ok(()),
    }
}

fn append_fields(
    table: &Validity,
    text: &[u8],
    rows: &[(FieldKey, Subtags<3>)],
    report: &mut Vec<u8>,
) -> Result<(), AllocError>
    ensures appended { OnOk result (report.new.items
        ≡ report.old.items ++ lines table.now text.now
        (map (row_part PartKind.Field (codes "t" ∷ [])) rows.now)) }
    ensures part { OnErr result
        (take (length report.old.items) report.new.items ≡ report.old.items) }
{
    let behind = Behind {
        singleton: Some(b't'),
        language: None,
    };
    for row in rows {
        let status = table.field(row.0, &row.1);
        append_row(text, &behind, PartKind::Field, row, status, report)?;
    }
    Ok(())
}

fn append_others(
    text: &[u8],
    rows: &[(Singleton, Subtags<2>)],
    report: &mut Vec<u8>,
) -> Result<(), AllocError>
    ensures appended { OnOk result (report.new.items
        ≡ report.old.items ++ unlisted text.now (map (row_part PartKind.Extension []) rows.now)) }
    ensures part { OnErr result
        (take (length report.old.items) report.new.items ≡ report.old.items) }
{
    let behind = Behind {
        singleton: None,
        language: None,
    };
    for row in rows {
        append_row(text, &behind, PartKind::Extension, row, None, report)?;
    }
    Ok(())
}
