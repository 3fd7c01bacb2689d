//! Each part of a locale identifier is looked at and changed.
use icu_locale_extensions::{FieldKey, LocaleIdentifier, Singleton, Subtags};
use std::alloc::{AllocError, Global};
use std::process::Abort;
use tests_shared::known::{key, language, subtag, value};

#[test]
fn parts_are_looked_at(rt: HostRuntime) {
    let x = whole(&rt, rt.alloc());
    assert!(rt; x.locale.id.language == language("en").expect(&rt, "language"));
    assert!(rt; x.attributes.contains(&subtag("attr").expect(&rt, "subtag")));
    assert!(rt;
        x.locale
            .extensions
            .unicode
            .keywords
            .get(key("hc").expect(&rt, "key"))
            .is_some()
    );
    assert!(rt; x.locale.extensions.transform.lang.is_some());
    assert!(rt; x.fields.get(field(&rt)).is_some());
    assert!(rt; x.others.get(singleton(&rt)).is_some());
    let own = x.private_use.as_ref().expect(&rt, "private use");
    assert!(rt; own.len() == 2);
    let first = own.iter().peek().expect(&rt, "a piece");
    assert!(rt; first == "two".as_bytes());
}

#[test]
fn parts_are_changed(rt: HostRuntime) {
    let alloc = rt.alloc();
    let mut x = whole(&rt, alloc);
    x.locale.id.language = language("fr").expect(&rt, "language");
    let _ = x.attributes.remove(&subtag("attr").expect(&rt, "subtag"));
    let _ = x
        .attributes
        .insert(subtag("other").expect(&rt, "subtag"))
        .expect(&rt, "memory");
    let keywords = &mut x.locale.extensions.unicode.keywords;
    let _ = keywords
        .set(
            key("ca").expect(&rt, "key"),
            value(alloc, "buddhist").expect(&rt, "value"),
        )
        .expect(&rt, "memory");
    x.locale.extensions.transform.lang = None;
    let pieces = Subtags::try_from_str(alloc, "ungegn").expect(&rt, "memory");
    let _ = x.fields.set(field(&rt), pieces).expect(&rt, "memory");
    let _ = x.others.remove(singleton(&rt));
    x.private_use = Some(longer(&rt, alloc));
    let mut text = Vec::new(alloc);
    x.append_to(&mut text).expect(&rt, "memory");
    let wanted = "fr-t-m0-ungegn-u-other-ca-buddhist-hc-h12-x-mine-yours";
    assert!(rt; text.as_slice() == wanted.as_bytes());
}

// An identifier with each extension that there may be is written alike to a list of bytes and by a formatter.
#[test]
fn sinks_have_the_same_text(rt: HostRuntime) {
    let alloc = rt.alloc();
    let mut x = whole(&rt, alloc);
    for mark in "zyxwvutsrqponmlkjihgfedcba9876543210".as_bytes().chunks(1) {
        if let Some(singleton) = Singleton::try_from_bytes(mark) {
            let pieces = Subtags::try_from_str(alloc, "own").expect(&rt, "memory");
            let _ = x.others.set(singleton, pieces).expect(&rt, "memory");
        }
    }
    let mut bytes = Vec::new(alloc);
    assert!(rt; x.write_to(&mut bytes).is_ok());
    let mut wanted = Vec::new(alloc);
    marked(&mut wanted, "en", "0123456789abcdefghijklmnopqrs").expect(&rt, "memory");
    marked(&mut wanted, "-t-ja-m0-names-u-attr-hc-h12", "vwyz").expect(&rt, "memory");
    marked(&mut wanted, "-x-two-own", "").expect(&rt, "memory");
    assert!(rt; bytes.as_slice() == wanted.as_slice());
    let shown = format!(in alloc; "{x}").expect(&rt, "memory");
    assert!(rt; shown.as_bytes() == wanted.as_slice());
}

// A text, and `own` behind each of some marks.
fn marked(wanted: &mut Vec<u8>, text: &str, marks: &str) -> Result<(), AllocError> {
    wanted.extend_from_slice(text.as_bytes())?;
    for mark in marks.as_bytes() {
        wanted.extend_from_slice("-".as_bytes())?;
        wanted.push(*mark)?;
        wanted.extend_from_slice("-own".as_bytes())?;
    }
    Ok(())
}

// Pieces, one of which was put after the others. A piece that may not be there changes nothing.
fn longer(rt: &impl Abort, alloc: Global) -> Subtags<1> {
    let mut pieces = Subtags::try_from_str(alloc, "mine").expect(rt, "memory");
    pieces.push("Yours".as_bytes()).expect(rt, "memory");
    let _ = pieces.push("no piece".as_bytes());
    pieces
}

fn whole(rt: &impl Abort, alloc: Global) -> LocaleIdentifier {
    let text = "en-a-bcd-t-ja-m0-names-u-attr-hc-h12-x-two-own";
    LocaleIdentifier::try_from_str(alloc, text).expect(rt, text)
}

fn field(rt: &impl Abort) -> FieldKey {
    FieldKey::try_from_bytes("m0".as_bytes()).expect(rt, "m0")
}

fn singleton(rt: &impl Abort) -> Singleton {
    Singleton::try_from_bytes("a".as_bytes()).expect(rt, "a")
}
