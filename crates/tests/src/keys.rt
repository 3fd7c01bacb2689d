//! Keys over small tables: keys that are not their own, that have no key, that come round, and both minimal forms.
use icu_locale::{CanonicalizeError, CanonicalizerRef, LocaleCanonicalizer, Turns};
use icu_locale_core::{Language, LanguageIdentifier, Region, Script};
use icu_locale_key::{
    bring_to_key, bring_to_key_favor_script, bring_to_stable_key, bring_to_stable_key_counted,
    is_own_key, keys_are_stable,
};
use icu_provider::{
    Aliases, LanguageStrStrPair, LikelySubtagsForLanguage, LikelySubtagsForScriptRegion, StrStrPair,
};
use std::alloc::Global;
use std::process::Abort;

fn language(rt: &impl Abort, text: &str) -> Language {
    Language::try_from_str(text).expect(rt, text)
}

fn script(rt: &impl Abort, text: &str) -> Script {
    Script::try_from_str(text).expect(rt, text)
}

fn region(rt: &impl Abort, text: &str) -> Region {
    Region::try_from_str(text).expect(rt, text)
}

fn identifier(rt: &impl Abort, alloc: Global, text: &str) -> LanguageIdentifier {
    LanguageIdentifier::try_from_str(alloc, text).expect(rt, text)
}

// The likely subtags of a language, which are those of `und` too.
fn likely(
    rt: &impl Abort,
    alloc: Global,
    name: &str,
    its_script: &str,
    its_region: &str,
) -> LikelySubtagsForLanguage {
    let (name, its_script, its_region) = (
        language(rt, name),
        script(rt, its_script),
        region(rt, its_region),
    );
    let mut likely = LikelySubtagsForLanguage::new(alloc, (name, its_script, its_region));
    likely
        .insert_language(name, its_script, its_region)
        .expect(rt, "memory");
    likely
}

// A row of `language_variants`, for `guoyu`.
fn push_rule(rt: &impl Abort, alloc: Global, aliases: &mut Aliases, from: &str, to: &str) {
    let variant = format!(in alloc; "guoyu").expect(rt, "memory");
    let to = format!(in alloc; "{to}").expect(rt, "memory");
    let row = LanguageStrStrPair(language(rt, from), variant, to);
    aliases.push_language_variants(row).expect(rt, "memory");
}

// A row of `language_len2`.
fn insert_alias(rt: &impl Abort, alloc: Global, aliases: &mut Aliases, from: &str, to: &str) {
    let to = format!(in alloc; "{to}").expect(rt, "memory");
    aliases
        .insert_language_len2(language(rt, from), to)
        .expect(rt, "memory");
}

// The key of an identifier must be this, and be its own as told.
fn has_key(
    rt: &impl Abort,
    alloc: Global,
    canonicalizer: &CanonicalizerRef<'_>,
    text: &str,
    wanted: &str,
    own: bool,
) {
    let mut id = identifier(rt, alloc, text);
    assert!(rt; bring_to_key(canonicalizer, &mut id).is_ok());
    let wanted = identifier(rt, alloc, wanted);
    assert!(rt; id == wanted);
    let told = is_own_key(canonicalizer, &id).ok();
    assert!(rt; told == Some(own));
}

// The key that stays must be this.
fn has_stable_key(
    rt: &impl Abort,
    alloc: Global,
    canonicalizer: &CanonicalizerRef<'_>,
    text: &str,
    wanted: &str,
) {
    let mut id = identifier(rt, alloc, text);
    assert!(rt; bring_to_stable_key(canonicalizer, &mut id).is_ok());
    let wanted = identifier(rt, alloc, wanted);
    assert!(rt; id == wanted);
}

// What a refusal names.
fn named_by(refused: Option<CanonicalizeError>) -> Option<LanguageIdentifier> {
    match refused {
        Some(CanonicalizeError::NoFixedPoint(first)) => Some(first),
        _ => None,
    }
}

// No key may stay, and this identifier must be named.
fn has_no_stable_key(
    rt: &impl Abort,
    alloc: Global,
    canonicalizer: &CanonicalizerRef<'_>,
    text: &str,
    wanted: &str,
) {
    let mut id = identifier(rt, alloc, text);
    let wanted = Some(identifier(rt, alloc, wanted));
    let refused = bring_to_stable_key(canonicalizer, &mut id).err();
    assert!(rt; named_by(refused) == wanted);
    let refused = bring_to_stable_key_counted(canonicalizer, &mut id, &mut Turns::new()).err();
    assert!(rt; named_by(refused) == wanted);
    let given = identifier(rt, alloc, text);
    assert!(rt; id == given);
}

// An identifier that comes again by the rules has no key, and is named.
fn has_no_key(rt: &impl Abort, alloc: Global, canonicalizer: &CanonicalizerRef<'_>, text: &str) {
    let mut id = identifier(rt, alloc, text);
    let wanted = Some(identifier(rt, alloc, text));
    let refused = bring_to_key(canonicalizer, &mut id).err();
    assert!(rt; named_by(refused) == wanted);
    let refused = bring_to_key_favor_script(canonicalizer, &mut id).err();
    assert!(rt; named_by(refused) == wanted);
    let given = identifier(rt, alloc, text);
    assert!(rt; id == given);
}

// UTS #35 has a rule for `zh` with `guoyu`, and none for `und`.
#[test]
fn a_rule_for_a_language_that_is_filled_in(rt: HostRuntime) {
    let alloc = rt.alloc();
    let likely = likely(&rt, alloc, "zh", "Hans", "CN");
    let others = LikelySubtagsForScriptRegion::new(alloc);
    let mut aliases = Aliases::new(alloc);
    push_rule(&rt, alloc, &mut aliases, "zh", "zh");
    let alone = LocaleCanonicalizer::new_common(alloc, &likely, &others, &aliases);
    let alone = alone.expect(&rt, "tables");
    let lent = alone.lend();
    assert!(rt; !keys_are_stable(&lent));
    has_key(&rt, alloc, &lent, "und-CN-guoyu", "zh-guoyu", false);
    has_key(&rt, alloc, &lent, "zh-guoyu", "zh", true);
    has_stable_key(&rt, alloc, &lent, "und-CN-guoyu", "zh");
    has_stable_key(&rt, alloc, &lent, "zh-guoyu", "zh");
    let mut covered = Aliases::new(alloc);
    push_rule(&rt, alloc, &mut covered, "zh", "zh");
    push_rule(&rt, alloc, &mut covered, "und", "und");
    let covered = LocaleCanonicalizer::new_common(alloc, &likely, &others, &covered);
    let covered = covered.expect(&rt, "tables");
    let lent = covered.lend();
    assert!(rt; keys_are_stable(&lent));
    has_key(&rt, alloc, &lent, "und-CN-guoyu", "zh", true);
    has_stable_key(&rt, alloc, &lent, "und-CN-guoyu", "zh");
}

#[test]
fn keys_that_have_no_key(rt: HostRuntime) {
    let alloc = rt.alloc();
    let likely = likely(&rt, alloc, "en", "Latn", "US");
    let others = LikelySubtagsForScriptRegion::new(alloc);
    let mut aliases = Aliases::new(alloc);
    insert_alias(&rt, alloc, &mut aliases, "en", "fr");
    insert_alias(&rt, alloc, &mut aliases, "fr", "en");
    let canonicalizer = LocaleCanonicalizer::new_common(alloc, &likely, &others, &aliases);
    let canonicalizer = canonicalizer.expect(&rt, "tables");
    let lent = canonicalizer.lend();
    has_key(&rt, alloc, &lent, "und-US", "en", false);
    has_no_stable_key(&rt, alloc, &lent, "und-US", "en");
    has_no_stable_key(&rt, alloc, &lent, "fr", "fr");
    has_no_key(&rt, alloc, &lent, "fr");
}

// The key of `en` is `fr`, and that of `fr` is `en`.
#[test]
fn keys_that_come_round(rt: HostRuntime) {
    let alloc = rt.alloc();
    let mut likely = likely(&rt, alloc, "en", "Latn", "US");
    let (french, latin, france) = (language(&rt, "fr"), script(&rt, "Latn"), region(&rt, "FR"));
    likely
        .insert_language(french, latin, france)
        .expect(&rt, "memory");
    let mut others = LikelySubtagsForScriptRegion::new(alloc);
    others
        .insert_region(france, french, latin)
        .expect(&rt, "memory");
    let mut aliases = Aliases::new(alloc);
    insert_alias(&rt, alloc, &mut aliases, "en", "und-FR");
    insert_alias(&rt, alloc, &mut aliases, "fr", "und-US");
    let canonicalizer = LocaleCanonicalizer::new_common(alloc, &likely, &others, &aliases);
    let canonicalizer = canonicalizer.expect(&rt, "tables");
    let lent = canonicalizer.lend();
    has_key(&rt, alloc, &lent, "und-US", "en", false);
    has_key(&rt, alloc, &lent, "en", "fr", false);
    has_no_stable_key(&rt, alloc, &lent, "und-US", "en");
    has_no_stable_key(&rt, alloc, &lent, "fr", "fr");
}

// `und-US` and `en-US` have one maximal form, and a rule matches the second alone.
#[test]
fn equal_maximal_forms_with_other_keys(rt: HostRuntime) {
    let alloc = rt.alloc();
    let likely = likely(&rt, alloc, "en", "Latn", "US");
    let others = LikelySubtagsForScriptRegion::new(alloc);
    let mut aliases = Aliases::new(alloc);
    let from = format!(in alloc; "en-US").expect(&rt, "memory");
    let to = format!(in alloc; "fr").expect(&rt, "memory");
    aliases
        .push_language(StrStrPair(from, to))
        .expect(&rt, "memory");
    let canonicalizer = LocaleCanonicalizer::new_common(alloc, &likely, &others, &aliases);
    let canonicalizer = canonicalizer.expect(&rt, "tables");
    let lent = canonicalizer.lend();
    has_stable_key(&rt, alloc, &lent, "und-US", "en");
    has_stable_key(&rt, alloc, &lent, "en-US", "fr");
}

// UTS #35 Part 1, section 4.3: `zh-TW`, or `zh-Hant` where the script is favored.
#[test]
fn a_key_that_favors_the_script(rt: HostRuntime) {
    let alloc = rt.alloc();
    let mut likely = likely(&rt, alloc, "zh", "Hans", "CN");
    let (chinese, hant, taiwan) = (language(&rt, "zh"), script(&rt, "Hant"), region(&rt, "TW"));
    likely
        .insert_language_script(chinese, hant, taiwan)
        .expect(&rt, "memory");
    likely
        .insert_language_region(chinese, taiwan, hant)
        .expect(&rt, "memory");
    let others = LikelySubtagsForScriptRegion::new(alloc);
    let aliases = Aliases::new(alloc);
    let canonicalizer = LocaleCanonicalizer::new_common(alloc, &likely, &others, &aliases);
    let canonicalizer = canonicalizer.expect(&rt, "tables");
    let lent = canonicalizer.lend();
    has_key(&rt, alloc, &lent, "zh-Hant", "zh-TW", true);
    let mut id = identifier(&rt, alloc, "zh-TW");
    assert!(rt; bring_to_key_favor_script(&lent, &mut id).is_ok());
    let wanted = identifier(&rt, alloc, "zh-Hant");
    assert!(rt; id == wanted);
}
