//! Sorted maps, whatever the order of inserts, and with notes of their keys.
use icu_locale_core::{Language, Region};
use icu_provider::{DataError, NotedMap, SortedMap};
use std::alloc::Global;
use std::str;

// A map with a row for each number, whose value is one more.
fn filled(alloc: Global, keys: &[u16]) -> Result<SortedMap<u16, u16>, DataError> {
    let mut map = SortedMap::new(alloc);
    for key in keys {
        map.insert(*key, key.wrapping_add(1))?;
    }
    Ok(map)
}

// A map with 200 rows, put in from a key on, so many keys apart, round and round; the value of each is its key.
fn filled_in_steps(alloc: Global, first: u16, step: u16) -> Result<SortedMap<u16, u16>, DataError> {
    let mut map = SortedMap::new(alloc);
    for place in 0..200_u16 {
        let key = place.wrapping_mul(step).wrapping_add(first) % 200;
        map.insert(key, key)?;
    }
    Ok(map)
}

#[test]
fn each_order_of_inserts_gives_the_same_walk(rt: HostRuntime) {
    // rising, falling and mixed
    for (first, step) in [(0, 1), (199, 199), (0, 77)] {
        let map = filled_in_steps(rt.alloc(), first, step).expect(&rt, "memory");
        assert!(rt; map.len() == 200, "in steps of {step}");
        assert!(rt;
            map.iter().map(|(key, _)| *key).eq(0..200),
            "in steps of {step}"
        );
        assert!(rt;
            map.iter().map(|(_, value)| *value).eq(0..200),
            "in steps of {step}"
        );
    }
}

#[test]
fn an_insert_at_a_key_that_is_there_changes_its_value_alone(rt: HostRuntime) {
    let mut map = filled(rt.alloc(), &[5, 3, 9]).expect(&rt, "memory");
    map.insert(5, 70).expect(&rt, "memory");
    assert!(rt; map.as_slice() == [(3, 4), (5, 70), (9, 10)].as_slice());
    assert!(rt; map.get(&5).copied() == Some(70));
    assert!(rt; map.get(&4).copied() == None);
    assert!(rt; map.contains_key(&9));
    assert!(rt; !map.contains_key(&10));
}

#[test]
fn keys_of_two_parts_rise_by_the_first_and_then_the_second(rt: HostRuntime) {
    let mut map = SortedMap::<(u8, u8), char>::new(rt.alloc());
    for (first, second, value) in [(2, 1, 'c'), (1, 9, 'b'), (2, 2, 'd'), (1, 2, 'a')] {
        map.insert((first, second), value).expect(&rt, "memory");
    }
    assert!(rt; map.iter().map(|(_, value)| *value).eq(['a', 'b', 'c', 'd']));
    assert!(rt; map.get(&(2, 1)) == Some(&'c') && map.get(&(1, 1)) == None);
}

#[test]
fn a_map_to_nothing_is_a_set(rt: HostRuntime) {
    let mut set = SortedMap::<u8, ()>::new(rt.alloc());
    assert!(rt; set.is_empty());
    for key in [7, 3, 7] {
        set.insert(key, ()).expect(&rt, "memory");
    }
    assert!(rt; set.len() == 2);
    assert!(rt; set.contains_key(&7));
    assert!(rt; !set.contains_key(&4));
}

#[test]
fn a_walk_shows_what_is_left(rt: HostRuntime) {
    let map = filled(rt.alloc(), &[2, 1, 3]).expect(&rt, "memory");
    let mut rows = map.iter();
    assert!(rt; rows.next().map(|(key, value)| (*key, *value)) == Some((1, 2)));
    assert!(rt; rows.as_slice() == [(2, 3), (3, 4)].as_slice());
    assert!(rt; rows.clone().expect(&rt, "memory").count() == 2);
    assert!(rt; rows.count() == 2);
}

const LETTERS: &[u8; 26] = b"abcdefghijklmnopqrstuvwxyz";

const REGIONS: [&str; 4] = ["001", "002", "003", "005"];

// The language of three letters at a place of their list.
fn language_at(place: usize) -> Option<Language> {
    let letters = [
        LETTERS[place / 676 % 26],
        LETTERS[place / 26 % 26],
        LETTERS[place % 26],
    ];
    Language::try_from_str(str::from_utf8(&letters).ok()?).ok()
}

fn region(text: &str) -> Option<Region> {
    Region::try_from_str(text).ok()
}

// Whether each language of three letters is found with each of the regions, and with no other.
fn finds_all(map: &NotedMap<(Language, Region), usize>) -> Option<bool> {
    let other = region("004")?;
    for place in 0..17_576 {
        let language = language_at(place)?;
        for text in REGIONS {
            if map.get(&(language, region(text)?)).copied() != Some(place) {
                return Some(false);
            }
        }
        if map.contains_key(&(language, other)) {
            return Some(false);
        }
    }
    Some(true)
}

// More rows than notes can tell the places of.
#[test]
fn notes_change_no_answer(rt: HostRuntime) {
    let mut map = NotedMap::new(rt.alloc());
    for place in 0..17_576 {
        let language = language_at(place).expect(&rt, "a language");
        for text in REGIONS {
            let key = (language, region(text).expect(&rt, "a region"));
            map.insert(key, place).expect(&rt, "memory");
        }
    }
    assert!(rt; map.len() == 70_304);
    assert!(rt; finds_all(&map) == Some(true), "before there are notes");
    map.note(rt.alloc()).expect(&rt, "memory");
    assert!(rt; finds_all(&map) == Some(true), "by notes");
    let last = (
        language_at(17_575).expect(&rt, "a language"),
        region("004").expect(&rt, "a region"),
    );
    map.insert(last, 7).expect(&rt, "memory");
    assert!(rt;
        map.get(&last).copied() == Some(7),
        "what is put in after them"
    );
    map.note(rt.alloc()).expect(&rt, "memory");
    assert!(rt; map.get(&last).copied() == Some(7), "and noted again");
    assert!(rt; map.iter().count() == 70_305 && map.as_slice().len() == 70_305);
}

#[test]
fn a_map_without_rows_is_noted_for_nothing(rt: HostRuntime) {
    let mut map = NotedMap::<Region, u8>::new(rt.alloc());
    map.note(rt.alloc()).expect(&rt, "memory");
    assert!(rt; map.is_empty());
    assert!(rt; !map.contains_key(&region("DE").expect(&rt, "a region")));
}
