// The order of versions.
use advise_versions::version_cmp;
use std::cmp::Ordering;

// Whether the first version has this order to the second, and the second has the converse order to the first.
fn are_present(a: &str, b: &str, so: Ordering, conversely: Ordering) -> bool {
    version_cmp(a.as_bytes(), b.as_bytes()) == so
        && version_cmp(b.as_bytes(), a.as_bytes()) == conversely
}

// Whether each version has this order to the next version, and the next has the converse order to it.
fn each_present(versions: &[&str], so: Ordering, conversely: Ordering) -> bool {
    let mut last = None;
    for version in versions {
        if let Some(before) = last {
            if !are_present(before, version, so, conversely) {
                return false;
            }
        }
        last = Some(*version);
    }
    true
}

fn rise(versions: &[&str]) -> bool {
    each_present(versions, Ordering::Less, Ordering::Greater)
}

fn are_equal(versions: &[&str]) -> bool {
    each_present(versions, Ordering::Equal, Ordering::Equal)
}

#[test]
fn numbers_are_compared_as_numbers(rt: HostRuntime) {
    assert!(rt; rise(&["1.9", "1.10", "2", "10"]));
    assert!(rt;
        rise(&[
            "10.0.19041",
            "10.0.22000",
            "2019.12.31",
            "2020.01.01",
            "20191231",
            "20200101"
        ])
    );
    assert!(rt; rise(&["99999999999999999999", "100000000000000000000"]));
    assert!(rt; are_equal(&["1.1", "1.01", "01.1"]));
    assert!(rt; are_equal(&["0", "000"]));
}

#[test]
fn separators_and_letter_case_count_nothing(rt: HostRuntime) {
    assert!(rt; are_equal(&["1.0", "1-0", "_1..0_", "1.0+"]));
    assert!(rt; are_equal(&["1.0RC1", "1.0-rc.1"]));
    assert!(rt; are_equal(&["", "..."]));
}

#[test]
fn a_word_is_less_than_the_end_and_the_end_less_than_a_number(rt: HostRuntime) {
    assert!(rt; rise(&["1.0beta2", "1.0", "1.0.0", "1.0.1"]));
    assert!(rt; rise(&["alpha", "", "0"]));
}

// The versions of semver 2.0.0, 11.4. There, `alpha.1` is less than `alpha.beta`. Here, one more word makes a version
// less.
#[test]
fn pre_releases_of_semver(rt: HostRuntime) {
    assert!(rt;
        rise(&[
            "1.0.0-alpha.beta",
            "1.0.0-alpha",
            "1.0.0-alpha.1",
            "1.0.0-beta"
        ])
    );
    assert!(rt;
        rise(&[
            "1.0.0-beta",
            "1.0.0-beta.2",
            "1.0.0-beta.11",
            "1.0.0-rc.1",
            "1.0.0"
        ])
    );
}

// These versions are letter releases, patches, service packs and builds. Vendors mean the opposite order.
#[test]
fn letters_behind_a_number_make_a_version_less(rt: HostRuntime) {
    assert!(rt; rise(&["1.1.1k", "1.1.1l", "1.1.1"]));
    assert!(rt; rise(&["0.9.8z", "0.9.8za", "0.9.8"]));
    assert!(rt; rise(&["4.2.8p15", "4.2.8", "5.5sp1", "5.5", "8u202", "8"]));
    assert!(rt; rise(&["9.11.3-s1", "9.11.3", "9.11.3-1"]));
}
