use std::alloc::Global;
use std::process::Abort;
use toml_places::{Findings, Place, Sought, Spot, place_at, search};

/// A text whose comments, strings and values hold what looks like headers and keys.
const TEXT: &str = "# \u{e9} [[contract]]\n\
    [[contract]]\n\
    note = \"\"\"\n\
    [[contract]]\n\
    cir = 1\n\
    \"\"\"\n\
    list = [\"]\", { a = \"}\", b = [1, 2] }, # ]\n\
    ]\n\
    [[contract]]\n\
    \"cir\" = 7 # here\n\
    [contract.more]\n\
    cbs = 1\n\
    [[meter]]\n\
    cir = 2\n";

#[test]
fn places_count_lines_and_characters(rt: HostRuntime) {
    let text = "a\u{e9}\nb\u{e9} c".as_bytes();
    assert!(rt; text.len() == 9);
    assert!(rt; place_at(text, 0) == Place { line: 1, column: 1 });
    assert!(rt; place_at(text, 3) == Place { line: 1, column: 3 });
    assert!(rt; place_at(text, 4) == Place { line: 2, column: 1 });
    assert!(rt; place_at(text, 8) == Place { line: 2, column: 4 });
}

/// What is found of a key of an entry of a section.
fn found(rt: &impl Abort, alloc: Global, section: &str, index: usize, name: &str) -> Findings {
    let names = [name];
    let sought = Sought {
        section: Some(section),
        index,
        names: &names,
        is_named: true,
    };
    search(alloc, TEXT, &sought).expect(rt, "a text that is read")
}

#[test]
fn keys_stand_where_toml_reads_them(rt: HostRuntime) {
    // The lines before the second entry have 18, 13, 11, 13, 8, 4, 42 and 2 bytes, and its header has 13.
    let second = found(&rt, rt.alloc(), "contract", 1, "cir");
    assert!(rt; second.entry == Some(111));
    let spot = Spot {
        key: 124,
        value: 132,
        end: 133,
    };
    assert!(rt; second.key == Some(spot));
    let place = place_at(TEXT.as_bytes(), 124);
    assert!(rt;
        place
            == Place {
                line: 10,
                column: 1
            }
    );
}

#[test]
fn keys_that_are_not_said_are_not_found(rt: HostRuntime) {
    assert!(rt; found(&rt, rt.alloc(), "contract", 0, "cir").key.is_none());
    assert!(rt; found(&rt, rt.alloc(), "contract", 1, "cbs").key.is_none());
    assert!(rt; found(&rt, rt.alloc(), "contract", 2, "cir").entry.is_none());
}
