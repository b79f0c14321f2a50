// An engine can be used after memory ran out. The record at which memory ran out leaves the rows unchanged. If this
// record is read once more, it is read as if nothing had happened. The test also passes if memory never runs out;
// `tests/refused-memory.py` refuses each allocation in turn. The tested code is in functions without clauses.
ghost use Rattle.std.specs.Prelude.{◌≡◌, ◌<◌};

use cpe_rows::{Counts, Truth};
use drill_lines::{Drilled, Engine, Steps};
use std::alloc::Global;
use std::marker::Brand;
use std::sync::ledger::{Blank, Ledger};

// A record, and the verdicts of all statements after it. The verdicts are in the order of the statements.
struct Said(&'static [u8], &'static [u8]);

// Three statements, two of them in mode follow, and a name that is deprecated, amended and restored.
const FOLLOWED: [Said; 20] = [
    Said(
        br#"{"do":"entry","name":"cpe:/a:v:the_old_product_name","title":"A product","provenance":{"submitter":"whoever","changes":[{"kind":"ORIGINAL_RECORD","date":"2023-05-01"}]}}"#,
        b"",
    ),
    Said(
        br#"{"do":"entry","name":"cpe:/a:v:the_new_product_name"}"#,
        b"",
    ),
    Said(br#"{"do":"entry","name":"cpe:/a:v:mid"}"#, b""),
    Said(br#"{"do":"entry","name":"cpe:/a:v:far"}"#, b""),
    Said(
        br#"{"do":"item","name":"cpe:/a:v:the_new_product_name:1"}"#,
        b"",
    ),
    Said(
        br#"{"do":"statement","id":"f","mode":"follow","test":{"op":"OR","of":[{"fact":"cpe:/a:v:the_old_product_name"}]}}"#,
        b"F",
    ),
    Said(
        br#"{"do":"statement","id":"p","test":{"op":"AND","of":[{"fact":"cpe:/a:v:the_new_product_name"},{"op":"OR","negate":true,"of":[{"check":{"system":"x","href":"y","id":"z"}}]}]}}"#,
        b"FU",
    ),
    Said(
        br#"{"do":"statement","id":"q","mode":"follow","test":{"op":"OR","of":[{"fact":"cpe:/a:v:mid"},{"check":{"system":"x","href":"y","id":"z"}}]}}"#,
        b"FUU",
    ),
    Said(
        br#"{"do":"check","system":"x","href":"y","id":"z","result":"TRUE"}"#,
        b"FFT",
    ),
    Said(
        br#"{"do":"deprecate","name":"cpe:/a:v:the_old_product_name","kind":"NAME_CORRECTION","successors":["cpe:/a:v:the_new_product_name"],"date":"2024-01-01","comment":"as its vendor names it now"}"#,
        b"TFT",
    ),
    Said(
        br#"{"do":"amend","name":"cpe:/a:v:the_old_product_name","kind":"ADDITIONAL_INFORMATION","successors":["cpe:/a:v:mid","cpe:/a:v:far"],"date":"2024-01-02"}"#,
        b"FFT",
    ),
    Said(
        br#"{"do":"chain","name":"cpe:/a:v:the_old_product_name"}"#,
        b"FFT",
    ),
    Said(br#"{"do":"item","name":"cpe:/a:v:far:2"}"#, b"TFT"),
    Said(
        br#"{"do":"restore","name":"cpe:/a:v:the_old_product_name","date":"2024-01-03"}"#,
        b"FFT",
    ),
    Said(
        br#"{"do":"item","name":"cpe:/a:v:the_old_product_name"}"#,
        b"TFT",
    ),
    Said(
        br#"{"do":"deprecate","name":"cpe:/a:v:the_old_product_name","kind":"NAME_CORRECTION","successors":["cpe:/a:v:mid"],"date":"2024-01-04"}"#,
        b"TFT",
    ),
    Said(
        br#"{"do":"check","system":"x","href":"y","id":"z","result":"FALSE"}"#,
        b"TTT",
    ),
    Said(
        br#"{"do":"drop-item","name":"cpe:/a:v:the_old_product_name"}"#,
        b"FTF",
    ),
    Said(
        br#"{"do":"drop-item","name":"cpe:/a:v:the_old_product_name"}"#,
        b"FTF",
    ),
    Said(
        br#"{"do":"drop-check","system":"x","href":"y","id":"z"}"#,
        b"FUU",
    ),
];

// Questions of each kind, and edits that are refused.
const ASKED: [Said; 10] = [
    Said(br#"{"do":"search","name":"cpe:/a:v"}"#, b"FUU"),
    Said(
        br#"{"do":"search","name":"cpe:/a:v","active":true}"#,
        b"FUU",
    ),
    Said(br#"{"do":"items","name":"cpe:/a"}"#, b"FUU"),
    Said(
        br#"{"do":"lookup","name":"cpe:/a:v:the_old_product_name"}"#,
        b"FUU",
    ),
    Said(
        br#"{"do":"show","name":"cpe:/a:v:the_old_product_name"}"#,
        b"FUU",
    ),
    Said(br#"{"do":"verdict","id":"q"}"#, b"FUU"),
    Said(
        br#"{"do":"deprecate","name":"cpe:/a:v:mid","kind":"NAME_CORRECTION","successors":["cpe:/a:v:the_old_product_name"],"date":"2024-01-05"}"#,
        b"FUU",
    ),
    Said(
        br#"{"do":"entry","name":"cpe:/a:v:the_new_product_name"}"#,
        b"FUU",
    ),
    Said(
        br#"{"do":"statement","id":"f","test":{"op":"OR","of":[{"fact":"cpe:/a"}]}}"#,
        b"FUU",
    ),
    Said(
        br#"{"do":"lookup","name":"cpe:/a:v:another_product_name"}"#,
        b"FUU",
    ),
];

// Records that remove rows, and add others meanwhile.
const DROPPED: [Said; 17] = [
    Said(br#"{"do":"drop-statement","id":"f"}"#, b"UU"),
    Said(br#"{"do":"drop-statement","id":"f"}"#, b"UU"),
    Said(br#"{"do":"item","name":"cpe:/a:v:mid:3"}"#, b"UT"),
    Said(
        br#"{"do":"deprecate","name":"cpe:/a:v:mid","kind":"NAME_CORRECTION","successors":["cpe:/a:v:far"],"date":"2024-01-06"}"#,
        b"UT",
    ),
    Said(br#"{"do":"drop-item","name":"cpe:/a:v:far:2"}"#, b"UU"),
    Said(
        br#"{"do":"restore","name":"cpe:/a:v:mid","date":"2024-01-07"}"#,
        b"UT",
    ),
    Said(
        br#"{"do":"statement","id":"r","test":{"op":"OR","of":[{"fact":"cpe:/a:v"},{"fact":"cpe:/a:v:m%02"}]}}"#,
        b"UTT",
    ),
    Said(
        br#"{"do":"drop-item","name":"cpe:/a:v:the_new_product_name:1"}"#,
        b"FTT",
    ),
    Said(br#"{"do":"drop-item","name":"cpe:/a:v:mid:3"}"#, b"FUF"),
    Said(
        br#"{"do":"check","system":"x","href":"y","id":"z","result":"ERROR"}"#,
        b"FEF",
    ),
    Said(br#"{"do":"drop-statement","id":"q"}"#, b"FF"),
    Said(br#"{"do":"verdict","id":"q"}"#, b"FF"),
    Said(br#"{"do":"verdict","id":"r"}"#, b"FF"),
    Said(
        br#"{"do":"chain","name":"cpe:/a:v:the_old_product_name"}"#,
        b"FF",
    ),
    Said(br#"{"do":"items","name":"cpe:/a"}"#, b"FF"),
    Said(br#"{"do":"search","name":"cpe:/a:v:m%02"}"#, b"FF"),
    Said(br#"{"do":"verdict","id":"p"}"#, b"FF"),
];

// The counts of the rows after all records.
const LEFT: Counts = Counts {
    entries: 4,
    deprecated: 1,
    items: 0,
    statements: 2,
    facts: 3,
    checks: 1,
    weight: 1120,
};

fn letter_of(truth: Truth) -> u8 {
    match truth {
        Truth::True => b'T',
        Truth::False => b'F',
        Truth::Error => b'E',
        Truth::Unknown => b'U',
    }
}

fn is_verdict_at(engine: &Engine, place: usize, letter: u8) -> bool {
    match engine.statement_at(place) {
        Some((_, truth)) => letter_of(truth) == letter,
        None => false,
    }
}

fn are_verdicts(engine: &Engine, letters: &[u8]) -> bool {
    for (place, letter) in letters.iter().enumerate() {
        if !is_verdict_at(engine, place, *letter) {
            return false;
        }
    }
    engine.statements_len() == letters.len()
}

fn counts_of(engine: &Engine) -> Counts {
    engine.counts()
}

// Whether a text is read at the first attempt, or else at the second. If memory runs out, the counts of the rows are
// unchanged. The comparison takes no memory. (All tests read through this function, because the proof of a function
// that calls `read` is slow.)
fn reads_again<L: Ledger>(
    alloc: Global,
    drilled: &mut Drilled,
    text: &[u8],
    steps: &mut Steps<L>,
) -> bool {
    let before = counts_of(&drilled.engine);
    for _ in 0..2 {
        if drilled.read(alloc, text, steps).is_ok() {
            return true;
        }
        if counts_of(&drilled.engine) != before {
            return false;
        }
    }
    false
}

fn reads_all<L: Ledger>(
    alloc: Global,
    drilled: &mut Drilled,
    all: &[Said],
    steps: &mut Steps<L>,
) -> bool {
    for Said(text, verdicts) in all {
        if !reads_again(alloc, drilled, text, steps) || !are_verdicts(&drilled.engine, verdicts) {
            return false;
        }
    }
    true
}

// Whether five records were refused in all, the searches found eight entries, and the counts of the rows are right.
fn is_reported(drilled: &Drilled) -> bool {
    drilled.refused == 5 && drilled.found == 8 && counts_of(&drilled.engine) == LEFT
}

// (The engine is not dropped. Otherwise the drop of all that it owns would be proved here again.)
fn continues_over<L: Ledger>(alloc: Global, blank: Blank) -> bool
    requires name { blank.name ≡ L.name }
    requires parts { blank.parts ≡ L.parts }
    requires some { 0 < blank.parts }
{
    let mut drilled = Drilled::new(Engine::new(alloc));
    let mut steps = Steps::<L>::new(blank);
    let is_continued = reads_all(alloc, &mut drilled, &FOLLOWED, &mut steps)
        && reads_all(alloc, &mut drilled, &ASKED, &mut steps)
        && reads_all(alloc, &mut drilled, &DROPPED, &mut steps)
        && is_reported(&drilled);
    drilled.into_engine().leave();
    is_continued
}

fn is_continued(alloc: Global) -> bool {
    continues_over::<Brand>(alloc, Blank::new(1))
}

#[test]
fn an_engine_continues_after_memory_ran_out(rt: HostRuntime) {
    assert!(rt; is_continued(rt.alloc()));
}
