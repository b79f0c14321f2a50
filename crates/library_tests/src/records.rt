// Records that are read from lines. A call of `drop` drops each record. At the end of a scope, the proof would drop
// each of its names in place, value by value, and that is slow.
use cpe_name::Wfn;
use cpe_records::{Record, read_record};
use cpe_rows::{CheckKey, Edit, Entry, Facts, Statement, Truth, evaluate};
use record_writer::write_entry;
use std::alloc::Global;

// ---- an entry

const ENTRY: &str =
    r#"{"title":"A \"B\"\\\n\u00e9\u0001","\u0064o":"entry","name":"cpe:2.3:a:Acme:P\u0031:*:*:*:*:*:*:*:*","x":[{}],"provenance":{"submitter":"acme","authority":"nvd","changes":[{"kind":"ORIGINAL_RECORD","date":"2024-01-02"}]}}"#;

const WRITTEN: &str =
    r#"{"deprecation":null,"name":"cpe:2.3:a:acme:p1:*:*:*:*:*:*:*:*","provenance":{"authority":"nvd","changes":[{"comment":"","date":"2024-01-02","kind":"ORIGINAL_RECORD"}],"submitter":"acme"},"title":"A \"B\"\\\né\u0001"}"#;

fn is_written(alloc: Global, entry: &Entry) -> bool {
    match write_entry(alloc, entry) {
        Ok(written) => written.as_slice() == WRITTEN.as_bytes(),
        Err(_) => false,
    }
}

fn copy_is_written(alloc: Global, entry: &Entry) -> bool {
    match entry.copy(alloc) {
        Ok(copy) => {
            let is_so = is_written(alloc, &copy);
            drop(copy);
            is_so
        }
        Err(_) => false,
    }
}

// ---- a statement, and its truth for facts and results that the test makes up

// The negated AND of a fact and a check. The fact's name covers each name.
const STATEMENT: &str =
    r#"{"do":"statement","id":"s","test":{"op":"AND","negate":true,"of":[{"fact":"cpe:/"},{"check":{"system":"s","href":"h","id":"i"}}]}}"#;

// Each fact is TRUE, and all checks have the same truth.
#[derive(Drop)]
struct Known {
    check: Truth,
}

impl Facts for Known {
    ghost use Rattle.cpe_rows.specs.declared.truth.Truth.TheVariants.{True};

    ghost fact_truth = { λ _ _. True };

    ghost check_truth = { λ known _. known.check };

    fn fact(&self, _name: &Wfn) -> Truth {
        Truth::True
    }

    fn check(&self, _key: &CheckKey) -> Truth {
        self.check
    }
}

fn truth_of(statement: &Statement, check: Truth) -> Truth {
    evaluate(&statement.test, &Known { check })
}

fn copy_denies_both(alloc: Global, statement: &Statement) -> bool {
    match statement.copy(alloc) {
        Ok(copy) => {
            let is_so = truth_of(&copy, Truth::True) == Truth::False
                && truth_of(&copy, Truth::Error) == Truth::Error;
            drop(copy);
            is_so
        }
        Err(_) => false,
    }
}

// ---- the entry and the statement

fn holds(alloc: Global, record: &Record) -> bool {
    match record {
        Record::Edit(Edit::Entry(entry)) => copy_is_written(alloc, entry),
        Record::Edit(Edit::PutStatement(statement)) => copy_denies_both(alloc, statement),
        _ => false,
    }
}

fn holds_of(alloc: Global, line: &str) -> bool {
    match read_record(alloc, line.as_bytes()) {
        Ok(record) => {
            let holds = holds(alloc, &record);
            drop(record);
            holds
        }
        Err(_) => false,
    }
}

#[test]
fn an_entry_is_copied_and_written(rt: HostRuntime) {
    assert!(rt; holds_of(rt.alloc(), ENTRY));
}

#[test]
fn a_statement_is_copied_and_evaluated(rt: HostRuntime) {
    assert!(rt; holds_of(rt.alloc(), STATEMENT));
}
