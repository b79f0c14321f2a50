// Rows as a snapshot has them: the successors of an entry are places in the list of entries.
use cpe_rows::{CheckKey, Kind, List, Provenance, Statement, Text, Truth, Wfn};

/// The deprecation of an entry, with its successors by their places.
#[derive(Debug, Drop)]
pub struct PlacedDeprecation {
    /// The kind of the deprecation.
    pub kind: Kind,
    /// The places of the successors in the list of entries, from 0.
    pub successors: List<u32>,
}

/// An entry of the dictionary. Its deprecation, if there is one, has the successors by their places.
#[derive(Debug, Drop)]
pub struct PlacedEntry {
    /// The entry's name.
    pub name: Wfn,
    /// The entry's title, perhaps empty.
    pub title: Text,
    /// The entry's submitter, authority and notes.
    pub provenance: Provenance,
    /// The entry's deprecation, if there is one.
    pub deprecation: Option<PlacedDeprecation>,
}

/// A check with its kept result.
#[derive(Debug, Drop)]
pub struct KeptResult {
    /// The key of the check: system, href and id.
    pub key: CheckKey,
    /// The check's result.
    pub result: Truth,
}

/// The rows of a dictionary and of an inventory, each list in its order.
#[derive(Debug, Drop)]
pub struct PlacedRows {
    /// The entries of the dictionary.
    pub entries: List<PlacedEntry>,
    /// The items of the inventory.
    pub items: List<Wfn>,
    /// The applicability statements.
    pub statements: List<Statement>,
    /// The kept results of checks.
    pub results: List<KeptResult>,
}
