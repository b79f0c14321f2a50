// The kinds of records.
ghost use Rattle.std.specs.Prelude.{◌≡◌};
ghost use Rattle.cpe_records.specs.RecordKinds.{record_word, record_kind_of};

/// The kind of a record: what it does or asks for. The member `do` has its word.
#[derive(Clone, Copy)]
pub enum RecordKind {
    /// Adds an entry.
    Entry,
    /// Deprecates an active entry.
    Deprecate,
    /// Replaces the deprecation of an entry.
    Amend,
    /// Removes the deprecation of an entry.
    Restore,
    /// Adds an item.
    Item,
    /// Removes an item.
    DropItem,
    /// Adds a statement.
    Statement,
    /// Removes a statement.
    DropStatement,
    /// Keeps the result of a check.
    Check,
    /// Removes the result of a check.
    DropCheck,
    /// Asks whether a name has an entry.
    Lookup,
    /// Asks for the entries that a name covers.
    Search,
    /// Asks for the items that a name covers.
    Items,
    /// Asks for the chain of an entry: its successors, their successors, and so on.
    Chain,
    /// Asks for an entry with all its parts.
    Show,
    /// Asks for the verdict of a statement.
    Verdict,
}

impl RecordKind {
    /// The word of the kind in a record.
    pub fn word(self) -> &'static str
        ensures { result.now ≡ record_word self }
    {
        match self {
            RecordKind::Entry => "entry",
            RecordKind::Deprecate => "deprecate",
            RecordKind::Amend => "amend",
            RecordKind::Restore => "restore",
            RecordKind::Item => "item",
            RecordKind::DropItem => "drop-item",
            RecordKind::Statement => "statement",
            RecordKind::DropStatement => "drop-statement",
            RecordKind::Check => "check",
            RecordKind::DropCheck => "drop-check",
            RecordKind::Lookup => "lookup",
            RecordKind::Search => "search",
            RecordKind::Items => "items",
            RecordKind::Chain => "chain",
            RecordKind::Show => "show",
            RecordKind::Verdict => "verdict",
        }
    }
}

/// The kind that has this word, if there is one. Allocates: no.
pub(crate) fn record_kind_of(text: &str) -> Option<RecordKind>
    ensures { result ≡ record_kind_of text.now }
{
    let kinds = [
        RecordKind::Entry,
        RecordKind::Deprecate,
        RecordKind::Amend,
        RecordKind::Restore,
        RecordKind::Item,
        RecordKind::DropItem,
        RecordKind::Statement,
        RecordKind::DropStatement,
        RecordKind::Check,
        RecordKind::DropCheck,
        RecordKind::Lookup,
        RecordKind::Search,
        RecordKind::Items,
        RecordKind::Chain,
        RecordKind::Show,
        RecordKind::Verdict,
    ];
    kinds.iter().copied().find(|kind| kind.word() == text)
}
