// Members of records, and the faults of records.
ghost use Rattle.std.specs.Prelude.{◌≡◌};
ghost use Rattle.cpe_records.specs.Keys.{key_of};
ghost use Rattle.cpe_records.specs.declared.member.RecordFault.TheVariants as fault;

use cpe_rows::{Attribute, Memory};

/// A member of a record.
#[derive(Debug, Clone, Copy, PartialEq, Eq)]
pub enum Member {
    /// The kind of the record: what it does or asks for.
    Do,
    /// The format of the record.
    V,
    /// A name.
    Name,
    /// The title of an entry or a statement, for people.
    Title,
    /// The provenance of an entry: who submitted it, by which authority, and its changes.
    Provenance,
    /// The kind of a deprecation.
    Kind,
    /// The names that replace the name of a deprecated entry.
    Successors,
    /// The date of a change of an entry.
    Date,
    /// A comment on the change.
    Comment,
    /// The id of a statement or of a check.
    Id,
    /// The mode of a statement: how its facts are compared with items.
    Mode,
    /// The test of a statement.
    Test,
    /// The system of a check.
    System,
    /// The href of a check: where its document is.
    Href,
    /// The result of a check.
    Result,
    /// Whether a search finds only active entries.
    Active,
}

/// The spot of a name: where a record has it. Successors and facts are counted from 1.
#[derive(Debug, Clone, Copy, PartialEq, Eq)]
pub enum NameSpot {
    /// The member `name`.
    Name,
    /// A successor, by its place in the array, from 1.
    Successor(u32),
    /// A fact, by its place among the facts of the whole test, in the order of the arrays, from 1.
    Fact(u32),
}

/// Why a value is no name, although it has the form of a name.
#[derive(Debug, Clone, Copy, PartialEq, Eq)]
pub(crate) enum NotName {
    /// The text is no name; the number is the place of the refusal, as in [`UriFault::At`](cpe_uri::UriFault::At).
    At(usize),
    /// The object is no name; the attribute is the first, in their order, whose member is no component of a value that
    /// it may have.
    Attribute(Attribute),
}

/// Why a line is no record: the first cause.
#[derive(Debug, Clone, Copy, PartialEq, Eq)]
pub enum RecordFault {
    /// The line is no JSON value.
    Json,
    /// This member has not its form, or is absent and has no default.
    Member(Member),
    /// The text at this spot is no name; the number is the place of the refusal, as in
    /// [`UriFault::At`](cpe_uri::UriFault::At).
    Name(NameSpot, usize),
    /// The object at this spot is no name; the attribute is the first, in their order, without a value that it may
    /// have.
    Attribute(NameSpot, Attribute),
    /// A test has more than 32 levels.
    TooDeep,
    /// Memory ran out.
    Memory,
}

impl Member {
    /// The key of the member in a record.
    pub fn key(self) -> &'static str
        ensures { result.now ≡ key_of self }
    {
        match self {
            Member::Do => "do",
            Member::V => "v",
            Member::Name => "name",
            Member::Title => "title",
            Member::Provenance => "provenance",
            Member::Kind => "kind",
            Member::Successors => "successors",
            Member::Date => "date",
            Member::Comment => "comment",
            Member::Id => "id",
            Member::Mode => "mode",
            Member::Test => "test",
            Member::System => "system",
            Member::Href => "href",
            Member::Result => "result",
            Member::Active => "active",
        }
    }
}

impl From<Memory> for RecordFault {
    ghost from_gives = { λ _ e. e ≡ fault.Memory };

    fn from(_error: Memory) -> RecordFault {
        RecordFault::Memory
    }
}
