// Members of records, and their faults.
ghost use Rattle.std.specs.Prelude.{◌≡◌};
ghost use Rattle.advise_ranges.specs.Reading.{advice_key_of};
ghost use Rattle.advise_ranges.specs.declared.member.AdviceReadFault.TheVariants as fault;

use cpe_rows::Memory;

/// A member of a record.
#[derive(Debug, Clone, Copy, PartialEq, Eq)]
pub enum AdviceMember {
    /// What the record does or asks for.
    Do,
    /// The id of an advisory.
    Id,
    /// A name.
    Name,
    /// The version at which a range begins.
    Start,
    /// The version at which a range ends.
    End,
    /// Whether the start itself is outside the range.
    StartExcluded,
    /// Whether the end itself is outside the range.
    EndExcluded,
}

/// Why a line is no record: its first fault.
#[derive(Debug, Clone, Copy, PartialEq, Eq)]
pub enum AdviceReadFault {
    /// The line is no JSON value.
    Json,
    /// This member doesn't have its form, or is absent and has no default.
    Member(AdviceMember),
    /// No name has the text of the member `name`. The number is the place of the refusal.
    Name(usize),
    /// Memory ran out.
    Memory,
}

impl AdviceMember {
    /// The key of the member, as it is written in a record.
    pub fn key(self) -> &'static str
        ensures { result.now ≡ advice_key_of self }
    {
        match self {
            AdviceMember::Do => "do",
            AdviceMember::Id => "id",
            AdviceMember::Name => "name",
            AdviceMember::Start => "start",
            AdviceMember::End => "end",
            AdviceMember::StartExcluded => "start-excluded",
            AdviceMember::EndExcluded => "end-excluded",
        }
    }
}

impl From<Memory> for AdviceReadFault {
    ghost from_gives = { λ _ e. e ≡ fault.Memory };

    fn from(_error: Memory) -> AdviceReadFault {
        AdviceReadFault::Memory
    }
}
