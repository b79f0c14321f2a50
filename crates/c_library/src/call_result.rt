// The result of a call.
ghost use Rattle.std.specs.Prelude.{◌≡◌};
ghost use Rattle.c_library.specs.CallResults.{call_code, in_c, call_number};

/// The result of a call.
#[derive(Clone, Copy)]
pub(crate) enum CallResult {
    /// The call was done. The number is the length of the text that was written, or another number that the call
    /// defines.
    Done(usize),
    /// The text is longer than the buffer, and nothing was written. The number is the length of the text.
    Short(usize),
    /// The text is refused, or the first of two texts. The number is the place of the refusal, or 0 if the refusal
    /// has no place.
    Refused(usize),
    /// The second of two texts is refused. The number is the place of the refusal.
    TargetRefused(usize),
    /// Memory ran out.
    Memory,
    /// The words name no command that answers lines.
    NoCommand,
    /// The line has a newline.
    NotALine,
    /// The session ended before, or memory ran out in it before.
    Over,
}

/// The result of a call as C gets it: a code and a number.
#[repr(C)]
#[derive(Clone, Copy)]
pub struct Answer {
    /// The code of the case.
    pub code: u32,
    /// The number of the case, or 0 if the case has no number.
    pub number: usize,
}

impl CallResult {
    /// The result as C gets it.
    pub(crate) fn in_c(self) -> Answer
        ensures { result ≡ in_c self }
    {
        Answer {
            code: self.code(),
            number: self.number(),
        }
    }

    fn code(self) -> u32
        ensures { result ≡ call_code self }
    {
        match self {
            CallResult::Done(_) => 0,
            CallResult::Short(_) => 1,
            CallResult::Refused(_) => 2,
            CallResult::TargetRefused(_) => 3,
            CallResult::Memory => 4,
            CallResult::NoCommand => 5,
            CallResult::NotALine => 6,
            CallResult::Over => 7,
        }
    }

    fn number(self) -> usize
        ensures { result ≡ call_number self }
    {
        match self {
            CallResult::Done(number)
            | CallResult::Short(number)
            | CallResult::Refused(number)
            | CallResult::TargetRefused(number) => number,
            CallResult::Memory | CallResult::NoCommand | CallResult::NotALine | CallResult::Over =>
                0,
        }
    }
}
