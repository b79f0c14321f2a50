// How a run ended.
ghost use Rattle.std.specs.Prelude.{◌≡◌};
ghost use Rattle.line_session.specs.Statuses.{of_sink_fault, of_line_fault, status_number};

use cpe_io::{LineFault, SinkFault};

/// How a run ended. The number of each status is the exit status of the program.
#[derive(Clone, Copy, Debug, PartialEq, Eq)]
pub enum Status {
    /// The input was read to its end, and no line was refused.
    Done = 0,
    /// The input was read to its end, and a line was refused.
    SomeRefused = 1,
    /// The words of the command line are no command. The usage line was written, and nothing was read.
    Usage = 2,
    /// A read failed. The answers to the whole lines before the fault were written.
    ReadFault = 3,
    /// A write failed. A prefix of the output was written.
    WriteFault = 4,
    /// Memory ran out. A prefix of the output was written.
    Memory = 5,
    /// 2^40 bytes were taken, and the input did not end. The answers to the whole lines among these bytes were written.
    Endless = 6,
}

impl Status {
    /// The exit status of the program.
    pub fn number(self) -> u8
        ensures { result ≡ status_number self }
    {
        self as u8
    }
}

impl From<SinkFault> for Status {
    ghost from_gives = { λ fault status. status ≡ of_sink_fault fault };

    fn from(fault: SinkFault) -> Status {
        match fault {
            SinkFault::Failed => Status::WriteFault,
            SinkFault::Memory => Status::Memory,
        }
    }
}

impl From<LineFault> for Status {
    ghost from_gives = { λ fault status. status ≡ of_line_fault fault };

    fn from(fault: LineFault) -> Status {
        match fault {
            LineFault::Read => Status::ReadFault,
            LineFault::Endless => Status::Endless,
            LineFault::Memory => Status::Memory,
        }
    }
}
