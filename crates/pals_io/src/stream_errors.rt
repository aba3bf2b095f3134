//! The errors of calls.
ghost use Rattle.std.specs.Prelude.{◌≡◌};
ghost use Rattle.pals_io.specs.declared.stream_errors.ReadEnd.TheVariants.{ReadFault, Memory};

use std::alloc::AllocError;
use std::error::Error;
use std::fmt;

/// A failed call of a source or of a sink. The count of failed calls distinguishes its cause.
#[derive(Clone, Copy, Debug, PartialEq)]
pub struct Failed;

/// The reason why the bytes of a source were not all read.
#[derive(Clone, Copy, Debug, PartialEq)]
pub enum ReadEnd {
    /// A call of the source failed.
    ReadFault,
    /// The source has more bytes than the caller allows.
    TooLong,
    /// Out of memory.
    Memory,
}

/// A call of the sink failed, so not all bytes were written.
#[derive(Clone, Copy, Debug)]
pub struct WriteFault;

impl fmt::Display for Failed {
    ghost use Rattle.std.specs.Prelude.{Some, codes};

    ghost output = { λ _. Some (codes "failed call") };

    fn fmt<W: fmt::Write>(&self, f: &mut fmt::Formatter<W>) -> fmt::Result {
        write!(f, "failed call")
    }
}

impl fmt::Display for ReadEnd {
    ghost use Rattle.std.specs.Prelude.{Some};
    ghost use Rattle.pals_io.specs.proof.ReadEndMessages.{message_of};

    ghost output = { λ end'. Some (message_of end') };

    fn fmt<W: fmt::Write>(&self, f: &mut fmt::Formatter<W>) -> fmt::Result {
        match self {
            ReadEnd::ReadFault => write!(f, "read fault"),
            ReadEnd::TooLong => write!(f, "too long"),
            ReadEnd::Memory => write!(f, "out of memory"),
        }
    }
}

impl fmt::Display for WriteFault {
    ghost use Rattle.std.specs.Prelude.{Some, codes};

    ghost output = { λ _. Some (codes "write fault") };

    fn fmt<W: fmt::Write>(&self, f: &mut fmt::Formatter<W>) -> fmt::Result {
        write!(f, "write fault")
    }
}

impl Error for Failed {}

impl Error for ReadEnd {}

impl Error for WriteFault {}

impl From<AllocError> for ReadEnd {
    ghost from_gives = { λ _ e. e ≡ Memory };

    fn from(_: AllocError) -> ReadEnd {
        ReadEnd::Memory
    }
}

impl From<Failed> for ReadEnd {
    ghost from_gives = { λ _ e. e ≡ ReadFault };

    fn from(_: Failed) -> ReadEnd {
        ReadEnd::ReadFault
    }
}

impl From<Failed> for WriteFault {
    fn from(_: Failed) -> WriteFault {
        WriteFault
    }
}
