//! `StreamError`.
ghost use Rattle.std.specs.Prelude.{◌≡◌};
ghost use Rattle.example_stream.specs.Errors.{stream_error};

use std::error::Error;
use std::fmt;
use tinyvec_borsh::BorshError;

/// Why the records of a stream were not read to its end.
#[derive(Debug, Clone, Copy, PartialEq, Eq)]
pub enum StreamError {
    /// The stream ends within a record.
    Cut,
    /// A byte other than the tag is where a record begins.
    WrongTag,
    /// A record has more samples than there is room for.
    TooManySamples,
    /// The reader reported a fault.
    Io,
    /// Memory was refused.
    Memory,
}

impl StreamError {
    ghost use Rattle.example_stream.specs.Errors.{stream_error_text};

    /// What the error says.
    pub fn text(&self) -> &'static str
        ensures { result.now ≡ stream_error_text self.now }
    {
        match self {
            StreamError::Cut => "the stream is cut within a record",
            StreamError::WrongTag => "no record begins here",
            StreamError::TooManySamples => "a record has more than eight samples",
            StreamError::Io => "the reader reported a fault",
            StreamError::Memory => "out of memory",
        }
    }
}

impl fmt::Display for StreamError {
    ghost use Rattle.std.specs.Prelude.{Some};
    ghost use Rattle.example_stream.specs.Errors.{stream_error_text};

    ghost output = { λ error. Some (stream_error_text error) };

    fn fmt<W: fmt::Write>(&self, f: &mut fmt::Formatter<W>) -> fmt::Result {
        f.write_str(self.text())
    }
}

impl Error for StreamError {}

impl From<BorshError> for StreamError {
    ghost from_gives = { λ e given. given ≡ stream_error e };

    fn from(error: BorshError) -> StreamError {
        match error {
            BorshError::Ended => StreamError::Cut,
            BorshError::InvalidLength => StreamError::TooManySamples,
            // No field is a text.
            BorshError::InvalidUtf8 => StreamError::WrongTag,
            BorshError::Io => StreamError::Io,
            BorshError::Memory => StreamError::Memory,
        }
    }
}
