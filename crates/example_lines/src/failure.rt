//! Why answers end.
ghost use Rattle.std.specs.Prelude.{◌≡◌, ◌↔◌, IsTrue};
ghost use Rattle.std.specs.IoError.{error_kind};
ghost use Rattle.std.specs.declared.io.Error.{Error as IoError};
ghost use Rattle.example_lines.specs.declared.failure.Stop.TheVariants.{Memory, Output};

use std::alloc::AllocError;
use std::io::{self, ErrorKind};
use thiserror::Error;

/// Why a program ends before its input does.
#[derive(Debug, Drop, Error)]
pub enum Failure {
    /// The reader reported a fault.
    #[error("cannot read input: {0}")]
    Input(io::Error),
    /// Memory was refused for a line, or for its answer.
    #[error("cannot answer a line: out of memory")]
    Memory,
    /// `u64::MAX` pieces were read, and none was the end.
    #[error("cannot read input: too long")]
    TooLong,
    /// The writer reported a fault.
    #[error("cannot write output: {0}")]
    Output(io::Error),
}

impl Failure {
    /// Nobody reads the output any more.
    pub fn is_closed_pipe(&self) -> bool
        ensures { IsTrue result
            ↔ ((error : IoError) × (self.now ≡ Failure.Output error) × (error_kind error ≡ ErrorKind.BrokenPipe)) }
    {
        match self {
            Failure::Output(error) => error.kind() == ErrorKind::BrokenPipe,
            _ => false,
        }
    }
}

// Why answers end that no more input is read for.
#[derive(Drop)]
pub(crate) enum Stop {
    Memory,
    Output(io::Error),
}

impl From<AllocError> for Stop {
    ghost from_gives = { λ _ stop. stop ≡ Memory };

    fn from(_refused: AllocError) -> Self {
        Stop::Memory
    }
}

impl From<io::Error> for Stop {
    ghost from_gives = { λ error stop. stop ≡ Output error };

    fn from(error: io::Error) -> Self {
        Stop::Output(error)
    }
}
