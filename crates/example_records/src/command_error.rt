//! `CommandError`.
ghost use Rattle.std.specs.Prelude.{◌≡◌};
ghost use Rattle.example_records.specs.declared.command_error.CommandError.TheVariants.{Memory};

use std::alloc::AllocError;
use std::fmt;

/// Why a command was not carried out. The stream is as it was.
#[derive(Debug, Clone, Copy, PartialEq, Eq)]
pub enum CommandError {
    /// The line is no UTF-8.
    Text,
    /// There is no such command.
    Unknown,
    /// The station is no number that fits a `u32`.
    Station,
    /// The samples are no list of up to eight numbers that fit a `u16`.
    Samples,
    /// What follows is not all pairs of digits in hex.
    Hex,
    /// The length is no number, or is above that of the stream.
    Length,
    /// A command without words is followed by some.
    Words,
    /// Memory was refused.
    Memory,
}

impl CommandError {
    ghost use Rattle.example_records.specs.Errors.{command_error_text};

    /// What the error says.
    pub fn text(&self) -> &'static str
        ensures { result.now ≡ command_error_text self.now }
    {
        match self {
            CommandError::Text => "no text in UTF-8",
            CommandError::Unknown => "no command: add, hex, cut, read and copy are",
            CommandError::Station => "no station",
            CommandError::Samples => "no list of up to eight samples",
            CommandError::Hex => "no bytes in hex",
            CommandError::Length => "no length within the stream",
            CommandError::Words => "no words stand behind read and copy",
            CommandError::Memory => "out of memory",
        }
    }
}

impl fmt::Display for CommandError {
    ghost use Rattle.std.specs.Prelude.{Some};
    ghost use Rattle.example_records.specs.Errors.{command_error_text};

    ghost output = { λ error. Some (command_error_text error) };

    fn fmt<W: fmt::Write>(&self, f: &mut fmt::Formatter<W>) -> fmt::Result {
        f.write_str(self.text())
    }
}

impl From<AllocError> for CommandError {
    ghost from_gives = { λ _ given. given ≡ Memory };

    fn from(_error: AllocError) -> CommandError {
        CommandError::Memory
    }
}
