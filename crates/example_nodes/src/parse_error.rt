//! What is wrong with a line, and where.
ghost use Rattle.std.specs.Prelude.{◌≡◌, OnOk, IfErr};
ghost use Rattle.example_nodes.specs.Machine.{demanded};
ghost use Rattle.example_nodes.specs.Faults.{IsAt};
ghost use Rattle.example_nodes.specs.declared.parse_error.ParseError.TheVariants.{Syntax, Memory};

use std::alloc::AllocError;

/// What is wrong in a line.
#[derive(Debug, Clone, Copy, PartialEq, Eq)]
pub enum Fault {
    /// A bracket closes here, and none is open.
    NotOpen,
    /// The line ends here, and a bracket is open.
    NotClosed,
    /// As many brackets are open as may be.
    TooDeep,
    /// This byte has no meaning here.
    Byte,
    /// With this digit the number does not fit 64 bits.
    Number,
    /// Here ends a fifth part.
    Full,
}

impl Fault {
    ghost use Rattle.example_nodes.specs.Answer.{fault_text};

    /// What the fault says.
    pub fn text(&self) -> &'static str
        ensures { result.now ≡ fault_text self.now }
    {
        match self {
            Fault::NotOpen => "no list is open",
            Fault::NotClosed => "a list is not closed",
            Fault::TooDeep => "too many lists are open",
            Fault::Byte => "this byte has no meaning",
            Fault::Number => "the number is too large",
            Fault::Full => "a fifth part ends here",
        }
    }
}

/// Why a line has no trees.
#[derive(Debug, Clone, Copy, PartialEq, Eq)]
pub enum ParseError {
    /// The line is wrong in this column, counted from 1. The column after the last byte is the end of the line.
    Syntax { column: usize, fault: Fault },
    /// Memory was refused.
    Memory,
}

impl From<AllocError> for ParseError {
    ghost from_gives = { λ _ error. error ≡ Memory };

    fn from(_refused: AllocError) -> ParseError {
        ParseError::Memory
    }
}

/// The line has this fault in this column, unless something holds.
pub fn demand(holds: bool, column: usize, fault: Fault) -> Result<(), ParseError>
    ensures ok { OnOk result (demanded holds fault ≡ None) }
    ensures err { IfErr result (λ error. IsAt error column (demanded holds fault)) }
{
    if holds {
        return Ok(());
    }
    Err(ParseError::Syntax { column, fault })
}
