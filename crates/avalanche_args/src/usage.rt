//! What is wrong with words that ask for no command, and why words were not read.
use crate::OptionName;
use gf16::Memory;

/// What is wrong with words that ask for no command.
#[derive(Clone, Copy, Debug, PartialEq, Eq)]
pub enum WordClass {
    /// There is no word.
    NoCommand,
    /// The first word is no command's name.
    UnknownCommand,
    /// The words after it are not options of the command, each given at most once and with a value.
    BadWords,
    /// The value of this option is no number, or none that the option takes. Of several such options it is the first in
    /// the order of the table.
    BadNumber(OptionName),
    /// The value of this option is none of its choices.
    BadChoice(OptionName),
    /// The value of this option does not go with another's.
    BadPair(OptionName),
}

/// Why words gave no command.
#[derive(Clone, Copy, Debug, PartialEq, Eq)]
pub enum ArgsError {
    /// The words ask for no command.
    Usage(WordClass),
    /// Memory was wanted and refused.
    Memory,
}

impl From<Memory> for ArgsError {
    ghost use Rattle.std.specs.Prelude.{◌≡◌};
    ghost use Rattle.avalanche_args.specs.declared.usage.ArgsError.TheVariants.{Memory as OutOfMemory};

    ghost from_gives = { λ _ error. error ≡ OutOfMemory };

    fn from(_want: Memory) -> ArgsError {
        ArgsError::Memory
    }
}
