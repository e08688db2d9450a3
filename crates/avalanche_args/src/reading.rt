//! The reader of the words of a command line.
ghost use Rattle.std.specs.Prelude.{◌≡◌, IfOk};
ghost use Rattle.avalanche_args.specs.CommandOf.{IfUsage, command_of};
ghost use Rattle.avalanche_args.specs.Ranges.{IsInRange};

use crate::command::{Command, CommandName};
use crate::judging::judged;
use crate::parsing::parsed;
use crate::{ArgsError, WordClass};
use linear_spec::Words;

/// The command of the words after the program's name, with its options.
///
/// An option is written `--name value` or `--name=value`, in any order and at most once. A number is written in ASCII digits
/// alone. Each list of words has one command or one class of error, which is the answer unless memory is wanted.
pub fn read_words(words: &Words) -> Result<Command, ArgsError>
    ensures ok { IfOk result (λ command. command_of words.now ≡ Ok command) }
    ensures in_range { IfOk result IsInRange }
    ensures usage { IfUsage result (λ class. command_of words.now ≡ Err class) }
{
    let Some(first) = words.get(0) else {
        return Err(ArgsError::Usage(WordClass::NoCommand));
    };
    let Some(command) = CommandName::named(first) else {
        return Err(ArgsError::Usage(WordClass::UnknownCommand));
    };
    let texts = words.texts()?;
    let matches = parsed(*texts.allocator(), command, texts.as_slice())?;
    match judged(command, &matches) {
        Ok(command) => Ok(command),
        Err(class) => Err(ArgsError::Usage(class)),
    }
}
