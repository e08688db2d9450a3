//! The options of a command, as `clap` reads them.
ghost use Rattle.std.specs.Prelude.{◌≡◌, IfOk, map};
ghost use Rattle.clap.specs.Words.{app_of, with_rule};
ghost use Rattle.avalanche_args.specs.Steps.{IsCauseOf, Parses};
ghost use Rattle.avalanche_args.specs.CommandOf.{option_rule, parser_of};

use crate::command::CommandName;
use crate::option::NumberOption;
use crate::{ArgsError, WordClass};
use clap::error::ErrorKind;
use clap::{Arg, ArgMatches, Command, Error};
use gf16::Memory;
use std::alloc::Global;

/// The options that the words give, of which the first is the command's name.
pub(crate) fn parsed<'a>(
    alloc: Global,
    command: CommandName,
    words: &'a [&'a str],
) -> Result<ArgMatches<'a>, ArgsError>
    ensures { Parses command (map (λ word. word.now) words.now) result }
{
    let parser = parser_for(alloc, command)?;
    match parser.try_get_matches_from(words) {
        Ok(matches) => Ok(matches),
        Err(error) => Err(cause_of(error)),
    }
}

/// What reads the options of a command: no word asks for help.
fn parser_for<'a>(alloc: Global, command: CommandName) -> Result<Command<'a>, Memory>
    ensures { IfOk result (λ parser. app_of parser ≡ parser_of command) }
{
    let mut parser = Command::new(alloc, command.text()).disable_help_flag(true);
    let options = command.options();
    for option in options {
        parser = with_option(alloc, parser, *option)?;
    }
    Ok(parser)
}

fn with_option<'a>(
    alloc: Global,
    parser: Command<'a>,
    option: NumberOption,
) -> Result<Command<'a>, Memory>
    ensures { IfOk result (λ more. app_of more ≡ with_rule (app_of parser.entry) (option_rule option)) }
{
    let name = option.name.text();
    let more = parser.arg(Arg::new(alloc, name).long(name))?;
    Ok(more)
}

fn cause_of(error: Error) -> ArgsError
    ensures { IsCauseOf error result }
{
    match error.kind() {
        ErrorKind::OutOfMemory => ArgsError::Memory,
        _ => ArgsError::Usage(WordClass::BadWords),
    }
}
