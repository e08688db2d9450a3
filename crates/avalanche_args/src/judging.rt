//! The values of the options that were given, and the first of them that is wrong.
ghost use Rattle.std.specs.Prelude.{◌≡◌, ◌<◌, ◌≤◌, ◌^◌, IfOk};
ghost use Rattle.clap.specs.Words.{found_of, rows_of};
ghost use Rattle.avalanche_args.specs.CommandOf.{judged_as, text_given};
ghost use Rattle.avalanche_args.specs.Ranges.{IsInRange, IsWithin};
ghost use Rattle.avalanche_args.specs.Steps.{IsJudged, IsNumberIn};
ghost use Rattle.avalanche_args.specs.declared.command.CommandName.TheVariants as name;

use crate::WordClass;
use crate::command::{Command, CommandName, FetchWords, RelayWords, SeedWords};
use crate::option::{
    BARE, BLOCK, BLOCKS, CHECKS, KEY, LINK, NumberOption, PEER, RECEIVERS, RELAY_CODED, SEED_CODED,
};
use clap::ArgMatches;

/// The command with the values of its options, or the class of the first value that is wrong.
pub(crate) fn judged(command: CommandName, matches: &ArgMatches<'_>) -> Result<Command, WordClass>
    ensures value { result ≡ judged_as command (rows_of (found_of matches.now)) }
    ensures in_range { IfOk result IsInRange }
{
    match command {
        CommandName::Seed => seed(matches),
        CommandName::Fetch => fetch(matches),
        CommandName::Relay => relay(matches),
    }
}

fn seed(matches: &ArgMatches<'_>) -> Result<Command, WordClass>
    ensures value { result ≡ judged_as name.Seed (rows_of (found_of matches.now)) }
    ensures in_range { IfOk result IsInRange }
{
    let k = number(matches, BLOCKS)?;
    let block = number(matches, BLOCK)?;
    let checks = number(matches, CHECKS)?;
    let key = number(matches, KEY)?;
    let peer = number(matches, PEER)?;
    let coded = number(matches, SEED_CODED)?;
    let bare = number(matches, BARE)?;
    Ok(Command::Seed(SeedWords {
        k: k as u16,
        block: block as u16,
        checks: checks as u8,
        key,
        peer: peer as u16,
        coded: coded as u32,
        bare: bare == 1,
    }))
}

fn fetch(matches: &ArgMatches<'_>) -> Result<Command, WordClass>
    ensures value { result ≡ judged_as name.Fetch (rows_of (found_of matches.now)) }
    ensures in_range { IfOk result IsInRange }
{
    let receivers = number(matches, RECEIVERS)?;
    Ok(Command::Fetch(FetchWords {
        receivers: receivers as u32,
    }))
}

fn relay(matches: &ArgMatches<'_>) -> Result<Command, WordClass>
    ensures value { result ≡ judged_as name.Relay (rows_of (found_of matches.now)) }
    ensures in_range { IfOk result IsInRange }
{
    let key = number(matches, KEY)?;
    let coded = number(matches, RELAY_CODED)?;
    let link = number(matches, LINK)?;
    let receivers = number(matches, RECEIVERS)?;
    Ok(Command::Relay(RelayWords {
        receivers: receivers as u32,
        key,
        link: link as u32,
        coded: coded as u32,
    }))
}

/// The number that is given for an option, or else its default.
fn number(matches: &ArgMatches<'_>, option: NumberOption) -> Result<u64, WordClass>
    requires default { IsWithin option option.default }
    requires fits { option.most < 2 ^ 64 }
    ensures judged { IsJudged option (text_given option (rows_of (found_of matches.now))) result }
    ensures within { IfOk result (IsWithin option) }
{
    match matches.get_str(option.name.text()) {
        Some(text) => number_of_text(option, text),
        None => Ok(option.default),
    }
}

fn number_of_text(option: NumberOption, text: &str) -> Result<u64, WordClass>
    requires { option.most < 2 ^ 64 }
    ensures judged { IsJudged option (Some text.now) result }
    ensures within { IfOk result (IsWithin option) }
{
    match number_in(text) {
        Some(number) if option.takes(number) => Ok(number),
        _ => Err(WordClass::BadNumber(option.name)),
    }
}

/// The number that one or more ASCII digits write, where it is below 2^64.
fn number_in(text: &str) -> Option<u64>
    ensures { IsNumberIn text.now result }
{
    let Some(first) = text.as_bytes().first() else {
        return None;
    };
    if *first == b'+' {
        return None;
    }
    text.parse::<u64>().ok()
}
