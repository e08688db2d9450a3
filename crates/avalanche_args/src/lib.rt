//! The words of a command line: which command they ask for, and with which options.
#![tactic(auto)]

mod command;
mod judging;
mod option;
mod parsing;
mod reading;
mod usage;

pub use command::{Command, FetchWords, RelayWords, SeedWords};
pub use option::OptionName;
pub use reading::read_words;
pub use usage::{ArgsError, WordClass};

#[cfg(test)]
mod tests;
