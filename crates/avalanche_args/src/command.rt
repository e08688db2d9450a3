//! Commands and the values of their options, and the names and options of the commands.
ghost use Rattle.std.specs.Prelude.{◌≡◌};
ghost use Rattle.avalanche_args.specs.Options.{command_named, options_of, word_of};

use crate::option::{FETCH_OPTIONS, NumberOption, RELAY_OPTIONS, SEED_OPTIONS};

/// What `seed` is to do: the stream of a file that is cut into generations of `k` blocks of `block` bytes.
#[derive(Clone, Copy, Debug, PartialEq, Eq)]
pub struct SeedWords {
    /// The blocks of a generation, K.
    pub k: u16,
    /// The bytes of a block, B.
    pub block: u16,
    /// The checks of a generation, T.
    pub checks: u8,
    /// The number of the keys: that of the ticket and that of the draws.
    pub key: u64,
    /// The peer that the ticket is for.
    pub peer: u16,
    /// The combinations that are drawn of each generation, C.
    pub coded: u32,
    /// Whether the blocks themselves are left out.
    pub bare: bool,
}

/// What `fetch` is to do: receive the packets of a stream.
#[derive(Clone, Copy, Debug, PartialEq, Eq)]
pub struct FetchWords {
    /// The receivers that the packets are dealt to.
    pub receivers: u32,
}

/// What `relay` is to do: receive the packets of a stream as `fetch` does, and draw combinations of them for a link.
#[derive(Clone, Copy, Debug, PartialEq, Eq)]
pub struct RelayWords {
    /// The receivers that the packets are dealt to.
    pub receivers: u32,
    /// The number of the key that draws use.
    pub key: u64,
    /// The link that draws are for.
    pub link: u32,
    /// The combinations that are drawn of each generation, C.
    pub coded: u32,
}

/// A command with the values of its options.
#[derive(Clone, Copy, Debug, PartialEq, Eq)]
pub enum Command {
    Seed(SeedWords),
    Fetch(FetchWords),
    Relay(RelayWords),
}

/// Which command it is.
#[derive(Clone, Copy)]
pub(crate) enum CommandName {
    Seed,
    Fetch,
    Relay,
}

impl CommandName {
    /// The command of this name.
    pub(crate) fn named(word: &str) -> Option<CommandName>
        ensures { result ≡ command_named word.now }
    {
        if word == "seed" {
            Some(CommandName::Seed)
        } else if word == "fetch" {
            Some(CommandName::Fetch)
        } else if word == "relay" {
            Some(CommandName::Relay)
        } else {
            None
        }
    }

    /// The command's name.
    pub(crate) fn text<'a>(self) -> &'a str
        ensures { result.now ≡ word_of self }
    {
        match self {
            CommandName::Seed => "seed",
            CommandName::Fetch => "fetch",
            CommandName::Relay => "relay",
        }
    }

    /// The command's options, in the order in which they are judged.
    pub(crate) fn options<'a>(self) -> &'a [NumberOption]
        ensures { result.now ≡ options_of self }
    {
        match self {
            CommandName::Seed => SEED_OPTIONS.as_slice(),
            CommandName::Fetch => FETCH_OPTIONS.as_slice(),
            CommandName::Relay => RELAY_OPTIONS.as_slice(),
        }
    }
}
