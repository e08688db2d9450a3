//! The table of options: how each is written, and the numbers that it takes.
ghost use Rattle.std.specs.Prelude.{◌≡◌, IsTrue};
ghost use Rattle.avalanche_args.specs.Options.{takes, text_of};
ghost use Rattle.avalanche_args.specs.Ranges.{IsWithin};

/// An option of some command.
#[derive(Clone, Copy, Debug, PartialEq, Eq)]
pub enum OptionName {
    /// The blocks of a generation, K.
    Blocks,
    /// The bytes of a block, B.
    Block,
    /// The checks of a generation, T.
    Checks,
    /// The number of the key.
    Key,
    /// The peer that the ticket is for.
    Peer,
    /// The combinations that are drawn of each generation.
    Coded,
    /// Whether the blocks themselves are left out.
    Bare,
    /// The link that draws are for.
    LinkNumber,
    /// The threads that receive.
    Receivers,
    /// The threads that send.
    Senders,
    /// The peers of a swarm.
    Peers,
    /// The kind of a swarm's overlay.
    OverlayName,
    /// The links of a peer, where the overlay is regular.
    Degree,
    /// The rounds of a swarm.
    Rounds,
    /// The peer that pollutes.
    Polluter,
    /// The bytes of a sample file.
    Bytes,
    /// Whether a sample file goes through a swarm.
    Through,
}

impl OptionName {
    /// The option as it is written, without its two hyphens.
    pub fn text<'a>(self) -> &'a str
        ensures { result.now ≡ text_of self }
    {
        match self {
            OptionName::Blocks => "blocks",
            OptionName::Block => "block",
            OptionName::Checks => "checks",
            OptionName::Key => "key",
            OptionName::Peer => "peer",
            OptionName::Coded => "coded",
            OptionName::Bare => "bare",
            OptionName::LinkNumber => "link",
            OptionName::Receivers => "receivers",
            OptionName::Senders => "senders",
            OptionName::Peers => "peers",
            OptionName::OverlayName => "overlay",
            OptionName::Degree => "degree",
            OptionName::Rounds => "rounds",
            OptionName::Polluter => "polluter",
            OptionName::Bytes => "bytes",
            OptionName::Through => "through",
        }
    }
}

/// An option of a command whose value is a number from `least` to `most`.
#[derive(Clone, Copy)]
pub(crate) struct NumberOption {
    pub(crate) name: OptionName,
    pub(crate) least: u64,
    pub(crate) most: u64,
    /// Whether only even numbers are taken.
    pub(crate) even: bool,
    /// The number where the option is not given.
    pub(crate) default: u64,
}

impl NumberOption {
    /// Whether the number is one that the option takes.
    #[tactic(auto, unfolding(crate::specs::Options::takes))]
    pub(crate) fn takes(self, number: u64) -> bool
        ensures value { result ≡ takes self number }
        ensures within { IsTrue result → IsWithin self number }
    {
        self.least <= number && number <= self.most && (!self.even || number % 2 == 0)
    }
}

pub(crate) const BLOCKS: NumberOption = NumberOption {
    name: OptionName::Blocks,
    least: 1,
    most: 64,
    even: false,
    default: 64,
};

pub(crate) const BLOCK: NumberOption = NumberOption {
    name: OptionName::Block,
    least: 2,
    most: 4096,
    even: true,
    default: 1024,
};

pub(crate) const CHECKS: NumberOption = NumberOption {
    name: OptionName::Checks,
    least: 0,
    most: 8,
    even: false,
    default: 2,
};

pub(crate) const KEY: NumberOption = NumberOption {
    name: OptionName::Key,
    least: 0,
    most: u64::MAX,
    even: false,
    default: 1,
};

pub(crate) const PEER: NumberOption = NumberOption {
    name: OptionName::Peer,
    least: 0,
    most: 63,
    even: false,
    default: 1,
};

/// The combinations that `seed` draws.
pub(crate) const SEED_CODED: NumberOption = NumberOption {
    name: OptionName::Coded,
    least: 0,
    most: 1024,
    even: false,
    default: 0,
};

/// The combinations that `relay` draws.
pub(crate) const RELAY_CODED: NumberOption = NumberOption {
    name: OptionName::Coded,
    least: 0,
    most: 1024,
    even: false,
    default: 64,
};

pub(crate) const BARE: NumberOption = NumberOption {
    name: OptionName::Bare,
    least: 0,
    most: 1,
    even: false,
    default: 0,
};

pub(crate) const LINK: NumberOption = NumberOption {
    name: OptionName::LinkNumber,
    least: 0,
    most: 65535,
    even: false,
    default: 1,
};

pub(crate) const RECEIVERS: NumberOption = NumberOption {
    name: OptionName::Receivers,
    least: 1,
    most: 8,
    even: false,
    default: 2,
};

/// The options of `seed`, in the order in which they are judged.
pub(crate) static SEED_OPTIONS: [NumberOption; 7] = [
    BLOCKS, BLOCK, CHECKS, KEY, PEER, SEED_CODED, BARE,
];

/// The options of `fetch`.
pub(crate) static FETCH_OPTIONS: [NumberOption; 1] = [RECEIVERS];

/// The options of `relay`, in the order in which they are judged.
pub(crate) static RELAY_OPTIONS: [NumberOption; 4] = [KEY, RELAY_CODED, LINK, RECEIVERS];
