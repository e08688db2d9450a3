//! Tests of the reader at the words of each command.
use super::*;
use gf16::Memory;
use linear_spec::Words;
use std::alloc::Global;
use std::test::Fail;

// The numbers are those of the table of options in docs/FORMATS.md.

const SEED: SeedWords = SeedWords {
    k: 64,
    block: 1024,
    checks: 2,
    key: 1,
    peer: 1,
    coded: 0,
    bare: false,
};

fn words_of(alloc: Global, line: &str) -> Result<Words, Memory> {
    let mut words = Words::new(alloc);
    for word in line.split_whitespace() {
        words.push(word)?;
    }
    Ok(words)
}

#[test]
fn options_of_seed(rt: HostRuntime) -> Result<(), Fail> {
    let cases = [
        ("seed", SEED),
        ("seed --", SEED),
        ("seed --blocks 1", SeedWords { k: 1, ..SEED }),
        ("seed --blocks=64", SeedWords { k: 64, ..SEED }),
        ("seed --block 2", SeedWords { block: 2, ..SEED }),
        (
            "seed --block 4096",
            SeedWords {
                block: 4096,
                ..SEED
            },
        ),
        ("seed --checks 0", SeedWords { checks: 0, ..SEED }),
        ("seed --checks 8", SeedWords { checks: 8, ..SEED }),
        ("seed --key 0", SeedWords { key: 0, ..SEED }),
        (
            "seed --key 18446744073709551615",
            SeedWords {
                key: u64::MAX,
                ..SEED
            },
        ),
        ("seed --peer 0", SeedWords { peer: 0, ..SEED }),
        ("seed --peer 63", SeedWords { peer: 63, ..SEED }),
    ];
    for (line, expected) in cases {
        let words = words_of(rt.alloc(), line)?;
        assert_eq!(rt; read_words(&words), Ok(Command::Seed(expected)), "{line}");
    }
    Ok(())
}

#[test]
fn packets_that_seed_is_asked_for(rt: HostRuntime) -> Result<(), Fail> {
    let cases = [
        ("seed --coded 0", SEED),
        (
            "seed --coded 1024",
            SeedWords {
                coded: 1024,
                ..SEED
            },
        ),
        ("seed --bare 0", SEED),
        ("seed --bare 001", SeedWords { bare: true, ..SEED }),
        (
            "seed --bare=1 --key 7 --coded=5 --blocks 3",
            SeedWords {
                k: 3,
                key: 7,
                coded: 5,
                bare: true,
                ..SEED
            },
        ),
    ];
    for (line, expected) in cases {
        let words = words_of(rt.alloc(), line)?;
        assert_eq!(rt; read_words(&words), Ok(Command::Seed(expected)), "{line}");
    }
    Ok(())
}

#[test]
fn options_of_fetch(rt: HostRuntime) -> Result<(), Fail> {
    let cases = [
        ("fetch", 2),
        ("fetch --receivers 1", 1),
        ("fetch --receivers=2", 2),
        ("fetch --receivers 02", 2),
        ("fetch --receivers 8", 8),
    ];
    for (line, receivers) in cases {
        let words = words_of(rt.alloc(), line)?;
        let expected = Command::Fetch(FetchWords {
            receivers: receivers,
        });
        assert_eq!(rt; read_words(&words), Ok(expected), "{line}");
    }
    Ok(())
}

// By key, coded, link and receivers.
#[test]
fn options_of_relay(rt: HostRuntime) -> Result<(), Fail> {
    let cases = [
        ("relay", 1, 64, 1, 2),
        ("relay --", 1, 64, 1, 2),
        ("relay --key 0", 0, 64, 1, 2),
        ("relay --key=18446744073709551615", u64::MAX, 64, 1, 2),
        ("relay --coded 0", 1, 0, 1, 2),
        ("relay --coded 64", 1, 64, 1, 2),
        ("relay --coded=1024", 1, 1024, 1, 2),
        ("relay --link 0", 1, 64, 0, 2),
        ("relay --link 65535", 1, 64, 65535, 2),
        ("relay --receivers 1", 1, 64, 1, 1),
        ("relay --receivers 8", 1, 64, 1, 8),
        (
            "relay --receivers 3 --link=007 --coded 10 --key 9",
            9,
            10,
            7,
            3,
        ),
    ];
    for (line, key, coded, link, receivers) in cases {
        let words = words_of(rt.alloc(), line)?;
        let expected = RelayWords {
            receivers,
            key,
            link,
            coded,
        };
        assert_eq!(rt; read_words(&words), Ok(Command::Relay(expected)), "{line}");
    }
    Ok(())
}

#[test]
fn words_that_ask_for_no_command(rt: HostRuntime) -> Result<(), Fail> {
    let cases = [
        ("", WordClass::NoCommand),
        ("bake", WordClass::UnknownCommand),
        ("--help", WordClass::UnknownCommand),
        ("--receivers 2 fetch", WordClass::UnknownCommand),
        ("relays", WordClass::UnknownCommand),
        ("swarm", WordClass::UnknownCommand),
        ("sample", WordClass::UnknownCommand),
        ("seed --help", WordClass::BadWords),
        ("fetch -h", WordClass::BadWords),
        ("fetch --nosuch 1", WordClass::BadWords),
        ("fetch --receivers", WordClass::BadWords),
        ("fetch --receivers 1 --receivers 2", WordClass::BadWords),
        ("fetch --receivers -1", WordClass::BadWords),
        ("fetch --receiver 1", WordClass::BadWords),
        ("fetch 2", WordClass::BadWords),
        ("fetch --blocks 2", WordClass::BadWords),
        ("seed --receivers 2", WordClass::BadWords),
        ("seed --link 1", WordClass::BadWords),
        ("seed --coded 1 --coded 1", WordClass::BadWords),
        ("fetch --coded 1", WordClass::BadWords),
        ("fetch --link 1", WordClass::BadWords),
        ("relay --blocks 1", WordClass::BadWords),
        ("relay --peer 1", WordClass::BadWords),
        ("relay --bare 1", WordClass::BadWords),
        ("relay --help", WordClass::BadWords),
        ("relay --link", WordClass::BadWords),
        ("relay --link 1 --link 1", WordClass::BadWords),
        ("relay --coded 1025 --nosuch 1", WordClass::BadWords),
        ("seed --blocks 0 --nosuch 1", WordClass::BadWords),
    ];
    for (line, class) in cases {
        let words = words_of(rt.alloc(), line)?;
        assert_eq!(rt; read_words(&words), Err(ArgsError::Usage(class)), "{line}");
    }
    Ok(())
}

#[test]
fn values_that_are_wrong(rt: HostRuntime) -> Result<(), Fail> {
    let cases = [
        ("fetch --receivers 0", OptionName::Receivers),
        ("fetch --receivers 9", OptionName::Receivers),
        ("fetch --receivers x", OptionName::Receivers),
        ("fetch --receivers=", OptionName::Receivers),
        ("fetch --receivers=-1", OptionName::Receivers),
        ("fetch --receivers +1", OptionName::Receivers),
        ("fetch --receivers -", OptionName::Receivers),
        ("seed --blocks 0", OptionName::Blocks),
        ("seed --blocks 65", OptionName::Blocks),
        ("seed --block 0", OptionName::Block),
        ("seed --block 1", OptionName::Block),
        ("seed --block 3", OptionName::Block),
        ("seed --block 4097", OptionName::Block),
        ("seed --block 4098", OptionName::Block),
        ("seed --checks 9", OptionName::Checks),
        ("seed --key 18446744073709551616", OptionName::Key),
        ("seed --peer 64", OptionName::Peer),
        ("seed --coded 1025", OptionName::Coded),
        ("seed --bare 2", OptionName::Bare),
        ("seed --bare 2 --block 3", OptionName::Block),
        ("seed --coded 1025 --peer 64", OptionName::Peer),
        ("seed --bare 2 --coded 1025", OptionName::Coded),
        ("relay --key 18446744073709551616", OptionName::Key),
        ("relay --coded 1025", OptionName::Coded),
        ("relay --coded=", OptionName::Coded),
        ("relay --link 65536", OptionName::LinkNumber),
        ("relay --link=-1", OptionName::LinkNumber),
        ("relay --receivers 0", OptionName::Receivers),
        ("relay --receivers 9", OptionName::Receivers),
        ("relay --coded 1025 --key x", OptionName::Key),
        ("relay --link 65536 --coded 1025", OptionName::Coded),
        ("relay --receivers 0 --link 65536", OptionName::LinkNumber),
    ];
    for (line, option) in cases {
        let words = words_of(rt.alloc(), line)?;
        let class = WordClass::BadNumber(option);
        assert_eq!(rt; read_words(&words), Err(ArgsError::Usage(class)), "{line}");
    }
    Ok(())
}
