//! Plays the card in a file, or on standard input, and prints its answers.
#![tactic(auto)]

mod help;

use anyhow::anyhow;
use help::{HELP, USAGE, VERSION};
use runner::run_card;
use std::alloc::Global;
use std::env;
use std::fs::File;
use std::io::{self, Read, Write};
use std::process::ExitCode;

// One byte more than a card may have, so that a longer one is seen to be longer.
const ENOUGH: u64 = 65_537;

// The status where no card is played: an argument is wrong, or a file cannot be read.
const NOTHING_PLAYED: u8 = 2;

// The bytes of a card.
fn read_card<R: Read + Drop>(heap: Global, reader: R) -> io::Result<Vec<u8>> {
    let mut card = Vec::new(heap);
    reader.take(ENOUGH).read_to_end(&mut card)?;
    Ok(card)
}

// Plays a card that was read from a file with this name, and prints its answers.
fn play(rt: &HostRuntime, name: &str, card: io::Result<Vec<u8>>) -> anyhow::Result<ExitCode> {
    let card = match card {
        Ok(card) => card,
        Err(error) => {
            eprintln!(rt; "valetwren: cannot read {name}: {error}")?;
            return Ok(ExitCode::from(NOTHING_PLAYED));
        }
    };
    let answers = run_card(rt.alloc(), card.as_slice()).map_err(|_| anyhow!(
        "no memory for this card"
    ))?;
    rt.stdout().write_all(answers.as_slice())?;
    Ok(ExitCode::SUCCESS)
}

fn play_input(rt: &HostRuntime) -> anyhow::Result<ExitCode> {
    play(rt, "standard input", read_card(rt.alloc(), rt.stdin()))
}

fn complain(rt: &HostRuntime) -> anyhow::Result<ExitCode> {
    rt.eprintln(USAGE)?;
    Ok(ExitCode::from(NOTHING_PLAYED))
}

fn main(rt: HostRuntime) -> anyhow::Result<ExitCode> {
    let mut words = env::args(&rt)?.skip(1);
    let Some(word) = words.next() else {
        return play_input(&rt);
    };
    if words.next().is_some() {
        return complain(&rt);
    }
    match word.as_str() {
        "-" => play_input(&rt),
        "--help" => {
            rt.print(HELP)?;
            Ok(ExitCode::SUCCESS)
        }
        "--version" => {
            rt.println(VERSION)?;
            Ok(ExitCode::SUCCESS)
        }
        option if option.starts_with('-') => complain(&rt),
        name => {
            let card = match File::open(&rt, name) {
                Ok(file) => read_card(rt.alloc(), file),
                Err(error) => Err(error),
            };
            play(&rt, name, card)
        }
    }
}
