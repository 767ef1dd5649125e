//! A script, line after line: each history is timed at its end.
use crate::history::History;
use crate::timing::time_history;
use crate::turns::Turns;
use anyhow::{Context, anyhow};
use keys::byte_key::ByteKey;
use keys::stop_key::StopKey;
use scripts::command::{KeyName, Line, Word};
use std::alloc::Global;
use std::io::{BufRead, BufReader};
use std::mem::replace;
use texts::fault::{Expected, Fault};
use texts::words::Words;

// The history that is read now, by the kind of its keys.
#[derive(Drop)]
enum Script {
    Empty,
    Stops(History<StopKey>),
    Bytes(History<ByteKey>),
}

impl Script {
    // A fresh history of a kind of keys.
    fn start(heap: Global, name: KeyName) -> Script {
        match name {
            KeyName::Stop => Script::Stops(History::new(heap)),
            KeyName::Bytes => Script::Bytes(History::new(heap)),
        }
    }

    // Takes in a line of the history.
    fn read(
        &mut self,
        heap: Global,
        text: &str,
        word: Word,
        words: &mut Words<'_>,
    ) -> Result<(), Fault> {
        match self {
            Script::Empty => Err(Fault::Malformed(Expected::Keys)),
            Script::Stops(history) => history.read(heap, text, word, words),
            Script::Bytes(history) => history.read(heap, text, word, words),
        }
    }

    // Times the history, which has ended.
    fn time(self, rt: &HostRuntime, turns: Turns) -> anyhow::Result<()> {
        match self {
            Script::Empty => Ok(()),
            Script::Stops(history) => time_history(rt, turns, history),
            Script::Bytes(history) => time_history(rt, turns, history),
        }
    }
}

// Takes in a line. Where another history begins, the one before is timed.
fn take_line(
    rt: &HostRuntime,
    turns: Turns,
    script: &mut Script,
    text: &str,
) -> anyhow::Result<()> {
    let heap = rt.alloc();
    match Line::read(text).map_err(told)? {
        Line::Blank => Ok(()),
        Line::Keys(name) => replace(script, Script::start(heap, name)).time(rt, turns),
        Line::Call(word, mut words) => script.read(heap, text, word, &mut words).map_err(told),
    }
}

// Why a line was not taken in, in words.
fn told(fault: Fault) -> anyhow::Error {
    anyhow!("{fault}")
}

/// Times the script on standard input.
pub fn time_input(rt: &HostRuntime, turns: Turns) -> anyhow::Result<()> {
    let heap = rt.alloc();
    let input = BufReader::new(heap, rt.stdin())?;
    let mut script = Script::Empty;
    for (line, text) in (1..u64::MAX).zip(input.lines(heap)) {
        take_line(rt, turns, &mut script, text?.as_str()).context(format_args!("line {line}"))?;
    }
    script.time(rt, turns)
}
