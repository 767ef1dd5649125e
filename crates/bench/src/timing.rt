//! Timing the calls of a history.
use crate::answer::Answer;
use crate::history::{History, Said};
use crate::stand::{Line, Opening, Stand};
use crate::turns::Turns;
use crate::watch::Watch;
use anyhow::anyhow;
use jobs::call::{Call, Query};
use keys::key_kind::KeyKind;
use runs::fresh::Fresh;
use scripts::command::{Command, Question};
use sheets::hidden_set::HiddenSet;
use sheets::sound::{MOST_TABLES, is_sound};
use standard::standard::{Settings, Standard};
use std::time::Instant;
use strategies::snapshot::Snapshot;
use strategies::strategy::CompactionStrategy;

/// Times each call of a history, on book and sheet as the calls before it leave them.
pub fn time_history<K: KeyKind + Default>(
    rt: &HostRuntime,
    turns: Turns,
    history: History<K>,
) -> anyhow::Result<()> {
    let History {
        places,
        id_places: _,
        tables,
        blob_total,
        outputs,
        calls,
    } = history;
    let Some(blob_total) = blob_total else {
        return Ok(());
    };
    let opening = Opening::new(tables, places, blob_total)?;
    time_calls(rt, turns, &opening, calls, outputs.as_slice())
}

// Times each call.
fn time_calls<K: KeyKind>(
    rt: &HostRuntime,
    turns: Turns,
    opening: &Opening<K>,
    calls: Vec<Said<K>>,
    outputs: &[Fresh<K>],
) -> anyhow::Result<()> {
    // the calls so far that may have changed the book, and the outputs that were used up
    let mut made = Vec::new(rt.alloc());
    let mut used = 0;
    for said in calls {
        let Said {
            words,
            command,
            id_places,
            outputs: given,
        } = said;
        let is_close = matches!(&command, Command::Close(_));
        let outputs = outputs.get(used..given).unwrap_or(&[]);
        let Some(call) = call_of(command, outputs) else {
            continue;
        };
        let line = Line {
            words,
            call,
            id_places,
        };
        time_line(rt, turns, opening, made.as_slice(), &line)?;
        if is_close {
            used = given;
        }
        if line.changes() {
            made.push(line)?;
        }
    }
    Ok(())
}

// The call that a line says, with the outputs that a close uses up.
fn call_of<'a, K: KeyKind>(
    command: Command<K>,
    outputs: &'a [Fresh<K>],
) -> Option<Call<'a, K, Settings<K>>> {
    match command {
        Command::Land(table) => Some(Call::Land(table)),
        Command::Propose(question) => Some(Call::Propose(query(question))),
        Command::LookAhead(question) => Some(Call::LookAhead(query(question))),
        Command::Book(question) => Some(Call::Book(query(question))),
        Command::Close(ticket) => Some(Call::Close { ticket, outputs }),
        Command::GiveUp(ticket) => Some(Call::GiveUp(ticket)),
        _ => None,
    }
}

// A question as a call puts it.
fn query<K>(question: Question<K>) -> Query<Settings<K>> {
    let Question { clock, settings } = question;
    Query { settings, clock }
}

// Times the call of a line, and of a question the test of book and sheet and the strategy apart.
fn time_line<K: KeyKind>(
    rt: &HostRuntime,
    turns: Turns,
    opening: &Opening<K>,
    made: &[Line<'_, K>],
    line: &Line<'_, K>,
) -> anyhow::Result<()> {
    time_call(rt, turns, opening, made, line)?;
    if let Call::Propose(query) = &line.call {
        let stand = opening.after(rt.alloc(), made)?;
        let test = format!(in rt.alloc(); "{}, test alone", line.words)?;
        time_test(rt, turns, &stand, test.as_str())?;
        let choose = format!(in rt.alloc(); "{}, choose alone", line.words)?;
        time_alone(
            rt,
            turns,
            &stand,
            opening.blob_total,
            query,
            choose.as_str(),
        )?;
    }
    Ok(())
}

// Times the test of book and sheet.
fn time_test<K: KeyKind>(
    rt: &HostRuntime,
    turns: Turns,
    stand: &Stand<K>,
    what: &str,
) -> anyhow::Result<()> {
    let mut is_sound = stand.book.is_sound(stand.sheet.as_slice());
    let mut watch = Watch::start(rt, turns)?;
    for _ in 0..u64::MAX {
        if !watch.goes_on(rt)? {
            break;
        }
        let start = Instant::now(rt)?;
        is_sound = stand.book.is_sound(stand.sheet.as_slice());
        watch.note(start.elapsed(rt)?)?;
    }
    watch.print(rt, what, Answer::Tested(is_sound))
}

// Times a call. Where it may change the book, each turn has book and sheet as the calls before leave them.
fn time_call<K: KeyKind>(
    rt: &HostRuntime,
    turns: Turns,
    opening: &Opening<K>,
    made: &[Line<'_, K>],
    line: &Line<'_, K>,
) -> anyhow::Result<()> {
    let mut ids = [0u64; MOST_TABLES];
    let mut stand = opening.after(rt.alloc(), made)?;
    let mut reply = stand.make(line, &mut ids);
    let mut watch = Watch::start(rt, turns)?;
    for _ in 0..u64::MAX {
        if !watch.goes_on(rt)? {
            break;
        }
        if line.changes() {
            stand = opening.after(rt.alloc(), made)?;
        }
        let start = Instant::now(rt)?;
        reply = stand.make(line, &mut ids);
        watch.note(start.elapsed(rt)?)?;
    }
    watch.print(rt, line.words.as_str(), Answer::from(reply))
}

// Times a question without the test of book and sheet.
fn time_alone<K: KeyKind>(
    rt: &HostRuntime,
    turns: Turns,
    stand: &Stand<K>,
    blob_total: u64,
    query: &Query<Settings<K>>,
    what: &str,
) -> anyhow::Result<()> {
    let tables = stand.book.tables(stand.sheet.as_slice());
    let standing = tables.len();
    if !is_sound(tables, standing, blob_total) {
        return Err(anyhow!("the sheet is not sound"));
    }
    let mut hidden_set = HiddenSet::new();
    hidden_set.hide(stand.book.hidden());
    let snapshot = Snapshot {
        tables: &tables[..standing],
        hidden_set: &hidden_set,
        blob_total,
        clock: query.clock,
    };
    time_choose(rt, turns, &query.settings, &snapshot, what)
}

// Times the strategy's own call.
fn time_choose<K: KeyKind>(
    rt: &HostRuntime,
    turns: Turns,
    settings: &Settings<K>,
    snapshot: &Snapshot<'_, K>,
    what: &str,
) -> anyhow::Result<()> {
    let mut ids = [0u64; MOST_TABLES];
    let mut chosen = Standard::choose(settings, snapshot, &mut ids);
    let mut watch = Watch::start(rt, turns)?;
    for _ in 0..u64::MAX {
        if !watch.goes_on(rt)? {
            break;
        }
        let start = Instant::now(rt)?;
        chosen = Standard::choose(settings, snapshot, &mut ids);
        watch.note(start.elapsed(rt)?)?;
    }
    watch.print(rt, what, Answer::from(chosen))
}
