//! Lines that are served as their bytes come.
ghost use Rattle.std.specs.Prelude.{◌≡◌, ◌++◌, ◌+◌, ◌^◌, ◌<◌, ℕ, List, [], length, Err, IfErr, OnOk, OnErr};
ghost use Rattle.store_core.specs.Counts.{opened_in};
ghost use Rattle.store_core.specs.Store.{IsLawful, SameBase};
ghost use Rattle.cmd_tasks.specs.Ids.{stream_of_ids};
ghost use Rattle.api_serve.specs.Shown.{service_of, stage_of};
ghost use Rattle.api_serve.specs.Piece.{fed, TakesLines, StopsAt, TakesLast, StopsLast};

use crate::lines::Lines;
use crate::one::{LineStop, serve_line};
use crate::request::is_hopeless;
use cmd_tasks::{Ids, Trace};
use col_keeper::Keeper;
use outside_io::Clock;
use std::alloc::Global;
use store_core::Store;

/// How a run ended.
#[derive(Clone, Copy, Debug, PartialEq, Eq)]
pub enum RunHow {
    /// The input was read to its end, and every reply was written.
    Done,
    /// A read failed; these are the source's counts of faults round it.
    ReadFault {
        before: u64,
        after: u64,
    },
    /// A write failed, or nothing more was taken; these are the sink's counts of faults round it.
    WriteFault {
        before: u64,
        after: u64,
        nothing: bool,
    },
    /// As many bytes were read as a run reads.
    TooLong,
    /// The line of this number, from 1, isn't of its form.
    WrongLine {
        line: u64,
    },
    NoMemory,
}

/// Why no further line is served.
#[derive(Clone, Copy, Debug, PartialEq, Eq)]
pub enum Stop {
    /// The line of this number, from 1, isn't of its form.
    Wrong { line: u64 },
    NoMemory,
}

/// What stands between two pieces of the input: the bytes that wait for the end of their line, the replies that aren't
/// written yet, the number of lines so far, what their requests' ids are drawn from, and their traces.
#[derive(Drop)]
pub struct Run {
    pub lines: Lines,
    pub out: Vec<u8>,
    pub count: u64,
    pub ids: Ids,
    pub traces: Vec<Trace>,
}

/// The start of a run.
pub fn start(alloc: Global, ids: Ids) -> Run
    ensures { (result.lines ≡ []) × (result.out.items ≡ []) × (result.count ≡ 0) × (result.ids ≡ ids) × (result.traces.items ≡ []) }
{
    Run {
        lines: Lines::new(alloc),
        out: Vec::new(alloc),
        count: 0,
        ids,
        traces: Vec::new(alloc),
    }
}

// Serves the lines that ended.
fn serve_lines<K: Keeper, C: Clock>(
    alloc: Global,
    keyspace: &str,
    session: u64,
    store: &mut Store<K>,
    clock: &mut C,
    run: &mut Run,
) -> Result<(), Stop>
    requires known { session < opened_in store.old.journal }
    requires room { run.old.count + length run.old.lines + 1 < 2 ^ 64 }
    ensures taken { OnOk result (TakesLines (service_of keyspace.now store.old.start session)
        (stage_of store.old.journal (K.failed store.old.keeper) run.old.traces.items (C.times clock.old) (stream_of_ids run.old.ids)) run.old
        (stage_of store.new.journal (K.failed store.new.keeper) run.new.traces.items (C.times clock.new) (stream_of_ids run.new.ids)) run.new) }
    ensures stopped { IfErr result (StopsAt (service_of keyspace.now store.old.start session)
        (stage_of store.old.journal (K.failed store.old.keeper) run.old.traces.items (C.times clock.old) (stream_of_ids run.old.ids)) run.old
        (stage_of store.new.journal (K.failed store.new.keeper) run.new.traces.items (C.times clock.new) (stream_of_ids run.new.ids)) run.new) }
    ensures base { SameBase store.old store.new }
    ensures known { session < opened_in store.new.journal }
    ensures lawful { IsLawful store.new }
{
    store.journal_len();
    'lines: while let Some(len) = run.lines.line_len() {
        run.count += 1;
        let line = run.lines.front(len);
        match serve_line(
            alloc,
            keyspace,
            session,
            line,
            store,
            clock,
            &mut run.ids,
            &mut run.traces,
            &mut run.out,
        ) {
            Ok(()) => run.lines.pass(len),
            Err(LineStop::Wrong) => return Err(Stop::Wrong { line: run.count }),
            Err(LineStop::NoMemory) => return Err(Stop::NoMemory),
        }
    }
    if is_hopeless(run.lines.part()) {
        return Err(Stop::Wrong {
            line: run.count + 1,
        });
    }
    Ok(())
}

/// Takes the next piece of the input, and serves the lines that end in it. A line that can't be right any more ends
/// the run, before its end is read.
pub fn take_piece<K: Keeper, C: Clock>(
    alloc: Global,
    keyspace: &str,
    session: u64,
    piece: &[u8],
    store: &mut Store<K>,
    clock: &mut C,
    run: &mut Run,
) -> Result<(), Stop>
    requires known { session < opened_in store.old.journal }
    requires room { run.old.count + length run.old.lines + length piece.now + 1 < 2 ^ 64 }
    ensures taken { OnOk result (TakesLines (service_of keyspace.now store.old.start session)
        (stage_of store.old.journal (K.failed store.old.keeper) run.old.traces.items (C.times clock.old) (stream_of_ids run.old.ids)) (fed run.old piece.now)
        (stage_of store.new.journal (K.failed store.new.keeper) run.new.traces.items (C.times clock.new) (stream_of_ids run.new.ids)) run.new) }
    ensures stopped { IfErr result (StopsAt (service_of keyspace.now store.old.start session)
        (stage_of store.old.journal (K.failed store.old.keeper) run.old.traces.items (C.times clock.old) (stream_of_ids run.old.ids)) (fed run.old piece.now)
        (stage_of store.new.journal (K.failed store.new.keeper) run.new.traces.items (C.times clock.new) (stream_of_ids run.new.ids)) run.new) }
    ensures base { SameBase store.old store.new }
    ensures known { session < opened_in store.new.journal }
    ensures lawful { IsLawful store.new }
{
    store.journal_len();
    match run.lines.feed(piece) {
        Ok(()) => serve_lines(alloc, keyspace, session, store, clock, run),
        Err(_) => Err(Stop::NoMemory),
    }
}

/// Serves what waits at the input's end, if anything does.
pub fn take_last<K: Keeper, C: Clock>(
    alloc: Global,
    keyspace: &str,
    session: u64,
    store: &mut Store<K>,
    clock: &mut C,
    run: &mut Run,
) -> Result<(), Stop>
    requires known { session < opened_in store.old.journal }
    requires room { run.old.count + 1 < 2 ^ 64 }
    ensures taken { OnOk result (TakesLast (service_of keyspace.now store.old.start session)
        (stage_of store.old.journal (K.failed store.old.keeper) run.old.traces.items (C.times clock.old) (stream_of_ids run.old.ids)) run.old
        (stage_of store.new.journal (K.failed store.new.keeper) run.new.traces.items (C.times clock.new) (stream_of_ids run.new.ids)) run.new) }
    ensures stopped { IfErr result (StopsLast (service_of keyspace.now store.old.start session)
        (stage_of store.old.journal (K.failed store.old.keeper) run.old.traces.items (C.times clock.old) (stream_of_ids run.old.ids)) run.old
        (stage_of store.new.journal (K.failed store.new.keeper) run.new.traces.items (C.times clock.new) (stream_of_ids run.new.ids)) run.new) }
    ensures base { SameBase store.old store.new }
    ensures known { session < opened_in store.new.journal }
    ensures lawful { IsLawful store.new }
{
    store.journal_len();
    let part = run.lines.part();
    if part.is_empty() {
        return Ok(());
    }
    run.count += 1;
    match serve_line(
        alloc,
        keyspace,
        session,
        part,
        store,
        clock,
        &mut run.ids,
        &mut run.traces,
        &mut run.out,
    ) {
        Ok(()) => Ok(()),
        Err(LineStop::Wrong) => Err(Stop::Wrong { line: run.count }),
        Err(LineStop::NoMemory) => Err(Stop::NoMemory),
    }
}
