//! A source whose lines are served, and a sink for their replies.
ghost use Rattle.std.specs.Prelude.{◌≡◌, ◌∷◌, ◌+◌, ◌^◌, ◌<◌, ◌≤◌, ℕ, List, [], map, Err, IfOk, IfErr, OnOk, OnErr, length, take, min, vec_capacity, ◌⊎◌};
ghost use Rattle.std.specs.Option.{ForSome};
ghost use Rattle.outside_io.specs.Causes.{Rose};
ghost use Rattle.outside_io.specs.Told.{then_left, Takes, CountsGrow};
ghost use Rattle.api_serve.specs.Run.{HasRead, Serves, ServesLines};
ghost use Rattle.store_core.specs.Counts.{opened_in};
ghost use Rattle.store_core.specs.Store.{IsLawful, SameBase};
ghost use Rattle.rand_core.specs.Stream.{Stream};
ghost use Rattle.cmd_tasks.specs.Ids.{stream_of_ids};
ghost use Rattle.api_serve.specs.Ends.{EndsRun, IsWriteEnd};
ghost use Rattle.api_serve.specs.Piece.{fed};
ghost use Rattle.api_serve.specs.Sent.{ServesPiece, EndsPiece, FinishesAs};
ghost use Rattle.api_serve.specs.Shown.{service_of, serving_of, stage_of};
ghost use Rattle.cmd_tasks.specs.declared.trace.Trace.{Trace as Kept};

use crate::run::{Run, RunHow, Stop, start, take_last, take_piece};
use cmd_tasks::{Ids, Trace, a_session_opens};
use col_keeper::Keeper;
use outside_io::{Clock, IoFault, Sink, Source, write_all};
use std::alloc::{AllocError, Global};
use store_core::Store;

/// The most bytes of input that a run reads.
pub const MAX_INPUT: u64 = 1_099_511_627_776;

const PIECE: usize = 65_536;

// So many bytes of 0.
fn zeros(alloc: Global, len: usize) -> Result<Vec<u8>, AllocError>
    ensures { IfOk result (λ bytes. length bytes.items ≡ len) }
{
    vec![in alloc; 0u8; len]
}

// Reads a piece of at most so many bytes to the front of the buffer.
fn read_piece<S: Source>(source: &mut S, buffer: &mut [u8], most: u64) -> Result<usize, IoFault>
    requires { (0 < most) × (0 < length buffer.old) }
    ensures given { IfOk result (λ n. (0 < n) × (n ≤ most) × (n ≤ length buffer.new) × ((S.reading source.old).left ≡ then_left (take n buffer.new) (S.reading source.new).left)) }
    ensures kept { OnErr result ((S.reading source.new).left ≡ (S.reading source.old).left) }
    ensures ended { result ≡ Err IoFault.Ended → ForSome (S.reading source.old).left (λ bytes. bytes ≡ []) }
    ensures failed { result ≡ Err IoFault.Failed → Rose (S.reading source.old).failed (S.reading source.new).failed }
    ensures grows { (S.reading source.old).failed ≤ (S.reading source.new).failed }
    ensures len { length buffer.new ≡ length buffer.old }
{
    let room = most.min(buffer.len() as u64) as usize;
    source.read(&mut buffer[..room])
}

// Writes the replies that aren't written yet.
fn send<W: Sink>(sink: &mut W, out: &mut Vec<u8>) -> Result<(), RunHow>
    ensures written { OnOk result (Takes (W.writing sink.old) out.old.items (W.writing sink.new) × (out.new.items ≡ [])) }
    ensures cut { OnErr result ((n : ℕ) × (n < length out.old.items) × Takes (W.writing sink.old) (take n out.old.items) (W.writing sink.new)) }
    ensures fault { IfErr result (IsWriteEnd (W.writing sink.old) (W.writing sink.new)) }
    ensures grows { CountsGrow (W.writing sink.old) (W.writing sink.new) }
{
    let before = sink.write_faults();
    match write_all(sink, out.as_slice()) {
        Ok(()) => {
            out.clear();
            Ok(())
        }
        Err(IoFault::Failed) => Err(RunHow::WriteFault {
            before,
            after: sink.write_faults(),
            nothing: false,
        }),
        Err(IoFault::Ended) => Err(RunHow::WriteFault {
            before,
            after: sink.write_faults(),
            nothing: true,
        }),
    }
}

/// How a run ended, and the traces of its requests, in order, a list for its one session.
#[derive(Drop)]
pub struct RunEnd {
    pub how: RunHow,
    pub traces: Vec<Vec<Trace>>,
}

// Serves the lines of a piece, and writes the replies to all that were served.
fn serve_piece<W: Sink, K: Keeper, C: Clock>(
    alloc: Global,
    keyspace: &str,
    session: u64,
    piece: &[u8],
    sink: &mut W,
    store: &mut Store<K>,
    clock: &mut C,
    run: &mut Run,
) -> Result<(), RunHow>
    requires known { session < opened_in store.old.journal }
    requires room { run.old.count + length run.old.lines + length piece.now + 1 < 2 ^ 64 }
    requires sent { run.old.out.items ≡ [] }
    ensures served { OnOk result (ServesPiece (service_of keyspace.now store.old.start session)
        (stage_of store.old.journal (K.failed store.old.keeper) run.old.traces.items (C.times clock.old) (stream_of_ids run.old.ids)) (fed run.old piece.now)
        (stage_of store.new.journal (K.failed store.new.keeper) run.new.traces.items (C.times clock.new) (stream_of_ids run.new.ids))
        (W.writing sink.old) (W.writing sink.new) run.new) }
    ensures stopped { IfErr result (EndsPiece (service_of keyspace.now store.old.start session)
        (stage_of store.old.journal (K.failed store.old.keeper) run.old.traces.items (C.times clock.old) (stream_of_ids run.old.ids)) (fed run.old piece.now)
        (stage_of store.new.journal (K.failed store.new.keeper) run.new.traces.items (C.times clock.new) (stream_of_ids run.new.ids))
        (W.writing sink.old) (W.writing sink.new)) }
    ensures grows { CountsGrow (W.writing sink.old) (W.writing sink.new) }
    ensures base { SameBase store.old store.new }
    ensures known { session < opened_in store.new.journal }
    ensures lawful { IsLawful store.new }
{
    let served = take_piece(alloc, keyspace, session, piece, store, clock, run);
    match send(sink, &mut run.out) {
        Ok(()) => match served {
            Ok(()) => Ok(()),
            Err(Stop::Wrong { line }) => Err(RunHow::WrongLine { line }),
            Err(Stop::NoMemory) => Err(RunHow::NoMemory),
        },
        Err(how) => Err(how),
    }
}

// Serves what waits at the input's end, and writes its reply.
fn finish<W: Sink, K: Keeper, C: Clock>(
    alloc: Global,
    keyspace: &str,
    session: u64,
    sink: &mut W,
    store: &mut Store<K>,
    clock: &mut C,
    run: &mut Run,
) -> RunHow
    requires known { session < opened_in store.old.journal }
    requires room { run.old.count + 1 < 2 ^ 64 }
    requires sent { run.old.out.items ≡ [] }
    ensures finished { FinishesAs (service_of keyspace.now store.old.start session)
        (stage_of store.old.journal (K.failed store.old.keeper) run.old.traces.items (C.times clock.old) (stream_of_ids run.old.ids)) run.old
        (stage_of store.new.journal (K.failed store.new.keeper) run.new.traces.items (C.times clock.new) (stream_of_ids run.new.ids))
        (W.writing sink.old) (W.writing sink.new) result }
    ensures grows { CountsGrow (W.writing sink.old) (W.writing sink.new) }
    ensures base { SameBase store.old store.new }
    ensures lawful { IsLawful store.new }
{
    match take_last(alloc, keyspace, session, store, clock, run) {
        Ok(()) => match send(sink, &mut run.out) {
            Ok(()) => RunHow::Done,
            Err(how) => how,
        },
        Err(Stop::Wrong { line }) => RunHow::WrongLine { line },
        Err(Stop::NoMemory) => RunHow::NoMemory,
    }
}

// Serves the lines of a source in an open session, a piece of the buffer's length at a time.
fn serve_pieces<S: Source, W: Sink, K: Keeper, C: Clock>(
    alloc: Global,
    keyspace: &str,
    session: u64,
    source: &mut S,
    sink: &mut W,
    store: &mut Store<K>,
    clock: &mut C,
    buffer: &mut [u8],
    run: &mut Run,
) -> RunHow
    requires known { session < opened_in store.old.journal }
    requires room { 0 < length buffer.old }
    requires begun { (run.old.lines ≡ []) × (run.old.out.items ≡ []) × (run.old.count ≡ 0) }
    ensures ended { EndsRun (λ lines output. Serves (service_of keyspace.now store.old.start session)
        (stage_of store.old.journal (K.failed store.old.keeper) run.old.traces.items (C.times clock.old) (stream_of_ids run.old.ids)) lines output
        (stage_of store.new.journal (K.failed store.new.keeper) run.new.traces.items (C.times clock.new) (stream_of_ids run.new.ids)))
        (S.reading source.old) (S.reading source.new) (W.writing sink.old) (W.writing sink.new) result }
    ensures bounded { (count : ℕ) × (count ≤ 2 ^ 40) × HasRead (S.reading source.old) (S.reading source.new) count }
    ensures base { SameBase store.old store.new }
    ensures lawful { IsLawful store.new }
{
    store.journal_len();
    let mut unread = MAX_INPUT;
    'pieces: while unread > 0 {
        let before = source.read_faults();
        let n = match read_piece(source, buffer, unread) {
            Ok(n) => n,
            Err(IoFault::Ended) => return finish(alloc, keyspace, session, sink, store, clock, run),
            Err(IoFault::Failed) => {
                return RunHow::ReadFault {
                    before,
                    after: source.read_faults(),
                };
            }
        };
        let piece = &buffer[..n];
        match serve_piece(alloc, keyspace, session, piece, sink, store, clock, run) {
            Ok(()) => unread -= n as u64,
            Err(how) => return how,
        }
    }
    RunHow::TooLong
}

// No session is opened.
fn unopened(alloc: Global) -> RunEnd
    ensures { (result.how ≡ RunHow.NoMemory) × (result.traces.items ≡ []) }
{
    RunEnd {
        how: RunHow::NoMemory,
        traces: Vec::new(alloc),
    }
}

// Serves the lines of a source in a session that was just opened, and keeps the traces.
fn serve_session<S: Source, W: Sink, K: Keeper, C: Clock>(
    alloc: Global,
    keyspace: &str,
    session: u64,
    source: &mut S,
    sink: &mut W,
    store: &mut Store<K>,
    clock: &mut C,
    ids: Ids,
    buffer: &mut [u8],
    lists: Vec<Vec<Trace>>,
) -> RunEnd
    requires known { session < opened_in store.old.journal }
    requires room { 0 < length buffer.old }
    requires lists { (lists.items ≡ []) × (0 < vec_capacity lists) }
    ensures ended { (traces : List Kept) × (left : Stream) × (map (λ list. list.items) result.traces.items ≡ traces ∷ [])
        × EndsRun (λ lines output. Serves (service_of keyspace.now store.old.start session)
        (stage_of store.old.journal (K.failed store.old.keeper) [] (C.times clock.old) (stream_of_ids ids)) lines output
        (stage_of store.new.journal (K.failed store.new.keeper) traces (C.times clock.new) left))
        (S.reading source.old) (S.reading source.new) (W.writing sink.old) (W.writing sink.new) result.how }
    ensures bounded { (count : ℕ) × (count ≤ 2 ^ 40) × HasRead (S.reading source.old) (S.reading source.new) count }
    ensures base { SameBase store.old store.new }
    ensures lawful { IsLawful store.new }
{
    let mut run = start(alloc, ids);
    let how = serve_pieces(
        alloc, keyspace, session, source, sink, store, clock, buffer, &mut run,
    );
    let Run {
        lines: _,
        out: _,
        count: _,
        ids: _,
        traces,
    } = run;
    let mut lists = lists;
    lists.push_reserved(traces);
    RunEnd { how, traces: lists }
}

/// Opens a session in the store, serves the lines of a source in it, one after another, and writes their replies to a
/// sink. Each request is of the clock's time when it begins. Ids are drawn from what `seed`, the number of the first write
/// after the store's base and the session's number give.
pub fn run_lines<S: Source, W: Sink, K: Keeper, C: Clock>(
    alloc: Global,
    keyspace: &str,
    source: &mut S,
    sink: &mut W,
    store: &mut Store<K>,
    clock: &mut C,
    seed: &[u8; 28],
) -> RunEnd
    // What was read, served and written, by how the run ended; or memory ran out before a session was opened.
    ensures ended { ((traces : List Kept) × (map (λ list. list.items) result.traces.items ≡ traces ∷ [])
        × EndsRun (ServesLines keyspace.now seed.now store.old.start store.old.first
        (serving_of store.old.journal (K.failed store.old.keeper) [] (C.times clock.old))
        (serving_of store.new.journal (K.failed store.new.keeper) traces (C.times clock.new)))
        (S.reading source.old) (S.reading source.new) (W.writing sink.old) (W.writing sink.new) result.how)
        ⊎ ((result.how ≡ RunHow.NoMemory) × (result.traces.items ≡ []) × (store.new.journal ≡ store.old.journal)
        × (source.new ≡ source.old) × (sink.new ≡ sink.old)) }
    ensures bounded { (count : ℕ) × (count ≤ 2 ^ 40) × HasRead (S.reading source.old) (S.reading source.new) count }
    ensures faults { K.failed store.old.keeper ≤ K.failed store.new.keeper }
    ensures base { SameBase store.old store.new }
    ensures lawful { IsLawful store.new }
{
    store.journal_len();
    let Ok(mut buffer) = zeros(alloc, PIECE) else {
        return unopened(alloc);
    };
    let mut lists = Vec::new(alloc);
    if lists.reserve(1).is_err() {
        return unopened(alloc);
    }
    let Ok(session) = store.open_session(alloc) else {
        return unopened(alloc);
    };
    a_session_opens();
    let ids = Ids::new(seed, store.base_tx(), session);
    let buffer = buffer.as_mut_slice();
    serve_session(
        alloc, keyspace, session, source, sink, store, clock, ids, buffer, lists,
    )
}
