// Many documents over a keeper in memory, between whose steps another session works.
ghost use Rattle.std.specs.Prelude.{◌≡◌, ◌≢◌, ◌<◌, ◌++◌, List};
ghost use Rattle.store_core.specs.Counts.{opened_in, AllBy};
ghost use Rattle.store_core.specs.Store.{SameBase};
ghost use Rattle.store_core.specs.declared.entry.Entry.{Entry as Journaled};
ghost use Rattle.cmd_grammar.specs.Commands.{command_tree, IsAskable};
ghost use Rattle.cmd_tasks.specs.Stands.{StandsOn};

use super::{command_of, items_of, opened, run, task_of, text_of, told};
use cmd_grammar::Command;
use cmd_tasks::{Next, Served, Task, others_may_append};
use doc_paths::CollName;
use keeper_mem::MemKeeper;
use std::alloc::Global;
use std::test::Fail;
use store_core::Store;

/// What stands there first, what is asked, what another session asks behind which step, what is answered, and the items
/// with their points.
struct Scene {
    before: &'static [&'static str],
    body: &'static str,
    others: &'static [(usize, &'static str)],
    reply: &'static str,
    items: &'static str,
}

const A_ONE: &str = r#"{"insertOne":{"document":{"_id":"a","k":1}}}"#;

const B_ONE: &str = r#"{"insertOne":{"document":{"_id":"b","k":1}}}"#;

const C_ONE: &str = r#"{"insertOne":{"document":{"_id":"c","k":1}}}"#;

const D_TWO: &str = r#"{"insertOne":{"document":{"_id":"d","k":2}}}"#;

const TEXT: &str = r#"{"insertOne":{"document":{"_id":"c","k":1,"n":"x"}}}"#;

const A_TWO: &str = r#"{"updateOne":{"filter":{"_id":"a"},"update":{"$set":{"k":2}}}}"#;

const TOUCH: &str = r#"{"updateOne":{"filter":{"_id":"a"},"update":{"$inc":{"z":1}}}}"#;

const B_GONE: &str = r#"{"deleteOne":{"filter":{"_id":"b"}}}"#;

const B_DONE: &str = r#"{"updateOne":{"filter":{"_id":"b"},"update":{"$set":{"n":1}}}}"#;

const B_TOUCH: &str = r#"{"updateOne":{"filter":{"_id":"b"},"update":{"$inc":{"z":1}}}}"#;

const B_TEXT: &str = r#"{"updateOne":{"filter":{"_id":"b"},"update":{"$set":{"n":"x"}}}}"#;

const A_FIVE: &str = r#"{"updateOne":{"filter":{"_id":"a"},"update":{"$inc":{"n":5}}}}"#;

const A_GONE: &str = r#"{"deleteOne":{"filter":{"_id":"a"}}}"#;

const DROP: &str = "the collection is dropped";

const DELETE: &str = r#"{"deleteMany":{"filter":{"k":1}}}"#;

const SET: &str = r#"{"updateMany":{"filter":{"k":1},"update":{"$set":{"n":1}}}}"#;

const INC: &str = r#"{"updateMany":{"filter":{"k":1},"update":{"$inc":{"n":1}}}}"#;

const SCENES: [Scene; 25] = [
    Scene {
        before: &[A_ONE, B_ONE, D_TWO],
        body: DELETE,
        others: &[],
        reply: r#"{"status":{"deletedCount":2}}"#,
        items: "looked 8 wrote 8 wrote 9 ",
    },
    Scene {
        before: &[A_ONE],
        body: DELETE,
        others: &[(0, A_TWO)],
        reply: r#"{"status":{"deletedCount":0}}"#,
        items: "looked 4 lost 5 looked 5 ",
    },
    Scene {
        before: &[A_ONE, B_ONE],
        body: DELETE,
        others: &[(0, TOUCH)],
        reply: r#"{"status":{"deletedCount":2}}"#,
        items: "looked 6 lost 7 looked 7 wrote 7 wrote 8 ",
    },
    Scene {
        before: &[A_ONE, B_ONE],
        body: DELETE,
        others: &[(0, TOUCH), (2, TOUCH), (4, TOUCH), (6, TOUCH)],
        reply: r#"{"errors":[{"message":"Lost to other writers: 1>3, 3>4, 4>5, 5>6","errorCode":"CONCURRENCY_FAILURE"}]}"#,
        items: "looked 6 lost 7 looked 7 lost 8 looked 8 lost 9 looked 9 lost 10 ",
    },
    Scene {
        before: &[A_ONE, B_ONE, C_ONE],
        body: DELETE,
        others: &[(0, B_GONE)],
        reply: r#"{"status":{"deletedCount":2}}"#,
        items: "looked 8 wrote 9 lost 10 looked 10 wrote 10 ",
    },
    Scene {
        before: &[A_ONE, B_ONE, C_ONE, D_TWO],
        body: SET,
        others: &[],
        reply: r#"{"status":{"matchedCount":3,"modifiedCount":3}}"#,
        items: "looked 10 wrote 10 wrote 11 wrote 12 ",
    },
    Scene {
        before: &[A_ONE, B_ONE, C_ONE, B_DONE],
        body: SET,
        others: &[],
        reply: r#"{"status":{"matchedCount":3,"modifiedCount":2}}"#,
        items: "looked 10 wrote 10 wrote 11 ",
    },
    Scene {
        before: &[B_ONE, B_DONE],
        body: SET,
        others: &[],
        reply: r#"{"status":{"matchedCount":1,"modifiedCount":0}}"#,
        items: "looked 6 ",
    },
    Scene {
        before: &[A_ONE, B_ONE],
        body: SET,
        others: &[(1, B_DONE)],
        reply: r#"{"status":{"matchedCount":2,"modifiedCount":1}}"#,
        items: "looked 6 wrote 6 lost 8 looked 8 ",
    },
    Scene {
        before: &[A_ONE, B_ONE, TEXT],
        body: INC,
        others: &[],
        reply: r#"{"status":{"matchedCount":2,"modifiedCount":2},"errors":[{"message":"Update target is of the wrong kind at n","errorCode":"UNSUPPORTED_UPDATE_OPERATION_TARGET"}]}"#,
        items: "looked 8 wrote 8 wrote 9 ",
    },
    Scene {
        before: &[TEXT],
        body: INC,
        others: &[],
        reply: r#"{"errors":[{"message":"Update target is of the wrong kind at n","errorCode":"UNSUPPORTED_UPDATE_OPERATION_TARGET"}]}"#,
        items: "looked 4 ",
    },
    Scene {
        before: &[A_ONE, B_ONE],
        body: r#"{"deleteOne":{"filter":{"k":1},"sort":{"_id":-1}}}"#,
        others: &[(0, B_DONE)],
        reply: r#"{"status":{"deletedCount":1}}"#,
        items: "looked 6 lost 7 looked 7 wrote 7 ",
    },
    Scene {
        before: &[A_ONE, B_ONE],
        body: r#"{"deleteOne":{"filter":{"k":3}}}"#,
        others: &[],
        reply: r#"{"status":{"deletedCount":0}}"#,
        items: "looked 6 ",
    },
    Scene {
        before: &[A_ONE, B_ONE],
        body: SET,
        others: &[(1, B_TOUCH), (3, B_TOUCH), (5, B_TOUCH), (7, B_TOUCH)],
        reply: r#"{"status":{"matchedCount":1,"modifiedCount":1},"errors":[{"message":"Lost to other writers: 2>4, 4>5, 5>6, 6>7","errorCode":"CONCURRENCY_FAILURE"}]}"#,
        items: "looked 6 wrote 6 lost 8 looked 8 lost 9 looked 9 lost 10 looked 10 lost 11 ",
    },
    Scene {
        before: &[A_ONE, B_ONE],
        body: DELETE,
        others: &[(0, TOUCH), (2, TOUCH), (5, B_TOUCH), (7, B_TOUCH)],
        reply: r#"{"status":{"deletedCount":2}}"#,
        items: "looked 6 lost 7 looked 7 lost 8 looked 8 wrote 8 lost 10 looked 10 lost 11 looked 11 wrote 11 ",
    },
    Scene {
        before: &[A_ONE, B_ONE],
        body: INC,
        others: &[(1, B_TEXT)],
        reply: r#"{"status":{"matchedCount":1,"modifiedCount":1},"errors":[{"message":"Update target is of the wrong kind at n","errorCode":"UNSUPPORTED_UPDATE_OPERATION_TARGET"}]}"#,
        items: "looked 6 wrote 6 lost 8 looked 8 ",
    },
    Scene {
        before: &[A_ONE, B_ONE],
        body: SET,
        others: &[(1, B_GONE)],
        reply: r#"{"status":{"matchedCount":1,"modifiedCount":1}}"#,
        items: "looked 6 wrote 6 lost 8 looked 8 ",
    },
    Scene {
        before: &[A_ONE, B_ONE],
        body: DELETE,
        others: &[(0, A_GONE), (1, A_ONE)],
        reply: r#"{"status":{"deletedCount":2}}"#,
        items: "looked 6 lost 7 looked 8 wrote 8 wrote 9 ",
    },
    Scene {
        before: &[A_ONE, B_ONE],
        body: SET,
        others: &[(1, DROP)],
        reply: r#"{"status":{"matchedCount":1,"modifiedCount":1},"errors":[{"message":"Collection c does not exist","errorCode":"COLLECTION_NOT_EXIST"}]}"#,
        items: "looked 6 wrote 6 looked 8 ",
    },
    Scene {
        before: &[A_ONE, B_ONE],
        body: DELETE,
        others: &[(1, DROP)],
        reply: r#"{"status":{"deletedCount":1},"errors":[{"message":"Collection c does not exist","errorCode":"COLLECTION_NOT_EXIST"}]}"#,
        items: "looked 6 wrote 6 looked 8 ",
    },
    Scene {
        before: &[A_ONE, B_ONE],
        body: DELETE,
        others: &[(0, TOUCH), (1, DROP)],
        reply: r#"{"errors":[{"message":"Collection c does not exist","errorCode":"COLLECTION_NOT_EXIST"}]}"#,
        items: "looked 6 lost 7 looked 8 ",
    },
    Scene {
        before: &[A_ONE, B_ONE],
        body: DELETE,
        others: &[(1, B_DONE), (2, DROP)],
        reply: r#"{"status":{"deletedCount":1},"errors":[{"message":"Collection c does not exist","errorCode":"COLLECTION_NOT_EXIST"}]}"#,
        items: "looked 6 wrote 6 lost 8 looked 9 ",
    },
    Scene {
        before: &[A_ONE, B_ONE],
        body: r#"{"deleteOne":{"filter":{"k":1}}}"#,
        others: &[(0, A_TWO)],
        reply: r#"{"status":{"deletedCount":1}}"#,
        items: "looked 6 lost 7 looked 7 wrote 7 ",
    },
    Scene {
        before: &[A_ONE, B_ONE],
        body: r#"{"deleteOne":{"filter":{"_id":"a"}}}"#,
        others: &[(0, A_GONE)],
        reply: r#"{"status":{"deletedCount":0}}"#,
        items: "looked 6 lost 7 looked 7 ",
    },
    Scene {
        before: &[A_ONE, B_ONE],
        body: r#"{"deleteOne":{"filter":{"k":1}}}"#,
        others: &[(0, TOUCH), (2, TOUCH), (4, TOUCH), (6, TOUCH)],
        reply: r#"{"errors":[{"message":"Lost to other writers: 1>3, 3>4, 4>5, 5>6","errorCode":"CONCURRENCY_FAILURE"}]}"#,
        items: "looked 6 lost 7 looked 7 lost 8 looked 8 lost 9 looked 9 lost 10 ",
    },
];

/// A scene before which documents c100, c101 and so on stand there too, up to one behind the last; the call of the keeper
/// that fails; what is asked behind it, and the tale of that.
struct Crowd {
    end: u64,
    fails: u64,
    scene: Scene,
    then: &'static str,
    left: &'static str,
}

const DELETE_TWO: &str = r#"{"deleteMany":{"filter":{"k":2}}}"#;

const LEFT: &str = r#"{"find":{"filter":{"n":{"$exists":false}},"projection":{"_id":1}}}"#;

const COUNT: &str = r#"{"countDocuments":{}}"#;

const SHOWN: &str = r#"{"find":{"projection":{"n":1}}}"#;

// The keeper lists, makes the collection, and makes one call for an insertion or a look, and two for an update of one.
const CROWDS: [Crowd; 7] = [
    Crowd {
        end: 122,
        fails: 999,
        scene: Scene {
            before: &[],
            body: SET,
            others: &[(
                0,
                r#"{"updateOne":{"filter":{"_id":"c119"},"update":{"$set":{"k":2}}}}"#,
            )],
            reply: r#"{"status":{"matchedCount":20,"modifiedCount":20,"moreData":true,"nextPageState":"AQAAAAAAAAAUAWMxMjA="}}"#,
            items: "looked 46 wrote 47 wrote 48 wrote 49 wrote 50 wrote 51 wrote 52 wrote 53 wrote 54 wrote 55 wrote 56 wrote 57 wrote 58 wrote 59 wrote 60 wrote 61 wrote 62 wrote 63 wrote 64 wrote 65 lost 66 looked 66 wrote 66 ",
        },
        then: LEFT,
        left: r#"looked 68 {"data":{"documents":[{"_id":"c119"},{"_id":"c121"}],"nextPageState":null}}"#,
    },
    Crowd {
        end: 121,
        fails: 999,
        scene: Scene {
            before: &[],
            body: SET,
            others: &[(
                0,
                r#"{"updateOne":{"filter":{"_id":"c119"},"update":{"$set":{"k":2}}}}"#,
            )],
            reply: r#"{"status":{"matchedCount":20,"modifiedCount":20}}"#,
            items: "looked 44 wrote 45 wrote 46 wrote 47 wrote 48 wrote 49 wrote 50 wrote 51 wrote 52 wrote 53 wrote 54 wrote 55 wrote 56 wrote 57 wrote 58 wrote 59 wrote 60 wrote 61 wrote 62 wrote 63 lost 64 looked 64 wrote 64 ",
        },
        then: LEFT,
        left: r#"looked 66 {"data":{"documents":[{"_id":"c119"}],"nextPageState":null}}"#,
    },
    Crowd {
        end: 170,
        fails: 999,
        scene: Scene {
            before: &[A_ONE],
            body: DELETE_TWO,
            others: &[(0, r#"{"insertOne":{"document":{"_id":"c1000","k":2}}}"#)],
            reply: r#"{"status":{"deletedCount":0}}"#,
            items: "looked 144 looked 145 ",
        },
        then: COUNT,
        left: r#"looked 146 looked 146 {"status":{"count":72}}"#,
    },
    Crowd {
        end: 170,
        fails: 999,
        scene: Scene {
            before: &[A_ONE],
            body: DELETE_TWO,
            others: &[(0, r#"{"insertOne":{"document":{"_id":"c1650","k":2}}}"#)],
            reply: r#"{"status":{"deletedCount":1}}"#,
            items: "looked 144 looked 145 wrote 145 ",
        },
        then: COUNT,
        left: r#"looked 147 looked 147 {"status":{"count":71}}"#,
    },
    Crowd {
        end: 100,
        fails: 9,
        scene: Scene {
            before: &[A_ONE, B_ONE],
            body: DELETE,
            others: &[(0, TOUCH)],
            reply: r#"{"errors":[{"message":"Store fault: 0 then 1","errorCode":"STORE_FAULT"}]}"#,
            items: "looked 6 lost 7 faulted 7 ",
        },
        then: COUNT,
        left: r#"looked 9 {"status":{"count":2}}"#,
    },
    Crowd {
        end: 100,
        fails: 10,
        scene: Scene {
            before: &[A_ONE, B_ONE],
            body: DELETE,
            others: &[(1, B_TOUCH)],
            reply: r#"{"status":{"deletedCount":1},"errors":[{"message":"Store fault: 0 then 1","errorCode":"STORE_FAULT"}]}"#,
            items: "looked 6 wrote 6 lost 8 faulted 8 ",
        },
        then: COUNT,
        left: r#"looked 10 {"status":{"count":1}}"#,
    },
    Crowd {
        end: 100,
        fails: 999,
        scene: Scene {
            before: &[A_ONE, B_ONE],
            body: INC,
            others: &[(0, A_FIVE)],
            reply: r#"{"status":{"matchedCount":2,"modifiedCount":2}}"#,
            items: "looked 6 lost 7 looked 7 wrote 7 wrote 8 ",
        },
        then: SHOWN,
        left: r#"looked 10 {"data":{"documents":[{"_id":"a","n":6},{"_id":"b","n":1}],"nextPageState":null}}"#,
    },
];

// The collection is dropped by a session that was opened.
fn dropped(alloc: Global, store: &mut Store<MemKeeper>, session: u64) -> Result<bool, Fail>
    requires known { session < opened_in store.old.journal }
    ensures grown { (more : List Journaled) × (store.new.journal ≡ store.old.journal ++ more) × AllBy session more }
    ensures base { SameBase store.old store.new }
{
    let coll = CollName::read(alloc, "c")?;
    let _shaped = store.drop_coll(alloc, session, &coll);
    Ok(true)
}

// A request is served under a session that was opened, or the collection is dropped by it.
fn asked_by(
    alloc: Global,
    store: &mut Store<MemKeeper>,
    session: u64,
    body: &str,
) -> Result<bool, Fail>
    requires known { session < opened_in store.old.journal }
    ensures grown { (more : List Journaled) × (store.new.journal ≡ store.old.journal ++ more) × AllBy session more }
    ensures base { SameBase store.old store.new }
{
    if body == DROP {
        return dropped(alloc, store, session);
    }
    Ok(run(alloc, store, session, "c", body)?.is_some())
}

// The same under a session of its own.
fn asked(alloc: Global, store: &mut Store<MemKeeper>, body: &str) -> Result<bool, Fail> {
    match store.open_session(alloc) {
        Ok(session) => asked_by(alloc, store, session, body),
        Err(_) => Ok(false),
    }
}

// What another session asks behind this step.
fn body_behind(others: &'static [(usize, &'static str)], step: usize) -> Option<&'static str> {
    for place in 0..others.len() {
        if others[place].0 == step {
            return Some(others[place].1);
        }
    }
    None
}

fn between(
    alloc: Global,
    store: &mut Store<MemKeeper>,
    other: u64,
    body: Option<&str>,
) -> Result<bool, Fail>
    requires known { other < opened_in store.old.journal }
    ensures grown { (more : List Journaled) × (store.new.journal ≡ store.old.journal ++ more) × AllBy other more }
    ensures base { SameBase store.old store.new }
{
    match body {
        Some(body) => asked_by(alloc, store, other, body),
        None => Ok(false),
    }
}

// The steps of a task, between which another session asks.
fn stepped(
    alloc: Global,
    store: &mut Store<MemKeeper>,
    task: Task,
    other: u64,
    others: &'static [(usize, &'static str)],
) -> Result<Option<Served>, Fail>
    requires known { (task.session < opened_in store.old.journal) × (other < opened_in store.old.journal) }
    requires apart { task.session ≢ other }
    requires stands { StandsOn store.old.start store.old.journal task }
{
    others_may_append();
    let mut task = task;
    'steps: for step in 0..40 {
        match task.step(alloc, store) {
            Next::More => {}
            Next::Done => return Ok(Some(task.into_served())),
        }
        between(alloc, store, other, body_behind(others, step))?;
    }
    Ok(None)
}

// A command, stepped by a session that was opened.
fn tried(
    alloc: Global,
    store: &mut Store<MemKeeper>,
    session: u64,
    command: Command,
    coll: CollName,
    other: u64,
    others: &'static [(usize, &'static str)],
) -> Result<Option<Served>, Fail>
    requires known { (session < opened_in store.old.journal) × (other < opened_in store.old.journal) }
    requires apart { session ≢ other }
    requires asked { IsAskable (command_tree command) }
{
    let task = task_of(alloc, session, coll, command);
    stepped(alloc, store, task, other, others)
}

// The same with the command that a body spells.
fn played_by(
    alloc: Global,
    store: &mut Store<MemKeeper>,
    session: u64,
    other: u64,
    scene: &Scene,
) -> Result<Option<Served>, Fail>
    requires known { (session < opened_in store.old.journal) × (other < opened_in store.old.journal) }
    requires apart { session ≢ other }
{
    let coll = CollName::read(alloc, "c")?;
    match command_of(alloc, scene.body)? {
        Some(command) => tried(alloc, store, session, command, coll, other, scene.others),
        None => Ok(None),
    }
}

// A scene by two sessions that are opened for it.
fn played(
    alloc: Global,
    store: &mut Store<MemKeeper>,
    scene: &Scene,
) -> Result<Option<Served>, Fail> {
    for i in 0..scene.before.len() {
        asked(alloc, store, scene.before[i])?;
    }
    let Ok(other) = store.open_session(alloc) else {
        return Ok(None);
    };
    match store.open_session(alloc) {
        Ok(session) => played_by(alloc, store, session, other, scene),
        Err(_) => Ok(None),
    }
}

// Whether a scene was answered so, by these items.
fn is_so(alloc: Global, served: &Served, scene: &Scene) -> Result<bool, Fail> {
    let text = text_of(alloc, &served.reply)?;
    let items = items_of(alloc, &served.trace)?;
    Ok(text.as_slice() == scene.reply.as_bytes() && items.as_str() == scene.items)
}

// Whether a scene goes so, on a store of its own.
fn goes_so(alloc: Global, scene: &Scene) -> Result<bool, Fail> {
    let Some(mut store) = opened(alloc, 999, 0)? else {
        return Ok(false);
    };
    let played = played(alloc, &mut store, scene);
    let _keeper = store.into_keeper();
    match played? {
        Some(served) => is_so(alloc, &served, scene),
        None => Ok(false),
    }
}

// The place of the first scene that doesn't go so.
fn first_wrong(alloc: Global, scenes: &[Scene]) -> Result<Option<usize>, Fail> {
    for i in 0..scenes.len() {
        if !goes_so(alloc, &scenes[i])? {
            return Ok(Some(i));
        }
    }
    Ok(None)
}

// Documents c100, c101 and so on.
fn gather(alloc: Global, store: &mut Store<MemKeeper>, end: u64) -> Result<(), Fail> {
    for i in 100_u64..end {
        let body = format!(in alloc;
            "{{\"insertOne\":{{\"document\":{{\"_id\":\"c{i}\",\"k\":1}}}}}}"
        )?;
        asked(alloc, store, body.as_str())?;
    }
    Ok(())
}

// Whether a crowd's scene goes so on this store, and leaves this.
fn leaves(alloc: Global, store: &mut Store<MemKeeper>, crowd: &Crowd) -> Result<bool, Fail> {
    gather(alloc, store, crowd.end)?;
    let Some(served) = played(alloc, store, &crowd.scene)? else {
        return Ok(false);
    };
    let is_so = is_so(alloc, &served, &crowd.scene)?;
    let left = told(alloc, store, "c", crowd.then)?;
    Ok(is_so && left.as_str() == crowd.left)
}

// The same on a store of its own.
fn leaves_so(alloc: Global, crowd: &Crowd) -> Result<bool, Fail> {
    let Some(mut store) = opened(alloc, crowd.fails, 0)? else {
        return Ok(false);
    };
    let leaves = leaves(alloc, &mut store, crowd);
    let _keeper = store.into_keeper();
    leaves
}

// The place of the first crowd that goes or leaves otherwise.
fn first_left(alloc: Global, crowds: &[Crowd]) -> Result<Option<usize>, Fail> {
    for i in 0..crowds.len() {
        if !leaves_so(alloc, &crowds[i])? {
            return Ok(Some(i));
        }
    }
    Ok(None)
}

#[test]
fn many_are_taken_one_by_one(rt: HostRuntime) -> Result<(), Fail> {
    let alloc = rt.alloc();
    assert_eq!(rt; first_wrong(alloc, &SCENES)?, None);
    Ok(())
}

#[test]
fn many_are_taken_of_a_crowd(rt: HostRuntime) -> Result<(), Fail> {
    let alloc = rt.alloc();
    assert_eq!(rt; first_left(alloc, &CROWDS)?, None);
    Ok(())
}
