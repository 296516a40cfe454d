// What a request saw and did, step by step.
ghost use Rattle.std.specs.Prelude.{◌≡◌, length, slice_get, []};
ghost use Rattle.std.specs.Option.{option_copied};

use json_tree::DocId;
use std::alloc::Global;

/// One step of a request. `at` is the number of entries that the journal had when the step was made.
#[derive(Drop)]
pub enum Item {
    /// the matching documents of an interval of ids, with their numbers; `up_to` None is the end
    Looked {
        at: u64,
        after: Option<DocId>,
        up_to: Option<DocId>,
        shown: Vec<(DocId, u64)>,
    },
    /// a write that was accepted: its entry stands at `at`
    Wrote {
        at: u64,
    },
    /// a write that wasn't accepted, since another number than `read` was found, or none
    Lost {
        at: u64,
        read: u64,
        found: Option<u64>,
    },
    /// a call that failed, with the keeper's counts of faults: its entry stands at `at`
    Faulted {
        at: u64,
        before: u64,
        after: u64,
    },
}

/// A request's moment and its items, in order.
#[derive(Drop)]
pub struct Trace {
    pub moment: i64,
    pub items: Vec<Item>,
}

impl Trace {
    /// The trace of a request that has made no step.
    pub fn new(alloc: Global, moment: i64) -> Trace
        ensures { (result.moment ≡ moment) × (result.items.items ≡ []) }
    {
        Trace {
            moment,
            items: Vec::new(alloc),
        }
    }

    /// The moment at which the request was made.
    pub fn moment(&self) -> i64
        ensures { result ≡ self.now.moment }
    {
        self.moment
    }

    /// How many items it has.
    pub fn len(&self) -> usize
        ensures { result ≡ length self.now.items.items }
    {
        self.items.len()
    }

    /// The item of this place, from 0.
    pub fn item(&self, place: usize) -> Option<&Item>
        ensures { option_copied result ≡ slice_get self.now.items.items place }
    {
        self.items.get(place)
    }
}
