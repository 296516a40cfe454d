// Plans, and what they tell.
ghost use Rattle.std.specs.Prelude.{◌≡◌};
ghost use Rattle.filter_plan.specs.Steps.{is_whole};

use doc_paths::Path;
use shred_cols::{Kept, Probe};
use sqlite_items::Items;
use thiserror::Error;

/// What columns tell of a filter.
#[derive(Clone, Copy, Debug, PartialEq, Eq)]
pub enum Verdict {
    /// the document matches
    Yes,
    /// it doesn't match
    No,
    /// the columns don't tell: the document does
    Look,
}

/// Why no plan is made.
#[derive(Error, Clone, Copy, Debug, PartialEq, Eq, Drop)]
pub enum PlanFault {
    /// Want of memory.
    #[error("no memory")]
    NoMemory,
}

/// The steps of a list.
pub(crate) type Steps = Items<Step>;

/// Values, as they are kept.
pub(crate) type Kepts = Items<Kept>;

/// A filter as a tree of probes.
#[cycle(step)]
#[derive(Drop)]
pub(crate) enum Step {
    /// all steps say yes
    All(Steps),
    /// at least one step says yes
    Any(Steps),
    /// the step says no
    Not(Box<Step>),
    /// some entry meets the probe, which decides, or else asks for a look
    Met(Probe, bool),
    /// one of the values is kept at the path
    Among(Path, Kepts),
}

/// A filter made ready to judge columns by.
#[derive(Drop)]
pub struct Plan {
    pub(crate) root: Step,
    pub(crate) probe: Probe,
}

/// Whether a value is kept as its text, and not by a digest.
pub(crate) fn is_whole(kept: &Kept) -> bool
    ensures { result ≡ is_whole kept.now }
{
    match kept {
        Kept::Whole(_) => true,
        Kept::Digest(_) => false,
    }
}
