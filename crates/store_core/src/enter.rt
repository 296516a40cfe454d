// The entries that calls make, behind the others.
ghost use Rattle.std.specs.Prelude.{◌≡◌, ◌+◌, ◌≤◌, [], ◌∷◌, ◌++◌, vec_len, vec_capacity};
ghost use Rattle.json_text.specs.Print.{capped};
ghost use Rattle.store_core.specs.Counts.{size_in};
ghost use Rattle.store_core.specs.Outcomes.{fault_of};

use crate::entry::Entry;

/// What an entry adds to the size of a journal, beside the text of its document.
const ENTRY: u64 = 64;

/// Enters what was done, where the text of the new document has so many bytes.
pub(crate) fn enter(journal: &mut Vec<Entry>, size: &mut u64, entry: Entry, text: u64)
    requires { vec_len journal.old + 1 ≤ vec_capacity journal.old }
    ensures entered { journal.new.items ≡ journal.old.items ++ entry ∷ [] }
    ensures size { size.new ≡ capped (size.old + 64 + text) }
{
    journal.push_reserved(entry);
    *size = size.saturating_add(ENTRY).saturating_add(text);
}

/// Enters a failed call, where a session made it.
pub(crate) fn enter_fault(
    journal: &mut Vec<Entry>,
    size: &mut u64,
    by: Option<u64>,
    before: u64,
    after: u64,
)
    requires { vec_len journal.old + 1 ≤ vec_capacity journal.old }
    ensures entered { journal.new.items ≡ journal.old.items ++ fault_of by before after }
    ensures size { size.new ≡ capped (size.old + size_in (fault_of by before after)) }
{
    match by {
        Some(by) => enter(journal, size, Entry::Failed { by, before, after }, 0),
        None => *size = size.saturating_add(0),
    }
}
