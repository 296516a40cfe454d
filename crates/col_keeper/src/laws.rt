// Laws of what a keeper is asked for: each function does nothing, and its clauses are the laws.
ghost use Rattle.std.specs.Prelude.{◌≡◌, List};
ghost use Rattle.json_tree.specs.Tree.{Tree};
ghost use Rattle.json_tree.specs.Doc.{IsDocument};
ghost use Rattle.shred_cols.specs.Columns.{IsColumns};
ghost use Rattle.shred_cols.specs.Probe.{meets};
ghost use Rattle.shred_cols.specs.declared.entry.Entry.{Entry};
ghost use Rattle.shred_cols.specs.declared.probe.Probe.{Probe};
ghost use Rattle.shred_cols.specs.Row.{id_of};
ghost use Rattle.col_keeper.specs.Asked.{meets_document};
ghost use Rattle.col_keeper.specs.Tables.{IsShort, KeepsLimits};

/// A document's columns meet a probe exactly where the value at the probe's path is as the probe asks.
pub fn probes_ask_documents()
    ensures { (d : Tree) (es : List Entry) (q : Probe) → IsColumns d es → meets q es ≡ meets_document q d }
{}

/// The id of a document that breaks no limit has at most 8,001 key bytes.
pub fn limits_bound_ids()
    ensures { (d : Tree) → IsDocument d → KeepsLimits d → IsShort (id_of d) }
{}
