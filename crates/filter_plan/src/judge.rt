// The judgement of columns.
ghost use Rattle.std.specs.Prelude.{◌≡◌, true, List};
ghost use Rattle.filter_plan.specs.Steps.{is_whole, steps_of, inverse, both, either, of_probe, verdict, all_verdict, any_verdict};
ghost use Rattle.filter_plan.specs.View.{step_tree, kept_step, IsPlanOf};
ghost use Rattle.filter_plan.specs.Judging.{Judged};
ghost use Rattle.json_tree.specs.Writable.{IsWritable};
ghost use Rattle.filter_tree.specs.Ready.{is_ready, FilterIsWritable};
ghost use Rattle.filter_tree.specs.Matches.{matches};
ghost use Rattle.shred_cols.specs.Probe.{inside, is_kept_at, meets};
ghost use Rattle.shred_cols.specs.declared.forms.Kept.{Kept};
ghost use Rattle.shred_cols.specs.declared.probe.Probe.TheVariants as p;
ghost use Rattle.std.specs.List.{list_any, list_all};
ghost use Rattle.filter_plan.specs.Keeps.{keeps};
ghost use Rattle.shred_cols.specs.declared.entry.Entry.{Entry};
ghost use Rattle.filter_tree.specs.Filters.{FilterTree};
ghost use Rattle.json_tree.specs.Tree.{Tree};
ghost use Rattle.shred_cols.specs.Columns.{IsColumns};
ghost use Rattle.std.specs.Prelude.{map};

use crate::step::{Plan, Step, Verdict, is_whole};
use doc_paths::Path;
use json_text::texts_tell_values;
use json_tree::same_decides;
use shred_cols::{Columns, Entry, Kept, Probe};

// So many steps on one path let its run of entries be found once for all of them,
const MANY: usize = 4;

// and a run of no more entries than this be looked through for each.
const SHORT: usize = 8;

fn of_probe(met: bool, exact: bool) -> Verdict
    ensures { result ≡ of_probe met exact }
{
    if !met {
        Verdict::No
    } else if exact {
        Verdict::Yes
    } else {
        Verdict::Look
    }
}

fn inverse(verdict: Verdict) -> Verdict
    ensures { result ≡ inverse verdict }
{
    match verdict {
        Verdict::Yes => Verdict::No,
        Verdict::No => Verdict::Yes,
        Verdict::Look => Verdict::Look,
    }
}

fn both(a: Verdict, b: Verdict) -> Verdict
    ensures { result ≡ both a b }
{
    match (a, b) {
        (Verdict::No, _) => Verdict::No,
        (_, Verdict::No) => Verdict::No,
        (Verdict::Yes, Verdict::Yes) => Verdict::Yes,
        _ => Verdict::Look,
    }
}

fn either(a: Verdict, b: Verdict) -> Verdict
    ensures { result ≡ either a b }
{
    match (a, b) {
        (Verdict::Yes, _) => Verdict::Yes,
        (_, Verdict::Yes) => Verdict::Yes,
        (Verdict::No, Verdict::No) => Verdict::No,
        _ => Verdict::Look,
    }
}

// ---- steps that ask which values are kept at one path

// An entry of a run keeps the value.
fn keeps(kept: &Kept, entry: &Entry) -> bool
    ensures { result ≡ keeps kept.now entry.now }
{
    match entry {
        Entry::Has(_, other) => kept.same(other),
        _ => false,
    }
}

fn is_kept(kept: &Kept, run: &[Entry]) -> bool
    ensures { result ≡ list_any (keeps kept.now) run.now }
{
    for entry in run {
        if keeps(kept, entry) {
            return true;
        }
    }
    false
}

// What the columns answer, where the run of a path is at hand.
fn meets(probe: &Probe, columns: &Columns, path: &str, run: &[Entry]) -> bool
    requires asked { (k : Kept) → list_any (inside (p.Has path.now k)) run.now ≡ meets (p.Has path.now k) columns.now }
    requires only { list_all (is_kept_at path.now) run.now ≡ true }
    ensures { result ≡ meets probe.now columns.now }
{
    match probe {
        Probe::Has(own, kept) => {
            if own.text() == path {
                return is_kept(kept, run);
            }
            columns.meets(probe)
        }
        _ => columns.meets(probe),
    }
}

fn kept_path(step: &Step) -> Option<&Path> {
    match step {
        Step::Met(Probe::Has(path, _), _) => Some(path),
        _ => None,
    }
}

// The path that the first and the last of many steps ask.
fn shared_path(steps: &[Step]) -> Option<&Path> {
    if steps.len() < MANY {
        return None;
    }
    let first = kept_path(&steps[0])?;
    let last = kept_path(&steps[steps.len() - 1])?;
    if first.text() == last.text() {
        Some(first)
    } else {
        None
    }
}

// ---- steps that ask for one of many values at a path

fn judge_among(path: &Path, kepts: &[Kept], columns: &Columns) -> Verdict
    ensures { result ≡ any_verdict columns.now (steps_of (map (kept_step path.now) kepts.now)) }
{
    let run = columns.kept_at(path);
    if run.len() > SHORT {
        return among_all(path, kepts, columns);
    }
    among_run(path, kepts, columns, run)
}

// The values are sought among all entries.
fn among_all(path: &Path, kepts: &[Kept], columns: &Columns) -> Verdict
    ensures { result ≡ any_verdict columns.now (steps_of (map (kept_step path.now) kepts.now)) }
{
    let mut any = Verdict::No;
    for kept in kepts {
        any = either(any, of_probe(columns.keeps(path, kept), is_whole(kept)));
        if let Verdict::Yes = any {
            return Verdict::Yes;
        }
    }
    any
}

// The values are sought in the run of the path.
fn among_run(path: &Path, kepts: &[Kept], columns: &Columns, run: &[Entry]) -> Verdict
    requires asked { (k : Kept) → list_any (inside (p.Has path.now k)) run.now ≡ meets (p.Has path.now k) columns.now }
    requires only { list_all (is_kept_at path.now) run.now ≡ true }
    ensures { result ≡ any_verdict columns.now (steps_of (map (kept_step path.now) kepts.now)) }
{
    let mut any = Verdict::No;
    for kept in kepts {
        any = either(
            any,
            of_probe(keeps_near(path, kept, columns, run), is_whole(kept)),
        );
        if let Verdict::Yes = any {
            return Verdict::Yes;
        }
    }
    any
}

fn keeps_near(path: &Path, kept: &Kept, columns: &Columns, run: &[Entry]) -> bool
    requires asked { (k : Kept) → list_any (inside (p.Has path.now k)) run.now ≡ meets (p.Has path.now k) columns.now }
    requires only { list_all (is_kept_at path.now) run.now ≡ true }
    ensures { result ≡ meets (p.Has path.now kept.now) columns.now }
{
    is_kept(kept, run)
}

// ---- all steps

#[cycle(judging)]
fn judge(step: &Step, columns: &Columns) -> Verdict
    ensures { result ≡ verdict columns.now (step_tree step.now) }
{
    match step {
        Step::All(steps) => judge_all(steps.as_slice(), columns),
        Step::Any(steps) => judge_any(steps.as_slice(), columns),
        Step::Not(step) => inverse(judge(step, columns)),
        Step::Met(probe, exact) => of_probe(columns.meets(probe), *exact),
        Step::Among(path, kepts) => judge_among(path, kepts.as_slice(), columns),
    }
}

#[cycle(judging)]
fn judge_near(step: &Step, columns: &Columns, path: &str, run: &[Entry]) -> Verdict
    requires asked { (k : Kept) → list_any (inside (p.Has path.now k)) run.now ≡ meets (p.Has path.now k) columns.now }
    requires only { list_all (is_kept_at path.now) run.now ≡ true }
    ensures { result ≡ verdict columns.now (step_tree step.now) }
{
    match step {
        Step::Met(probe, exact) => of_probe(meets(probe, columns, path, run), *exact),
        _ => judge(step, columns),
    }
}

#[cycle(judging)]
fn judge_all(steps: &[Step], columns: &Columns) -> Verdict
    ensures { result ≡ all_verdict columns.now (steps_of (map step_tree steps.now)) }
{
    match shared_path(steps) {
        Some(path) => all_at(steps, columns, path),
        None => all_apart(steps, columns),
    }
}

#[cycle(judging)]
fn all_apart(steps: &[Step], columns: &Columns) -> Verdict
    ensures { result ≡ all_verdict columns.now (steps_of (map step_tree steps.now)) }
{
    let mut all = Verdict::Yes;
    for step in steps {
        all = both(all, judge(step, columns));
        if let Verdict::No = all {
            return Verdict::No;
        }
    }
    all
}

#[cycle(judging)]
fn all_at(steps: &[Step], columns: &Columns, path: &Path) -> Verdict
    ensures { result ≡ all_verdict columns.now (steps_of (map step_tree steps.now)) }
{
    let run = columns.kept_at(path);
    if run.len() > SHORT {
        return all_apart(steps, columns);
    }
    all_near(steps, columns, path.text(), run)
}

#[cycle(judging)]
fn all_near(steps: &[Step], columns: &Columns, path: &str, run: &[Entry]) -> Verdict
    requires asked { (k : Kept) → list_any (inside (p.Has path.now k)) run.now ≡ meets (p.Has path.now k) columns.now }
    requires only { list_all (is_kept_at path.now) run.now ≡ true }
    ensures { result ≡ all_verdict columns.now (steps_of (map step_tree steps.now)) }
{
    let mut all = Verdict::Yes;
    for step in steps {
        all = both(all, judge_near(step, columns, path, run));
        if let Verdict::No = all {
            return Verdict::No;
        }
    }
    all
}

#[cycle(judging)]
fn judge_any(steps: &[Step], columns: &Columns) -> Verdict
    ensures { result ≡ any_verdict columns.now (steps_of (map step_tree steps.now)) }
{
    match shared_path(steps) {
        Some(path) => any_at(steps, columns, path),
        None => any_apart(steps, columns),
    }
}

#[cycle(judging)]
fn any_apart(steps: &[Step], columns: &Columns) -> Verdict
    ensures { result ≡ any_verdict columns.now (steps_of (map step_tree steps.now)) }
{
    let mut any = Verdict::No;
    for step in steps {
        any = either(any, judge(step, columns));
        if let Verdict::Yes = any {
            return Verdict::Yes;
        }
    }
    any
}

#[cycle(judging)]
fn any_at(steps: &[Step], columns: &Columns, path: &Path) -> Verdict
    ensures { result ≡ any_verdict columns.now (steps_of (map step_tree steps.now)) }
{
    let run = columns.kept_at(path);
    if run.len() > SHORT {
        return any_apart(steps, columns);
    }
    any_near(steps, columns, path.text(), run)
}

#[cycle(judging)]
fn any_near(steps: &[Step], columns: &Columns, path: &str, run: &[Entry]) -> Verdict
    requires asked { (k : Kept) → list_any (inside (p.Has path.now k)) run.now ≡ meets (p.Has path.now k) columns.now }
    requires only { list_all (is_kept_at path.now) run.now ≡ true }
    ensures { result ≡ any_verdict columns.now (steps_of (map step_tree steps.now)) }
{
    let mut any = Verdict::No;
    for step in steps {
        any = either(any, judge_near(step, columns, path, run));
        if let Verdict::Yes = any {
            return Verdict::Yes;
        }
    }
    any
}

impl Plan {
    /// The probe that each document that matches meets.
    pub fn probe(&self) -> &Probe
        ensures value { result.now ≡ self.now.probe }
        ensures met { (d : Tree) → (f : FilterTree) → (c : List Entry) → IsPlanOf f self.now → is_ready f ≡ true → IsColumns d c → matches f d ≡ true → meets result.now c ≡ true }
    {
        &self.probe
    }

    /// What the columns of a document tell of the filter.
    pub fn judge(&self, columns: &Columns) -> Verdict
        ensures { (d : Tree) → (f : FilterTree) → IsPlanOf f self.now → is_ready f ≡ true → FilterIsWritable f → IsWritable d → IsColumns d columns.now → Judged d columns.now f result }
    {
        same_decides();
        texts_tell_values();
        judge(&self.root, columns)
    }
}
