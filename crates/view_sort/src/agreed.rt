// Rules read so far, which go together.
ghost use Rattle.std.specs.Prelude.{◌≡◌, [], ◌∷◌, ◌++◌, ◌&&◌, not, true, false, OnOk, IfErr};
ghost use Rattle.std.specs.List.{list_any};
ghost use Rattle.view_sort.specs.Projection.{is_id, is_on, is_off, overlap, mixes};
ghost use Rattle.view_sort.specs.declared.fault.ViewFault.TheVariants.{NoMemory};

use crate::by_parts::overlap;
use crate::fault::ViewFault;
use crate::projection::{Rule, is_id};
use crate::show::Show;
use std::alloc::Global;
use std::marker::Model;

/// Rules, seen as their list, and whether any says 1 and any says 0 of a path other than `_id`.
#[derive(Drop)]
pub(crate) struct Agreed {
    rules: Vec<Rule>,
    has_on: bool,
    has_off: bool,
}

impl Model for Agreed {
    ghost use Rattle.std.specs.Prelude.{ℕ, List};
    ghost use Rattle.view_sort.specs.declared.show.Show.{Show};

    ghost Value = { List (List ℕ × Show) };

    ghost view = { λ a. a.rules.items };

    ghost use Rattle.std.specs.Prelude.{◌≡◌};
    ghost use Rattle.view_sort.specs.Projection.{says_on, says_off};

    ghost invariant = { λ a. (a.has_on ≡ says_on a.rules.items) × (a.has_off ≡ says_off a.rules.items) };
}

fn says_on(rule: &Rule) -> bool
    ensures { result ≡ (not (is_id rule.now.0) && is_on rule.now.1) }
{
    !is_id(&rule.path) && rule.show.is_on()
}

fn says_off(rule: &Rule) -> bool
    ensures { result ≡ (not (is_id rule.now.0) && is_off rule.now.1) }
{
    !is_id(&rule.path) && rule.show.is_off()
}

impl Agreed {
    pub(crate) fn new(alloc: Global) -> Agreed
        ensures { result ≡ [] }
    {
        Agreed {
            rules: Vec::new(alloc),
            has_on: false,
            has_off: false,
        }
    }

    pub(crate) fn add(&mut self, rule: Rule) -> Result<(), ViewFault>
        ensures ok { OnOk result (self.new ≡ self.old ++ rule ∷ []) }
        ensures err { IfErr result (λ e. e ≡ NoMemory) }
    {
        let on = says_on(&rule);
        let off = says_off(&rule);
        self.rules.push(rule)?;
        self.has_on = self.has_on || on;
        self.has_off = self.has_off || off;
        Ok(())
    }

    pub(crate) fn into_rules(self) -> Vec<Rule>
        ensures { result.items ≡ self }
    {
        self.rules
    }

    /// Whether a rule says 0 where another one says 1, or the other way round.
    pub(crate) fn mixes(&self, rule: &Rule) -> bool
        ensures { result ≡ list_any (mixes rule.now) self.now }
    {
        if is_id(&rule.path) {
            return false;
        }
        match rule.show {
            Show::On => self.has_off,
            Show::Off => self.has_on,
            Show::Slice(..) => false,
        }
    }

    /// Whether a rule's path overlaps another one's; none does where that is known.
    pub(crate) fn overlaps(&self, rule: &Rule, apart: bool) -> bool
        requires { apart ≡ true → list_any (λ e. overlap rule.now.0 e.0) self.now ≡ false }
        ensures { result ≡ list_any (λ e. overlap rule.now.0 e.0) self.now }
    {
        !apart && any_overlap(rule, self.rules.as_slice())
    }
}

fn any_overlap(rule: &Rule, rules: &[Rule]) -> bool
    ensures { result ≡ list_any (λ e. overlap rule.now.0 e.0) rules.now }
{
    for i in 0..rules.len() {
        let Some(other) = rules.get(i) else {
            return false;
        };
        if overlap(&rule.path, &other.path) {
            return true;
        }
    }
    false
}
