// Found documents with their keys, in one order.
ghost use Rattle.std.specs.Prelude.{◌≡◌, IfOk, IfErr};
ghost use Rattle.std.proofs.Common.{rules};
ghost use Rattle.std.specs.Cmp.{partial_order_from_total, partial_equiv_from_equiv, eq_by_cmp_equiv};
ghost use Rattle.std.specs.Cmp.Rules.{comparing};
ghost use Rattle.std.specs.Ordering.{as_partial_cmp, eq_by_cmp};
ghost use Rattle.view_sort.specs.declared.fault.ViewFault.TheVariants.{NoMemory};
ghost use Rattle.view_sort.specs.Rank.{sided_key, sided_cmp, ranked_cmp, sided_total, ranked_total};

use crate::fault::ViewFault;
use shred_cols::{Row, SortKey};
use std::alloc::Global;
use std::cmp::Ordering;
use std::marker::Model;

/// A key of a sort: one that ascends, and one that descends, of which one is `Other`.
#[derive(Drop)]
pub struct Sided {
    rising: SortKey,
    falling: SortKey,
}

impl Model for Sided {
    ghost use Rattle.shred_cols.specs.declared.sort.SortKey.{SortKey};

    ghost Value = { SortKey × SortKey };

    ghost view = { λ p. (p.rising, p.falling) };
}

impl Sided {
    pub(crate) fn of_key(ascends: bool, key: SortKey) -> Sided
        ensures { result ≡ sided_key ascends key }
    {
        if ascends {
            Sided {
                rising: key,
                falling: SortKey::Other,
            }
        } else {
            Sided {
                rising: SortKey::Other,
                falling: key,
            }
        }
    }
}

/// What was found, with its keys.
#[derive(Drop)]
pub struct Ranked {
    keys: Vec<Sided>,
    found: Row,
}

impl Model for Ranked {
    ghost use Rattle.std.specs.Prelude.{List};
    ghost use Rattle.shred_cols.specs.Row.{Version, version_code};
    ghost use Rattle.shred_cols.specs.declared.sort.SortKey.{SortKey};

    ghost Value = { List (SortKey × SortKey) × Version };

    ghost use Rattle.std.specs.Coded.{codes};

    ghost coded = { Prim.hlevel (codes, version_code) };

    ghost view = { λ r. (r.keys.items, r.found) };
}

impl Ranked {
    pub(crate) fn new(keys: Vec<Sided>, found: Row) -> Ranked
        ensures { result ≡ (keys.items, found) }
    {
        Ranked { keys, found }
    }

    pub(crate) fn copy_found(&self, alloc: Global) -> Result<Row, ViewFault>
        ensures ok { IfOk result (λ row. row ≡ self.now.1) }
        ensures err { IfErr result (λ e. e ≡ NoMemory) }
    {
        Ok(self.found.try_copy(alloc)?)
    }

    pub(crate) fn into_found(self) -> Row
        ensures { result ≡ self.1 }
    {
        self.found
    }
}

impl PartialEq for Sided {
    ghost eq = { eq_by_cmp sided_cmp };

    ghost laws = { partial_equiv_from_equiv (eq_by_cmp_equiv sided_total) };

    fn eq(&self, other: &Sided) -> bool {
        self.cmp(other) == Ordering::Equal
    }
}

impl Eq for Sided {
    ghost laws = { eq_by_cmp_equiv sided_total };
}

impl Ord for Sided {
    ghost cmp = { sided_cmp };

    ghost total = { sided_total };

    ghost matches_partial_cmp = { Prim.search (comparing, rules) };

    ghost matches_eq = { Prim.search (comparing, rules) };

    fn cmp(&self, other: &Sided) -> Ordering {
        self.rising
            .cmp(&other.rising)
            .then(other.falling.cmp(&self.falling))
    }
}

impl PartialOrd for Sided {
    ghost partial_cmp = { as_partial_cmp sided_cmp };

    ghost laws = { partial_order_from_total sided_total };

    fn partial_cmp(&self, other: &Sided) -> Option<Ordering> {
        Some(self.cmp(other))
    }
}

impl PartialEq for Ranked {
    ghost eq = { eq_by_cmp ranked_cmp };

    ghost laws = { partial_equiv_from_equiv (eq_by_cmp_equiv ranked_total) };

    fn eq(&self, other: &Ranked) -> bool {
        self.cmp(other) == Ordering::Equal
    }
}

impl Eq for Ranked {
    ghost laws = { eq_by_cmp_equiv ranked_total };
}

impl Ord for Ranked {
    ghost cmp = { ranked_cmp };

    ghost total = { ranked_total };

    ghost matches_partial_cmp = { Prim.search (comparing, rules) };

    ghost matches_eq = { Prim.search (comparing, rules) };

    fn cmp(&self, other: &Ranked) -> Ordering {
        self.keys
            .cmp(&other.keys)
            .then(self.found.id().cmp(other.found.id()))
    }
}

impl PartialOrd for Ranked {
    ghost partial_cmp = { as_partial_cmp ranked_cmp };

    ghost laws = { partial_order_from_total ranked_total };

    fn partial_cmp(&self, other: &Ranked) -> Option<Ordering> {
        Some(self.cmp(other))
    }
}
