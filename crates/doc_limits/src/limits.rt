// The first limit that a value breaks.
ghost use Rattle.std.specs.Prelude.{◌≡◌, [], ◌∷◌, None, Some, MatchResult, Result};
ghost use Rattle.json_tree.specs.View.{tree};
ghost use Rattle.doc_limits.specs.declared.counts.Counts.{Counts};
ghost use Rattle.doc_limits.specs.Limits.{broken, at_most, at_least_one};
ghost use Rattle.doc_limits.specs.Counts.{of_counts};

use crate::counts::{Counts, counts_of};
use json_text::text_len;
use json_tree::Value;

/// A broken limit: its number, its bound, and the greatest count found, which stops at the last number
/// of 64 bits. Of the limit on the least bytes of a name, the count is the least, 0.
#[derive(Clone, Copy, Debug, PartialEq, Eq)]
pub struct Broken {
    pub limit: u8,
    pub bound: u64,
    pub found: u64,
}

fn at_most(limit: u8, bound: u64, count: u64) -> Result<(), Broken>
    ensures { MatchResult result (λ _. at_most limit bound count ≡ None) (λ e. at_most limit bound count ≡ Some e) }
{
    if count > bound {
        return Err(Broken {
            limit,
            bound,
            found: count,
        });
    }
    Ok(())
}

fn at_least_one(limit: u8, is_empty: bool) -> Result<(), Broken>
    ensures { MatchResult result (λ _. at_least_one limit is_empty ≡ None) (λ e. at_least_one limit is_empty ≡ Some e) }
{
    if is_empty {
        return Err(Broken {
            limit,
            bound: 1,
            found: 0,
        });
    }
    Ok(())
}

fn check_counts(text: u64, counts: Counts) -> Result<(), Broken>
    ensures { MatchResult result (λ _. of_counts text counts ≡ None) (λ e. of_counts text counts ≡ Some e) }
{
    at_most(1, 1_000_000, text)?;
    at_most(2, 16, counts.levels)?;
    at_least_one(3, counts.empty_name)?;
    at_most(4, 100, counts.name)?;
    at_most(5, 1_000, counts.path)?;
    at_most(6, 1_000, counts.object)?;
    at_most(7, 2_000, counts.members)?;
    at_most(8, 1_000, counts.list)?;
    at_most(9, 8_000, counts.text)
}

/// The first limit that the value breaks, by number:
///
/// | limit | what is counted | bound |
/// |---|---|---|
/// | 1 | bytes of the canonical text | 1,000,000 |
/// | 2 | levels of lists and objects, the value itself being the first | 16 |
/// | 3 | bytes of a member's name, at least | 1 |
/// | 4 | bytes of a member's name | 100 |
/// | 5 | bytes of a path to a value, with places of elements in decimal and dots between the parts | 1,000 |
/// | 6 | members of one object | 1,000 |
/// | 7 | members of all objects together | 2,000 |
/// | 8 | elements of one list | 1,000 |
/// | 9 | bytes of a text | 8,000 |
#[tactic(auto, using(crate::proofs::Totals::answers))]
pub fn check(value: &Value) -> Result<(), Broken>
    ensures { MatchResult result (λ _. broken (tree value.now) ≡ None) (λ e. broken (tree value.now) ≡ Some e) }
{
    check_counts(text_len(value), counts_of(value))
}
