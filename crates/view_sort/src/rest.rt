// What is left of a rule's path at a value.
ghost use Rattle.std.specs.Prelude.{◌≡◌, [], ◌∷◌, MatchOption, IfOk, IfErr};
ghost use Rattle.view_sort.specs.View.{step, under};
ghost use Rattle.view_sort.specs.declared.fault.ViewFault.TheVariants.{NoMemory};

use crate::fault::ViewFault;
use crate::part::first_part;
use crate::show::Show;
use std::alloc::Global;
use std::marker::Model;

/// What is left of a rule's path, and what is said there.
#[derive(Drop)]
pub(crate) struct Rest<'a> {
    pub(crate) left: Option<&'a str>,
    pub(crate) show: Show,
}

impl<'a> Model for Rest<'a> {
    ghost use Rattle.std.specs.Prelude.{ℕ, List, option_map};
    ghost use Rattle.doc_paths.specs.Text.{base_parts};
    ghost use Rattle.view_sort.specs.declared.show.Show.{Show};

    ghost Value = { List (List ℕ) × Show };

    ghost view = { λ r. (base_parts (option_map (λ t. t.now) r.left), r.show) };
}

fn step<'a>(rest: &Rest<'a>, name: &str) -> Option<Rest<'a>>
    ensures { MatchOption result (step name.now rest.now ≡ []) (λ r. step name.now rest.now ≡ r ∷ []) }
{
    let Some(text) = rest.left else {
        return None;
    };
    let (part, more) = first_part(text);
    if part == name {
        Some(Rest {
            left: more,
            show: rest.show,
        })
    } else {
        None
    }
}

/// The rules of the member of this name.
pub(crate) fn under<'a>(
    alloc: Global,
    rests: &[Rest<'a>],
    name: &str,
) -> Result<Vec<Rest<'a>>, ViewFault>
    ensures ok { IfOk result (λ v. v.items ≡ under name.now rests.now) }
    ensures err { IfErr result (λ e. e ≡ NoMemory) }
{
    let mut inner = Vec::new(alloc);
    for i in 0..rests.len() {
        let Some(rest) = rests.get(i) else {
            unreachable!();
        };
        if let Some(next) = step(rest, name) {
            inner.push(next)?;
        }
    }
    Ok(inner)
}
