// Reading a value from bytes, or the first fault of these.
ghost use Rattle.std.specs.Prelude.{◌≡◌, ◌≤◌, ◌⊎◌, ℕ, List, IfOk, IfErr};
ghost use Rattle.json_tree.specs.Tree.{Tree};
ghost use Rattle.json_tree.specs.View.{tree};
ghost use Rattle.json_text.specs.Grammar.{Reads};
ghost use Rattle.json_text.specs.Fault.{IsFault};
ghost use Rattle.json_tree.specs.Writable.{IsWritable, tree_levels};
ghost use Rattle.json_text.specs.declared.read.TextFault.{TextFault};
ghost use Rattle.json_text.specs.declared.read.TextFault.TheVariants.{NoMemory};
ghost use Rattle.json_text.specs.Lex.{tokens};
ghost use Rattle.json_text.specs.Machine as machine;
ghost use Rattle.json_text.specs.Outcome.{Builds, IsFor};

mod builder;
mod quick;

use crate::read::builder::{Builder, Kind, Refusal, Step};
use crate::read::quick::whole_value_of;
use crate::token::chars::after_blanks;
use crate::token::lex::next_token;
use json_tree::{TreeFault, Value};
use std::alloc::{AllocError, Global};
use thiserror::Error;

/// Why bytes spell no value, and at which offset.
#[derive(Error, Clone, Copy, Debug, PartialEq, Eq, Drop)]
pub enum TextFault {
    /// A token that RFC 8259 doesn't allow here begins at the offset.
    #[error("no JSON at byte {at}")]
    Syntax { at: u64 },
    /// The longest front that is UTF-8 ends at the offset.
    #[error("no UTF-8 at byte {at}")]
    NotUtf8 { at: u64 },
    /// A numeral begins at the offset whose value is no number.
    #[error("number out of range at byte {at}")]
    Number { at: u64 },
    /// The 33rd level opens at the offset.
    #[error("too many levels at byte {at}")]
    TooDeep { at: u64 },
    #[error("no memory")]
    NoMemory,
}

impl From<TreeFault> for TextFault {
    ghost use Rattle.json_text.specs.declared.read.TextFault.TheVariants.{NoMemory};
    ghost use Rattle.std.specs.Prelude.{◌≡◌};

    ghost from_gives = { λ _ e. e ≡ NoMemory };

    fn from(_refused: TreeFault) -> TextFault {
        TextFault::NoMemory
    }
}

impl From<AllocError> for TextFault {
    ghost use Rattle.json_text.specs.declared.read.TextFault.TheVariants.{NoMemory};
    ghost use Rattle.std.specs.Prelude.{◌≡◌};

    ghost from_gives = { λ _ e. e ≡ NoMemory };

    fn from(_refused: AllocError) -> TextFault {
        TextFault::NoMemory
    }
}

// The answer for a token at this place that was refused.
fn fault_at(refusal: Refusal, at: u64) -> TextFault
    ensures { IsFor refusal at result }
{
    match refusal {
        Refusal::Memory => TextFault::NoMemory,
        Refusal::Fault(Kind::Syntax) => TextFault::Syntax { at },
        Refusal::Fault(Kind::TooDeep) => TextFault::TooDeep { at },
        Refusal::Fault(Kind::OutOfRange) => TextFault::Number { at },
    }
}

// Token by token, up to the first fault.
fn read_tokens(alloc: Global, text: &str) -> Result<Value, TextFault>
    ensures { Builds result (machine.run machine.trees machine.start (tokens text.now)) }
{
    let mut builder = Builder::new(alloc);
    let mut rest = text;
    'tokens: loop {
        let from = after_blanks(rest);
        let (token, after) = next_token(alloc, from)?;
        match builder.take(alloc, token) {
            Ok(step) => match step {
                Step::More => rest = after,
                Step::Done(value) => return Ok(value),
            },
            Err(refusal) => return Err(fault_at(refusal, (text.len() - from.len()) as u64)),
        }
    }
}

fn read_text(alloc: Global, text: &str) -> Result<Value, TextFault>
    ensures { Builds result (machine.run machine.trees machine.start (tokens text.now)) }
{
    match whole_value_of(alloc, text) {
        Some(value) => Ok(value),
        None => read_tokens(alloc, text),
    }
}

/// The value that the bytes spell.
pub fn read_value(alloc: Global, bytes: &[u8]) -> Result<Value, TextFault>
    ensures reads { IfOk result (λ v. Reads bytes.now (tree v)) }
    ensures writable { IfOk result (λ v. IsWritable (tree v)) }
    ensures levels { IfOk result (λ v. tree_levels (tree v) ≤ 32) }
    ensures refuses { IfErr result (IsFault bytes.now) }
{
    match str::from_utf8(bytes) {
        Ok(text) => read_text(alloc, text),
        Err(e) => Err(TextFault::NotUtf8 {
            at: e.valid_up_to() as u64,
        }),
    }
}

/// Bytes spell at most one value.
pub fn one_value()
    ensures { (bytes : List ℕ) (v w : Tree) → Reads bytes v → Reads bytes w → v ≡ w }
{}

/// No bytes that spell a value have a fault.
pub fn no_fault_where_read()
    ensures { (bytes : List ℕ) (v : Tree) (e : TextFault) → Reads bytes v → IsFault bytes e → e ≡ NoMemory }
{}

/// Bytes have at most one fault.
pub fn one_fault()
    ensures { (bytes : List ℕ) (e f : TextFault) → IsFault bytes e → IsFault bytes f
        → (e ≡ NoMemory) ⊎ ((f ≡ NoMemory) ⊎ (e ≡ f)) }
{}

/// Bytes spell a value, or have a fault other than want of memory.
pub fn reads_or_fails()
    ensures { (bytes : List ℕ) → ((v : Tree) × Reads bytes v) ⊎ ((e : TextFault) × IsFault bytes e × (e ≡ NoMemory → ⊥)) }
{}
