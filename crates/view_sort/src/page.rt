ghost use Rattle.std.specs.Prelude.{◌≡◌, ◌≢◌, ◌<◌, ◌^◌, ◌⊎◌, ◌∷◌, ◌++◌, length, ℕ, List, IfOk, IfErr};
ghost use Rattle.std.specs.Int.{w64, to_be_bytes};
ghost use Rattle.json_tree.specs.Tree.{Tree};
ghost use Rattle.json_tree.specs.Id.{IsId, IsInRange, key_of};
ghost use Rattle.view_sort.specs.Page.{state_bytes, state_text, IsRefused};
ghost use Rattle.view_sort.specs.declared.fault.ViewFault.TheVariants.{NoMemory};

use crate::fault::ViewFault;
use base64::DecodeAllocError;
use base64::engine::general_purpose::STANDARD;
use json_tree::{DocId, Text};
use std::alloc::Global;

/// Where a listing goes on: how many documents were given so far, and the last one's id.
#[derive(Drop)]
pub struct PageState {
    pub given: u64,
    pub last: DocId,
}

fn bytes_of(alloc: Global, given: u64, last: &DocId) -> Result<Vec<u8>, ViewFault>
    ensures ok { IfOk result (λ b. b.items ≡ state_bytes given last.now) }
    ensures err { IfErr result (λ e. e ≡ NoMemory) }
{
    let key = last.key_bytes(alloc)?;
    let mut bytes = Vec::with_capacity(alloc, key.len())?;
    bytes.push(1)?;
    bytes.extend_from_slice(&given.to_be_bytes())?;
    bytes.extend_from_slice(key.as_slice())?;
    Ok(bytes)
}

fn state_of(alloc: Global, bytes: &[u8]) -> Result<PageState, ViewFault>
    ensures ok { IfOk result (λ s. (state_bytes s.given s.last ≡ bytes.now) × (s.given < 2 ^ 63) × IsId s.last × IsInRange s.last) }
    ensures err { IfErr result (λ e. IsRefused e (λ n t. state_bytes n t ≢ bytes.now)) }
{
    let Some((tag, rest)) = bytes.split_first() else {
        return Err(ViewFault::BadPageState);
    };
    if *tag != 1 {
        return Err(ViewFault::BadPageState);
    }
    let Some((number, key)) = rest.split_first_chunk::<8>() else {
        return Err(ViewFault::BadPageState);
    };
    let given = u64::from_be_bytes(*number);
    if given >= 1 << 63 {
        return Err(ViewFault::BadPageState);
    }
    match DocId::from_key_bytes(alloc, key)? {
        Some(last) => Ok(PageState { given, last }),
        None => Err(ViewFault::BadPageState),
    }
}

impl PageState {
    /// The state that a text spells.
    pub fn read(alloc: Global, text: &str) -> Result<PageState, ViewFault>
        ensures ok { IfOk result (λ s. (state_text s.given s.last ≡ text.now) × (s.given < 2 ^ 63) × IsId s.last × IsInRange s.last) }
        ensures err { IfErr result (λ e. IsRefused e (λ n t. state_text n t ≢ text.now)) }
    {
        match STANDARD.decode(alloc, text.as_bytes()) {
            Ok(bytes) => state_of(alloc, bytes.as_slice()),
            Err(DecodeAllocError::OutOfMemory) => Err(ViewFault::NoMemory),
            Err(DecodeAllocError::DecodeError(_)) => Err(ViewFault::BadPageState),
        }
    }

    /// Its text.
    pub fn print(&self, alloc: Global) -> Result<Text, ViewFault>
        ensures ok { IfOk result (λ t. t ≡ state_text self.now.given self.now.last) }
        ensures err { IfErr result (λ e. e ≡ NoMemory) }
    {
        let bytes = bytes_of(alloc, self.given, &self.last)?;
        let text = STANDARD.encode(alloc, bytes.as_slice())?;
        Ok(Text::of_string(text)?)
    }
}
