// Names of collections.
ghost use Rattle.std.specs.Prelude.{◌≡◌, ◌||◌, ◌==◌, IfOk, IfErr, IsTrue, if◌then◌else◌};
ghost use Rattle.std.proofs.Common.{rules};
ghost use Rattle.std.specs.Str.{bytes_eq};
ghost use Rattle.std.specs.Hash as fed;
ghost use Rattle.std.specs.Cmp.Rules.{comparing, hashing};
ghost use Rattle.std.specs.List.{list_all};
ghost use Rattle.std.specs.Char.{is_ascii_alphanumeric};
ghost use Rattle.doc_paths.specs.Name.{is_collection_name};
ghost use Rattle.doc_paths.specs.declared.fault.NameFault.TheVariants.{Bad, NoMemory};

use crate::fault::NameFault;
use std::alloc::Global;
use std::hash::{Hash, Hasher};
use std::marker::Model;
use std::sync::Arc;

/// A collection's name. Copies share it.
#[derive(Drop)]
pub struct CollName {
    shared: Arc<String, Global>,
}

impl Model for CollName {
    ghost use Rattle.std.specs.Prelude.{ℕ, List, string_bytes, IsTrue};

    ghost Value = { List ℕ };

    ghost view = { λ n. string_bytes n.shared.value };

    ghost use Rattle.doc_paths.specs.Name.{is_collection_name};

    ghost invariant = { λ n. IsTrue (is_collection_name (string_bytes n.shared.value)) };
}

impl PartialEq for CollName {
    ghost eq = { bytes_eq };

    ghost laws = { Prim.search (comparing, rules) };

    fn eq(&self, other: &CollName) -> bool {
        self.shared.as_str() == other.shared.as_str()
    }
}

impl Eq for CollName {
    ghost laws = { Prim.search (comparing, rules) };
}

impl Hash for CollName {
    ghost hash_input = { fed.str };

    ghost respects_eq = { Prim.search (hashing, rules) };

    fn hash<H: Hasher>(&self, state: &mut H) {
        self.shared.as_str().hash(state);
    }
}

fn are_name_bytes(bytes: &[u8]) -> bool
    ensures { result ≡ list_all (λ c. is_ascii_alphanumeric c || c == 95) bytes.now }
{
    for b in bytes {
        if !(b.is_ascii_alphanumeric() || *b == b'_') {
            return false;
        }
    }
    true
}

/// Whether these bytes are a collection's name: 1 to 48 bytes, the first a letter, the others
/// letters, digits or `_`.
pub fn is_collection_name(name: &[u8]) -> bool
    ensures { result ≡ is_collection_name name.now }
{
    match name.split_first() {
        None => false,
        Some((first, rest)) => {
            first.is_ascii_alphabetic() && are_name_bytes(rest) && name.len() <= 48
        }
    }
}

impl CollName {
    /// The name that a text is.
    pub fn read(alloc: Global, text: &str) -> Result<CollName, NameFault>
        ensures ok { IfOk result (λ n. (n ≡ text.now) × IsTrue (is_collection_name text.now)) }
        ensures err { IfErr result (λ e. e ≡ (if is_collection_name text.now then NoMemory else Bad)) }
    {
        if !is_collection_name(text.as_bytes()) {
            return Err(NameFault::Bad);
        }
        let shared = Arc::new(alloc, String::from_str(alloc, text)?)?;
        Ok(CollName { shared })
    }

    /// Its text.
    pub fn text(&self) -> &str
        ensures value { result.now ≡ self.now }
        ensures name { IsTrue (is_collection_name self.now) }
    {
        self.shared.as_str()
    }

    /// A copy that shares the text.
    pub fn try_copy(&self, _alloc: Global) -> Result<CollName, NameFault>
        ensures ok { IfOk result (λ n. n ≡ self.now) }
        ensures err { IfErr result (λ e. e ≡ NoMemory) }
    {
        let shared = Arc::try_clone(&self.shared)?;
        Ok(CollName { shared })
    }
}
