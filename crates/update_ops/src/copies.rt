// Copies of values, lists and paths.
ghost use Rattle.std.specs.Prelude.{◌≡◌, IfOk, IfErr};
ghost use Rattle.json_tree.specs.View.{tree};
ghost use Rattle.update_ops.specs.declared.fault.UpdateFault.TheVariants.{NoMemory};

use crate::fault::UpdateFault;
use doc_paths::Path;
use json_tree::{Items, Value};
use std::alloc::Global;

pub(crate) fn copy(alloc: Global, value: &Value) -> Result<Value, UpdateFault>
    ensures ok { IfOk result (λ v. tree v ≡ tree value.now) }
    ensures err { IfErr result (λ e. e ≡ NoMemory) }
{
    match value.try_copy(alloc) {
        Ok(copy) => Ok(copy),
        Err(_) => Err(UpdateFault::NoMemory),
    }
}

pub(crate) fn copy_items(alloc: Global, items: &Items) -> Result<Items, UpdateFault>
    ensures ok { IfOk result (λ v. v ≡ items.now) }
    ensures err { IfErr result (λ e. e ≡ NoMemory) }
{
    match items.try_copy(alloc) {
        Ok(copy) => Ok(copy),
        Err(_) => Err(UpdateFault::NoMemory),
    }
}

pub(crate) fn copy_path(alloc: Global, path: &Path) -> Result<Path, UpdateFault>
    ensures ok { IfOk result (λ p. p ≡ path.now) }
    ensures err { IfErr result (λ e. e ≡ NoMemory) }
{
    match path.try_copy(alloc) {
        Ok(copy) => Ok(copy),
        Err(_) => Err(UpdateFault::NoMemory),
    }
}
