// Documents: a value with an id, shared by its copies.
ghost use Rattle.std.specs.Prelude.{◌≡◌, Some, IsSome, IfOk, IfErr, unwrap_or, false};
ghost use Rattle.json_tree.specs.View.{tree};
ghost use Rattle.json_tree.specs.Id.{IsId};
ghost use Rattle.json_tree.specs.Doc.{IsDocument, id_in, id_fault_in, has_dollar_name};
ghost use Rattle.json_tree.specs.Writable.{IsWritable};
ghost use Rattle.json_tree.specs.declared.fault.TreeFault.TheVariants.{NoMemory};

use crate::fault::TreeFault;
use crate::id::DocId;
use crate::value::Value;
use std::alloc::Global;
use std::marker::Model;
use std::sync::Arc;

/// A document: an object with an id, in which no member name begins with `$`. Copies share it.
#[derive(Drop)]
pub struct Doc {
    shared: Arc<Contents, Global>,
}

#[derive(Drop)]
struct Contents {
    id: DocId,
    value: Value,
}

impl Model for Doc {
    ghost use Rattle.std.specs.Prelude.{◌≡◌, Some};
    ghost use Rattle.json_tree.specs.Tree.{Tree, tree_code};

    ghost Value = { Tree };

    ghost coded = { tree_code };

    ghost use Rattle.json_tree.specs.View.{tree};
    ghost use Rattle.json_tree.specs.Doc.{IsDocument, id_in};

    ghost view = { λ d. tree d.shared.value.value };

    ghost invariant = { λ d. IsDocument (tree d.shared.value.value) × (id_in (tree d.shared.value.value) ≡ Some d.shared.value.id) };
}

impl Doc {
    /// The document that an object with a member `_id` is, if that is an id and memory is there.
    /// `Value::has_id_member` and `Value::has_dollar_name` test the condition.
    pub fn of_value(alloc: Global, value: Value) -> Result<Doc, TreeFault>
        requires id { IsSome (id_in (tree value)) }
        requires names { has_dollar_name (tree value) ≡ false }
        ensures ok { IfOk result (λ d. d ≡ tree value) }
        ensures document { IfOk result (λ d. IsDocument d) }
        ensures err { IfErr result (λ e. e ≡ unwrap_or (id_fault_in (tree value)) NoMemory) }
    {
        let id = id_of(alloc, &value)?;
        let shared = Arc::new(alloc, Contents { id, value })?;
        Ok(Doc { shared })
    }

    /// Its id, the member `_id`.
    pub fn id(&self) -> &DocId
        ensures { id_in self.now ≡ Some result.now }
    {
        &self.shared.id
    }

    /// The whole object.
    pub fn value(&self) -> &Value
        ensures value { tree result.now ≡ self.now }
        ensures document { IsDocument self.now }
        ensures writable { IsWritable self.now }
    {
        self.shared.value.by_type();
        &self.shared.value
    }

    /// A copy that shares the value.
    pub fn try_copy(&self, _alloc: Global) -> Result<Doc, TreeFault>
        ensures ok { IfOk result (λ d. d ≡ self.now) }
        ensures err { IfErr result (λ e. e ≡ NoMemory) }
    {
        let shared = Arc::try_clone(&self.shared)?;
        Ok(Doc { shared })
    }
}

/// The id of the member `_id`.
fn id_of(alloc: Global, value: &Value) -> Result<DocId, TreeFault>
    requires { IsSome (id_in (tree value.now)) }
    ensures ok { IfOk result (λ d. (id_in (tree value.now) ≡ Some d) × IsId d) }
    ensures err { IfErr result (λ e. e ≡ unwrap_or (id_fault_in (tree value.now)) NoMemory) }
{
    match value {
        Value::Object(members) => match members.get("_id") {
            Some(id) => DocId::of_value(alloc, id),
            None => unreachable!(),
        },
        _ => unreachable!(),
    }
}
