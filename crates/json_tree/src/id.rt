// Ids: made of values, compared.
ghost use Rattle.std.specs.Prelude.{◌≡◌, ◌↔◌, IfOk, IfErr, IsTrue, unwrap_or, None};
ghost use Rattle.json_tree.specs.Tree.{number, text};
ghost use Rattle.json_tree.specs.View.{tree};
ghost use Rattle.json_tree.specs.Num.{IsNumber};
ghost use Rattle.json_tree.specs.Id.{IsId, IsInRange, id_fault, id_tag, id_text, id_number, id_cmp};
ghost use Rattle.json_tree.specs.declared.fault.TreeFault.TheVariants.{NoMemory};

use crate::fault::TreeFault;
use crate::num::Num;
use crate::text::Text;
use crate::value::Value;
use std::alloc::Global;
use std::cmp::Ordering;
use std::marker::Model;

/// An id: a null, truth value, number, non-empty text or date.
#[derive(Drop)]
pub struct DocId {
    pub(crate) value: Value,
}

impl Model for DocId {
    ghost use Rattle.json_tree.specs.Tree.{Tree, tree_code};

    ghost Value = { Tree };

    ghost coded = { tree_code };

    ghost use Rattle.json_tree.specs.View.{tree};
    ghost use Rattle.json_tree.specs.Id.{IsId, IsInRange};

    ghost view = { λ d. tree d.value };

    ghost invariant = { λ d. IsId (tree d.value) × IsInRange (tree d.value) };
}

impl DocId {
    /// The id that a value is. A list or an object is of the wrong kind, and an empty text is none.
    pub fn of_value(alloc: Global, value: &Value) -> Result<DocId, TreeFault>
        ensures ok { IfOk result (λ d. (d ≡ tree value.now) × IsId (tree value.now)) }
        ensures err { IfErr result (λ e. e ≡ unwrap_or (id_fault (tree value.now)) NoMemory) }
    {
        match value {
            Value::Null => Ok(DocId { value: Value::Null }),
            Value::Bool(b) => Ok(DocId {
                value: Value::Bool(*b),
            }),
            Value::Num(n) => Ok(DocId::of_number(n)),
            Value::Text(t) => DocId::of_text(alloc, t.as_str()),
            Value::Date(d) => Ok(DocId {
                value: Value::Date(*d),
            }),
            Value::List(_) => Err(TreeFault::BadIdKind),
            Value::Object(_) => Err(TreeFault::BadIdKind),
        }
    }

    pub(crate) fn of_number(n: &Num) -> DocId
        ensures value { result ≡ number n.now }
        ensures range { IsNumber n.now }
    {
        DocId {
            value: Value::Num(Num::of_units(n.units())),
        }
    }

    pub(crate) fn of_text(alloc: Global, bytes: &str) -> Result<DocId, TreeFault>
        ensures ok { IfOk result (λ d. (d ≡ text bytes.now) × IsId (text bytes.now)) }
        ensures err { IfErr result (λ e. e ≡ unwrap_or (id_fault (text bytes.now)) NoMemory) }
    {
        if bytes.is_empty() {
            return Err(TreeFault::EmptyId);
        }
        let copy = Text::of_str(alloc, bytes)?;
        Ok(DocId {
            value: Value::Text(copy),
        })
    }

    /// The id as a value.
    pub fn value(&self) -> &Value
        ensures value { tree result.now ≡ self.now }
        ensures id { IsId self.now × IsInRange self.now }
    {
        &self.value
    }

    /// The number of the kind, by which ids are ordered first.
    fn tag(&self) -> u8
        ensures { result ≡ id_tag self.now }
    {
        match &self.value {
            Value::Text(_) => 1,
            Value::Num(_) => 2,
            Value::Bool(_) => 3,
            Value::Null => 4,
            Value::Date(_) => 5,
            Value::List(_) => unreachable!(),
            Value::Object(_) => unreachable!(),
        }
    }

    fn text(&self) -> &str
        ensures { result.now ≡ id_text self.now }
    {
        match &self.value {
            Value::Text(t) => t.as_str(),
            _ => "",
        }
    }

    fn number(&self) -> i128
        ensures { result ≡ id_number self.now }
    {
        match &self.value {
            Value::Num(n) => n.units(),
            Value::Bool(b) => i128::from(*b),
            Value::Date(d) => i128::from(*d),
            _ => 0,
        }
    }

    /// By tag, then by the text's bytes, the number, false before true, and the date.
    pub fn cmp(&self, other: &DocId) -> Ordering
        ensures { result ≡ id_cmp self.now other.now }
    {
        let by_tag = self.tag().cmp(&other.tag());
        let by_text = self.text().as_bytes().cmp(other.text().as_bytes());
        by_tag
            .then(by_text)
            .then(self.number().cmp(&other.number()))
    }

    /// Whether the ids agree.
    pub fn same(&self, other: &DocId) -> bool
        ensures { IsTrue result ↔ (self.now ≡ other.now) }
    {
        self.value.same(&other.value)
    }

    /// The same id, in memory of its own.
    pub fn try_copy(&self, alloc: Global) -> Result<DocId, TreeFault>
        ensures ok { IfOk result (λ d. d ≡ self.now) }
        ensures err { IfErr result (λ e. e ≡ NoMemory) }
    {
        let value = self.value.try_copy(alloc)?;
        Ok(DocId { value })
    }
}
