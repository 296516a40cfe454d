// Stored documents with their columns.
ghost use Rattle.std.specs.Prelude.{◌≡◌, Some, IfOk, IfErr};
ghost use Rattle.json_tree.specs.Doc.{IsDocument, id_in};
ghost use Rattle.json_tree.specs.Id.{IsId};
ghost use Rattle.json_tree.specs.Writable.{IsWritable};
ghost use Rattle.shred_cols.specs.Columns.{IsColumns};
ghost use Rattle.shred_cols.specs.Beginning.{beginning};
ghost use Rattle.shred_cols.specs.Row.{Version, id_of};
ghost use Rattle.shred_cols.specs.declared.fault.ShredFault.TheVariants.{NoMemory};

use crate::columns::Columns;
use crate::document::shred;
use crate::fault::ShredFault;
use crate::head::beginning;
use json_tree::{Doc, DocId};
use std::alloc::Global;
use std::marker::Model;

/// A stored document with its columns, seen as the number of the write that stored it and the
/// document; its id and its columns are the document's. Copies share both.
#[derive(Drop)]
pub struct Row {
    tx: u64,
    doc: Doc,
    columns: Columns,
    begins: [u8; 16],
}

impl Model for Row {
    ghost use Rattle.shred_cols.specs.Row.{Version, version_code};

    ghost Value = { Version };

    ghost coded = { version_code };

    ghost view = { λ r. record { tx = r.tx; doc = r.doc } };

    ghost use Rattle.json_tree.specs.Doc.{IsDocument};
    ghost use Rattle.std.specs.Prelude.{◌≡◌};
    ghost use Rattle.shred_cols.specs.Columns.{IsColumns};
    ghost use Rattle.shred_cols.specs.Row.{id_of};
    ghost use Rattle.shred_cols.specs.Beginning.{beginning};

    ghost invariant = { λ r. IsDocument r.doc × IsColumns r.doc r.columns × (r.begins ≡ beginning (id_of r.doc)) };
}

impl Row {
    /// The row of a document.
    pub fn make(alloc: Global, tx: u64, doc: Doc) -> Result<Row, ShredFault>
        ensures ok { IfOk result (λ r. r ≡ record { tx = tx; doc = doc }) }
        ensures err { IfErr result (λ e. e ≡ NoMemory) }
    {
        let columns = shred(alloc, &doc)?;
        let begins = beginning_of(&doc);
        Ok(Row {
            tx,
            doc,
            columns,
            begins,
        })
    }

    /// The beginning of the document's id.
    pub fn begins(&self) -> &[u8]
        ensures { result.now ≡ beginning (id_of self.now.doc) }
    {
        &self.begins
    }

    /// The document's id.
    #[tactic(auto, using(crate::proofs::Ids::document_id))]
    pub fn id(&self) -> &DocId
        ensures member { id_in self.now.doc ≡ Some result.now }
        ensures value { result.now ≡ id_of self.now.doc }
        ensures id { IsId (id_of self.now.doc) }
    {
        self.doc.id()
    }

    /// The number of the write that stored it.
    pub fn tx(&self) -> u64
        ensures { result ≡ self.now.tx }
    {
        self.tx
    }

    /// The document.
    pub fn doc(&self) -> &Doc
        ensures value { result.now ≡ self.now.doc }
        ensures document { IsDocument self.now.doc }
        ensures writable { IsWritable self.now.doc }
    {
        let _value = self.doc.value();
        &self.doc
    }

    /// The document's columns.
    pub fn columns(&self) -> &Columns
        ensures { IsColumns self.now.doc result.now }
    {
        &self.columns
    }

    /// The document alone.
    pub fn into_doc(self) -> Doc
        ensures { result ≡ self.doc }
    {
        let Row {
            tx: _tx,
            doc,
            columns: _columns,
            begins: _begins,
        } = self;
        doc
    }

    /// A copy that shares the document and its columns.
    pub fn try_copy(&self, alloc: Global) -> Result<Row, ShredFault>
        ensures ok { IfOk result (λ r. r ≡ self.now) }
        ensures err { IfErr result (λ e. e ≡ NoMemory) }
    {
        let doc = self.doc.try_copy(alloc)?;
        let columns = self.columns.try_copy(alloc)?;
        Ok(Row {
            tx: self.tx,
            doc,
            columns,
            begins: self.begins,
        })
    }
}

#[tactic(auto, using(crate::proofs::Ids::document_id))]
fn beginning_of(doc: &Doc) -> [u8; 16]
    ensures { result ≡ beginning (id_of doc.now) }
{
    beginning(doc.id())
}
