// The beginnings of ids, by which they are compared first.
ghost use Rattle.std.specs.Prelude.{◌≡◌, ◌∷◌, get_or};
ghost use Rattle.json_tree.specs.View.{tree};
ghost use Rattle.json_tree.specs.Id.{id_tag, id_text};
ghost use Rattle.shred_cols.specs.Beginning.{padded, beginning};

use json_tree::{DocId, Value};

fn tag(value: &Value) -> u8
    ensures { result ≡ id_tag (tree value.now) }
{
    match value {
        Value::Text(_) => 1,
        Value::Num(_) => 2,
        Value::Bool(_) => 3,
        Value::Null => 4,
        Value::Date(_) => 5,
        Value::List(_) => 6,
        Value::Object(_) => 7,
    }
}

fn text(value: &Value) -> &[u8]
    ensures { result.now ≡ id_text (tree value.now) }
{
    match value {
        Value::Text(text) => text.as_str().as_bytes(),
        Value::Num(_) => &[],
        Value::Bool(_) => &[],
        Value::Null => &[],
        Value::Date(_) => &[],
        Value::List(_) => &[],
        Value::Object(_) => &[],
    }
}

fn byte_at(bytes: &[u8], place: usize) -> u8
    ensures { result ≡ get_or bytes.now place 0 }
{
    match bytes.get(place) {
        Some(b) => *b,
        None => 0,
    }
}

fn filled(first: u8, bytes: &[u8]) -> [u8; 16]
    ensures { result ≡ first ∷ padded 15 bytes.now }
{
    let mut filled = [first; 16];
    for i in 0..15 {
        filled[i + 1] = byte_at(bytes, i);
    }
    filled
}

/// The beginning of an id: ids whose beginnings differ stand in the order of these.
pub fn beginning(id: &DocId) -> [u8; 16]
    ensures { result ≡ beginning id.now }
{
    filled(tag(id.value()), text(id.value()))
}
