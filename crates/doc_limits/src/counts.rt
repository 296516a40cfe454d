// What the limits count in a value, in one walk.
ghost use Rattle.std.specs.Prelude.{◌≡◌, ◌+◌, length, decimal, None};
ghost use Rattle.json_tree.specs.Tree.{text, list, object, elements_of, members_of};
ghost use Rattle.json_tree.specs.View.{tree};
ghost use Rattle.json_text.specs.Print.{capped};
ghost use Rattle.doc_limits.specs.Counts.{joined, longer, place_counts, tree_counts, name_counts};

use itoa::Buffer;
use json_tree::{Items, Members, Text, Value};

/// The greatest counts so far, each of which stops at the last number of 64 bits.
#[derive(Clone, Copy)]
pub(crate) struct Counts {
    /// levels of lists and objects, one inside another
    pub(crate) levels: u64,
    /// whether a member's name is empty
    pub(crate) empty_name: bool,
    /// bytes of a member's name
    pub(crate) name: u64,
    /// bytes of a path to a value
    pub(crate) path: u64,
    /// members of one object
    pub(crate) object: u64,
    /// members of all objects together
    pub(crate) members: u64,
    /// elements of one list
    pub(crate) list: u64,
    /// bytes of a text
    pub(crate) text: u64,
}

fn plus(a: u64, b: u64) -> u64
    ensures { result ≡ capped (a + b) }
{
    a.saturating_add(b)
}

fn decimal_len(n: usize) -> u64
    ensures { result ≡ length (decimal n) }
{
    let mut buffer = Buffer::new();
    buffer.format(n).len() as u64
}

// the bytes of a path that is one part longer: the path of a whole value has no part
fn longer(path: Option<u64>, part: u64) -> u64
    ensures { result ≡ capped (longer path part) }
{
    match path {
        None => part,
        Some(bytes) => plus(plus(bytes, 1), part),
    }
}

impl Counts {
    // those of a value with no content
    fn at(levels: u64, path: Option<u64>) -> Counts
        ensures { result ≡ place_counts levels path }
    {
        Counts {
            levels,
            empty_name: false,
            name: 0,
            path: path.unwrap_or(0),
            object: 0,
            members: 0,
            list: 0,
            text: 0,
        }
    }

    fn join(&mut self, other: Counts)
        ensures { self.new ≡ joined self.old other }
    {
        self.levels = self.levels.max(other.levels);
        self.empty_name = self.empty_name || other.empty_name;
        self.name = self.name.max(other.name);
        self.path = self.path.max(other.path);
        self.object = self.object.max(other.object);
        self.members = plus(self.members, other.members);
        self.list = self.list.max(other.list);
        self.text = self.text.max(other.text);
    }
}

/// The counts of a whole value.
pub(crate) fn counts_of(value: &Value) -> Counts
    ensures { result ≡ joined (place_counts 0 None) (tree_counts 0 None (tree value.now)) }
{
    let mut counts = Counts::at(0, None);
    count(value, 0, None, &mut counts);
    counts
}

// joins the counts of a value with so many levels around it, and so many bytes in its path, which a
// whole value doesn't have
#[cycle(count)]
#[tactic(auto, using(json_tree::specs::Sizes::sizes))]
fn count(value: &Value, above: u64, path: Option<u64>, counts: &mut Counts)
    ensures { counts.new ≡ joined counts.old (tree_counts above path (tree value.now)) }
{
    match value {
        Value::Text(text) => count_text(text, above, path, counts),
        Value::List(elements) => count_list(elements, above, path, counts),
        Value::Object(members) => count_object(members, above, path, counts),
        _ => counts.join(Counts::at(above, path)),
    }
}

fn count_text(content: &Text, above: u64, path: Option<u64>, counts: &mut Counts)
    ensures { counts.new ≡ joined counts.old (tree_counts above path (text content.now)) }
{
    let mut own = Counts::at(above, path);
    own.text = content.as_str().len() as u64;
    counts.join(own);
}

#[cycle(count)]
#[tactic(auto, using(json_tree::specs::Sizes::sizes))]
fn count_list(elements: &Items, above: u64, path: Option<u64>, counts: &mut Counts)
    ensures { counts.new ≡ joined counts.old (tree_counts above path (list (elements_of elements.now))) }
{
    let level = plus(above, 1);
    for i in 0..elements.len() {
        let Some(element) = elements.get(i) else {
            return;
        };
        count(element, level, Some(longer(path, decimal_len(i))), counts);
    }
    let mut own = Counts::at(level, path);
    own.list = elements.len() as u64;
    counts.join(own);
}

#[cycle(count)]
#[tactic(auto, using(json_tree::specs::Sizes::sizes))]
fn count_object(members: &Members, above: u64, path: Option<u64>, counts: &mut Counts)
    ensures { counts.new ≡ joined counts.old (tree_counts above path (object (members_of members.now))) }
{
    let level = plus(above, 1);
    for i in 0..members.len() {
        let Some((name, value)) = members.pair(i) else {
            return;
        };
        let len = name.as_str().len() as u64;
        count_name(len, counts);
        count(value, level, Some(longer(path, len)), counts);
    }
    let mut own = Counts::at(level, path);
    own.object = members.len() as u64;
    counts.join(own);
}

fn count_name(len: u64, counts: &mut Counts)
    ensures { counts.new ≡ joined counts.old (name_counts len) }
{
    let mut own = Counts::at(0, None);
    own.empty_name = len == 0;
    own.name = len;
    own.members = 1;
    counts.join(own);
}
