// An object that is being read.
ghost use Rattle.std.specs.Prelude.{◌≡◌, [], ◌∷◌, ◌++◌, ◌≤◌, length, IsTrue, IfOk, IfErr, OnOk, OnErr};
ghost use Rattle.json_tree.specs.View.{tree};
ghost use Rattle.json_tree.specs.Members.{place_of, put_member, all_distinct};
ghost use Rattle.json_tree.specs.Places.{IsPlaces};
ghost use Rattle.json_tree.specs.declared.fault.TreeFault.TheVariants.{NoMemory};

use crate::fault::TreeFault;
use crate::text::Text;
use crate::value::{Members, Value};
use std::alloc::Global;
use std::collections::BTreeMap;
use std::marker::Model;

/// So many members are looked through; of more, the places of the names are kept in order.
const FEW: usize = 32;

/// The members of an object that is being read. Putting n of them in costs n log n steps.
#[derive(Drop)]
pub struct ObjectBuilder {
    members: Members,
    places: Option<Box<BTreeMap<String, usize>>>,
    alloc: Global,
}

impl Model for ObjectBuilder {
    ghost use Rattle.std.specs.Prelude.{List, ℕ, IfSome};
    ghost use Rattle.json_tree.specs.Tree.{Tree, tree_code};

    ghost Value = { List (List ℕ × Tree) };

    ghost use Rattle.std.specs.Coded.{coded_list, coded×, coded_ℕ};

    ghost coded = { coded_list (coded× (coded_list coded_ℕ) tree_code) };

    ghost view = { λ a. a.members };

    ghost use Rattle.json_tree.specs.Places.{IsPlaces};

    ghost invariant = { λ a. IfSome a.places (λ m. IsPlaces m.value a.members) };
}

/// The places of all names.
fn places_of(alloc: Global, members: &Members) -> Result<BTreeMap<String, usize>, TreeFault>
    ensures ok { IfOk result (λ m. IsPlaces m members.now) }
    ensures err { IfErr result (λ e. e ≡ NoMemory) }
{
    let mut places = BTreeMap::new(alloc);
    for i in 0..members.len() {
        let key = String::from_str(alloc, members.name(i))?;
        places.insert(key, i)?;
    }
    Ok(places)
}

/// Adds the pair of a name that isn't there, and its place.
fn placed(
    alloc: Global,
    members: &mut Members,
    places: Box<BTreeMap<String, usize>>,
    name: Text,
    value: Value,
) -> Result<Box<BTreeMap<String, usize>>, TreeFault>
    requires absent { length members.old ≤ place_of name members.old }
    requires places { IsPlaces places.value members.old }
    ensures ok { OnOk result (members.new ≡ members.old ++ (name, tree value) ∷ []) }
    ensures places { IfOk result (λ m. IsPlaces m.value members.new) }
    ensures refused { IfErr result (λ e. e ≡ NoMemory) }
    ensures err { OnErr result (members.new ≡ members.old) }
{
    let mut places = places;
    let key = String::from_str(alloc, name.as_str())?;
    places.insert(key, members.len())?;
    members.add(name, value)?;
    Ok(places)
}

impl ObjectBuilder {
    /// An object with no members yet.
    pub fn new(alloc: Global) -> ObjectBuilder
        ensures { result ≡ [] }
    {
        ObjectBuilder {
            members: Members::new(alloc),
            places: None,
            alloc,
        }
    }

    /// How many members it has so far.
    pub fn len(&self) -> usize
        ensures value { result ≡ length self.now }
        ensures distinct { IsTrue (all_distinct self.now) }
    {
        self.members.len()
    }

    /// The place of a name, or the length.
    fn place(&self, name: &str) -> usize
        ensures { result ≡ place_of name.now self.now }
    {
        match &self.places {
            Some(places) => match places.get(name) {
                Some(place) => *place,
                None => self.members.len(),
            },
            None => self.members.place(name),
        }
    }

    /// Adds the pair of a name that isn't there. A look-up that couldn't follow is dropped.
    fn add(&mut self, name: Text, value: Value) -> Result<(), TreeFault>
        requires { length self.old ≤ place_of name self.old }
        ensures ok { OnOk result (self.new ≡ self.old ++ (name, tree value) ∷ []) }
        ensures refused { IfErr result (λ e. e ≡ NoMemory) }
        ensures err { OnErr result (self.new ≡ self.old) }
    {
        let places = match self.places.take() {
            Some(places) => places,
            None if self.members.len() < FEW => return self.members.add(name, value),
            None => Box::new(self.alloc, places_of(self.alloc, &self.members)?)?,
        };
        self.places = Some(placed(self.alloc, &mut self.members, places, name, value)?);
        Ok(())
    }

    /// Replaces the value of a name that is there, in its place, and else adds the pair at the end.
    /// Refused only for want of memory.
    pub fn put(&mut self, name: Text, value: Value) -> Result<(), TreeFault>
        ensures ok { OnOk result (self.new ≡ put_member name (tree value) self.old) }
        ensures refused { IfErr result (λ e. e ≡ NoMemory) }
        ensures err { OnErr result (self.new ≡ self.old) }
    {
        let place = self.place(name.as_str());
        if place < self.members.len() {
            self.members.swap_in(place, value);
            return Ok(());
        }
        self.add(name, value)
    }

    /// The members, as they were put in, in memory of their size.
    pub fn finish(self) -> Members
        ensures { result ≡ self }
    {
        let mut members = self.members;
        members.fit();
        members
    }
}
