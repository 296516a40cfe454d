// A value, built from tokens.
ghost use Rattle.std.specs.Prelude.{◌≡◌};
ghost use Rattle.json_tree.specs.Tree.{Tree};
ghost use Rattle.json_tree.specs.View.{tree};
ghost use Rattle.json_tree.specs.Dates.{whole_i64, date_of};
ghost use Rattle.json_text.specs.Grammar.{object_value};
ghost use Rattle.json_text.specs.Machine as machine;
ghost use Rattle.json_text.specs.View.{token_of};
ghost use Rattle.json_text.specs.BuilderState.{Makes, slot_of, outer_of, place_of, state_of};

use crate::token::lex::Token;
use crate::units::split_units;
use json_tree::{Items, Members, ObjectBuilder, Text, TreeFault, Value};
use std::alloc::{AllocFailed, Global};
use std::mem;

pub(crate) const MAX_LEVELS: usize = 32;

// Where a value goes.
#[derive(Drop)]
pub(crate) enum Slot {
    Whole,
    Element(Items),
    Named(ObjectBuilder, Text),
}

// What may stand next.
#[derive(Drop)]
pub(crate) enum Place {
    Want(Slot),
    FirstElement,
    AfterElement(Items),
    FirstName,
    Name(ObjectBuilder),
    Colon(ObjectBuilder, Text),
    AfterMember(ObjectBuilder),
    Complete(Value),
}

// Where the values of the levels that are open go, the innermost last, and what may stand next.
#[derive(Drop)]
pub(crate) struct Builder {
    outer: Vec<Slot>,
    pub(crate) place: Place,
}

// What a token did.
#[derive(Drop)]
pub(crate) enum Step {
    More,
    Done(Value),
}

#[derive(Clone, Copy, Debug)]
pub(crate) enum Kind {
    Syntax,
    TooDeep,
    OutOfRange,
}

#[derive(Clone, Copy, Debug)]
pub(crate) enum Refusal {
    Memory,
    Fault(Kind),
}

impl<T: Drop> From<AllocFailed<T>> for Refusal {
    ghost use Rattle.json_text.specs.declared.read.builder.Refusal.TheVariants.{Memory};
    ghost use Rattle.std.specs.Prelude.{◌≡◌};

    ghost from_gives = { λ _ e. e ≡ Memory };

    fn from(_refused: AllocFailed<T>) -> Refusal {
        Refusal::Memory
    }
}

impl From<TreeFault> for Refusal {
    ghost use Rattle.json_text.specs.declared.read.builder.Refusal.TheVariants.{Memory};
    ghost use Rattle.std.specs.Prelude.{◌≡◌};

    ghost from_gives = { λ _ e. e ≡ Memory };

    fn from(_refused: TreeFault) -> Refusal {
        Refusal::Memory
    }
}

fn whole_i64(units: i128) -> Option<i64>
    ensures { result ≡ whole_i64 units }
{
    let (whole, left) = split_units(units.unsigned_abs());
    if left != 0 {
        return None;
    }
    if units < 0 {
        if whole <= 0x8000_0000_0000_0000 {
            Some((-(whole as i128)) as i64)
        } else {
            None
        }
    } else if whole < 0x8000_0000_0000_0000 {
        Some(whole as i64)
    } else {
        None
    }
}

fn date_of(members: &Members) -> Option<i64>
    ensures { result ≡ date_of members.now }
{
    if members.len() != 1 {
        return None;
    }
    match members.pair(0) {
        Some((name, Value::Num(n))) => {
            if name.as_str() == "$date" {
                whole_i64(n.units())
            } else {
                None
            }
        }
        _ => None,
    }
}

pub(crate) fn object_value(members: Members) -> Value
    ensures { tree result ≡ object_value members }
{
    match date_of(&members) {
        Some(date) => Value::Date(date),
        None => Value::Object(members),
    }
}

fn take_end(value: Value, token: Token) -> Result<Step, Refusal>
    ensures { (next : machine.State Tree) → Makes result next (machine.step_complete (tree value) (token_of token)) }
{
    match token {
        Token::End => Ok(Step::Done(value)),
        _ => Err(Refusal::Fault(Kind::Syntax)),
    }
}

impl Builder {
    pub(crate) fn new(alloc: Global) -> Builder
        ensures { state_of result ≡ machine.start }
    {
        Builder {
            outer: Vec::new(alloc),
            place: Place::Want(Slot::Whole),
        }
    }

    fn deliver(&mut self, value: Value, slot: Slot) -> Result<Step, Refusal>
        ensures { Makes result (state_of self.new) (machine.deliver machine.trees (tree value) (slot_of slot) (outer_of self.old.outer.items)) }
    {
        match slot {
            Slot::Whole => self.place = Place::Complete(value),
            Slot::Element(elements) => {
                let mut elements = elements;
                elements.push(value)?;
                self.place = Place::AfterElement(elements);
            }
            Slot::Named(members, name) => {
                let mut members = members;
                members.put(name, value)?;
                self.place = Place::AfterMember(members);
            }
        }
        Ok(Step::More)
    }

    fn close(&mut self, value: Value) -> Result<Step, Refusal>
        ensures { Makes result (state_of self.new) (machine.close machine.trees (tree value) (outer_of self.old.outer.items)) }
    {
        match self.outer.pop() {
            Some(slot) => self.deliver(value, slot),
            None => Err(Refusal::Fault(Kind::Syntax)),
        }
    }

    fn open(&mut self, slot: Slot, place: Place) -> Result<Step, Refusal>
        ensures { Makes result (state_of self.new) (machine.opened machine.trees (slot_of slot) (outer_of self.old.outer.items) (place_of place)) }
    {
        if self.outer.len() >= MAX_LEVELS {
            return Err(Refusal::Fault(Kind::TooDeep));
        }
        self.outer.push(slot)?;
        self.place = place;
        Ok(Step::More)
    }

    fn take_value(&mut self, slot: Slot, token: Token) -> Result<Step, Refusal>
        ensures { Makes result (state_of self.new) (machine.step_value machine.trees (outer_of self.old.outer.items) (slot_of slot) (token_of token)) }
    {
        match token {
            Token::BeginObject => self.open(slot, Place::FirstName),
            Token::BeginArray => self.open(slot, Place::FirstElement),
            Token::String(text) => self.deliver(Value::Text(text), slot),
            Token::Number(Some(n)) => self.deliver(Value::Num(n), slot),
            Token::Number(None) => Err(Refusal::Fault(Kind::OutOfRange)),
            Token::Boolean(b) => self.deliver(Value::Bool(b), slot),
            Token::Null => self.deliver(Value::Null, slot),
            _ => Err(Refusal::Fault(Kind::Syntax)),
        }
    }

    fn take_first_element(&mut self, alloc: Global, token: Token) -> Result<Step, Refusal>
        ensures { Makes result (state_of self.new) (machine.step_first_element machine.trees (outer_of self.old.outer.items) (token_of token)) }
    {
        match token {
            Token::EndArray => self.close(Value::List(Items::new(alloc))),
            _ => self.take_value(Slot::Element(Items::new(alloc)), token),
        }
    }

    fn take_element(&mut self, elements: Items, token: Token) -> Result<Step, Refusal>
        ensures { Makes result (state_of self.new) (machine.step_element machine.trees (outer_of self.old.outer.items) elements (token_of token)) }
    {
        match token {
            Token::ValueSeparator => {
                self.place = Place::Want(Slot::Element(elements));
                Ok(Step::More)
            }
            Token::EndArray => self.close(Value::List(elements)),
            _ => Err(Refusal::Fault(Kind::Syntax)),
        }
    }

    fn take_first_name(&mut self, alloc: Global, token: Token) -> Result<Step, Refusal>
        ensures { Makes result (state_of self.new) (machine.step_first_name machine.trees (outer_of self.old.outer.items) (token_of token)) }
    {
        match token {
            Token::String(name) => {
                self.place = Place::Colon(ObjectBuilder::new(alloc), name);
                Ok(Step::More)
            }
            Token::EndObject => self.close(object_value(Members::new(alloc))),
            _ => Err(Refusal::Fault(Kind::Syntax)),
        }
    }

    fn take_name(&mut self, members: ObjectBuilder, token: Token) -> Result<Step, Refusal>
        ensures { Makes result (state_of self.new) (machine.step_name (outer_of self.old.outer.items) members (token_of token)) }
    {
        match token {
            Token::String(name) => {
                self.place = Place::Colon(members, name);
                Ok(Step::More)
            }
            _ => Err(Refusal::Fault(Kind::Syntax)),
        }
    }

    fn take_colon(
        &mut self,
        members: ObjectBuilder,
        name: Text,
        token: Token,
    ) -> Result<Step, Refusal>
        ensures { Makes result (state_of self.new) (machine.step_colon (outer_of self.old.outer.items) members name (token_of token)) }
    {
        match token {
            Token::NameSeparator => {
                self.place = Place::Want(Slot::Named(members, name));
                Ok(Step::More)
            }
            _ => Err(Refusal::Fault(Kind::Syntax)),
        }
    }

    fn take_member(&mut self, members: ObjectBuilder, token: Token) -> Result<Step, Refusal>
        ensures { Makes result (state_of self.new) (machine.step_member machine.trees (outer_of self.old.outer.items) members (token_of token)) }
    {
        match token {
            Token::ValueSeparator => {
                self.place = Place::Name(members);
                Ok(Step::More)
            }
            Token::EndObject => self.close(object_value(members.finish())),
            _ => Err(Refusal::Fault(Kind::Syntax)),
        }
    }

    // The token after these that were taken.
    #[tactic(auto, unfolding(crate::specs::Machine::step))]
    pub(crate) fn take(&mut self, alloc: Global, token: Token) -> Result<Step, Refusal>
        ensures { Makes result (state_of self.new) (machine.step machine.trees (state_of self.old) (token_of token)) }
    {
        match mem::replace(&mut self.place, Place::FirstElement) {
            Place::Want(slot) => self.take_value(slot, token),
            Place::FirstElement => self.take_first_element(alloc, token),
            Place::AfterElement(elements) => self.take_element(elements, token),
            Place::FirstName => self.take_first_name(alloc, token),
            Place::Name(members) => self.take_name(members, token),
            Place::Colon(members, name) => self.take_colon(members, name, token),
            Place::AfterMember(members) => self.take_member(members, token),
            Place::Complete(value) => take_end(value, token),
        }
    }
}
