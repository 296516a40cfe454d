// A value at the front of a text, where one stands there, with no word on why none does.
ghost use Rattle.std.specs.Prelude.{◌≡◌, ◌<◌, [], ◌∷◌, length, IfSome};
ghost use Rattle.json_tree.specs.View.{tree};
ghost use Rattle.json_text.specs.Token.{string};
ghost use Rattle.json_text.specs.Lex.{token_at, tokens};
ghost use Rattle.json_text.specs.Machine as machine;
ghost use Rattle.json_text.specs.Ahead.{unblanked, IsFirst, IsScalarToken, GoesOn, BeginsWithValue, Closes, next_element_place, next_member_place};

use crate::read::builder::{MAX_LEVELS, object_value};
use crate::token::chars::{Front, after_blanks, front_of};
use crate::token::lex::{Token, numeral_token, short_numeral, word_token};
use crate::token::string::string_of;
use json_tree::{Items, Members, ObjectBuilder, Text, Value};
use std::alloc::Global;

// What follows this byte, where it is the first one that is no blank.
#[inline(always)]
fn after_byte(byte: u8, text: &str) -> Option<&str>
    ensures { IfSome result (λ rest. unblanked text.now ≡ byte ∷ rest.now) }
{
    match front_of(after_blanks(text)) {
        Front::Ascii(first, rest) if first == byte => Some(rest),
        _ => None,
    }
}

// The name at the front of a text, and what follows it.
#[inline(always)]
#[tactic(auto, unfolding(crate::specs::Lex::token_at))]
fn name_of(alloc: Global, text: &str) -> Option<(Text, &str)>
    ensures { IfSome result (λ p. IsFirst text.now (string p.0) p.1.now) }
{
    match front_of(after_blanks(text)) {
        Front::Ascii(b'"', rest) => match string_of(alloc, rest) {
            Ok(Some((name, after))) => Some((name, after)),
            _ => None,
        },
        _ => None,
    }
}

// A scalar at the front of a text that begins with no blank.
#[inline(always)]
#[tactic(auto, unfolding(crate::specs::Lex::token_at))]
fn scalar_of(alloc: Global, text: &str) -> Option<(Value, &str)>
    ensures { IfSome result (λ p. IsScalarToken (token_at text.now) (tree p.0) p.1.now) }
{
    match front_of(text) {
        Front::Ascii(b'"', rest) => match string_of(alloc, rest) {
            Ok(Some((content, after))) => Some((Value::Text(content), after)),
            _ => None,
        },
        Front::Ascii(b'0'..=b'9' | b'-', _) => match short_numeral(text) {
            Some((n, after)) => Some((Value::Num(n), after)),
            None => match numeral_token(text) {
                (Token::Number(Some(n)), after) => Some((Value::Num(n), after)),
                _ => None,
            },
        },
        Front::Ascii(b'a'..=b'z', _) => match word_token(text) {
            (Token::Boolean(b), after) => Some((Value::Bool(b), after)),
            (Token::Null, after) => Some((Value::Null, after)),
            _ => None,
        },
        _ => None,
    }
}

// A value, and what follows it.
#[cycle(quick)]
#[inline(always)]
fn value_of(alloc: Global, text: &str, levels: usize) -> Option<(Value, &str)>
    ensures { IfSome result (λ p. BeginsWithValue levels text.now (tree p.0) p.1.now) }
{
    let from = after_blanks(text);
    match front_of(from) {
        Front::Ascii(b'{', rest) if levels > 0 => object_of(alloc, rest, levels - 1),
        Front::Ascii(b'[', rest) if levels > 0 => list_of(alloc, rest, levels - 1),
        _ => scalar_of(alloc, from),
    }
}

// From behind a bracket, the elements.
#[cycle(quick)]
fn elements_of(alloc: Global, text: &str, levels: usize) -> Option<(Items, &str)>
    ensures { IfSome result (λ p. GoesOn levels machine.first_element text.now (machine.after_element p.0) p.1.now) }
{
    let mut elements = Items::new(alloc);
    let mut rest = text;
    'elements: loop {
        let (value, after) = value_of(alloc, rest, levels)?;
        let Ok(()) = elements.push(value) else {
            return None;
        };
        match after_byte(b',', after) {
            Some(next) => rest = next,
            None => {
                elements.fit();
                return Some((elements, after));
            }
        }
    }
}

// From behind a bracket, a list, and what follows its other bracket.
#[cycle(quick)]
fn list_of(alloc: Global, text: &str, levels: usize) -> Option<(Value, &str)>
    ensures { IfSome result (λ p. Closes machine.first_element levels text.now (tree p.0) p.1.now) }
{
    if let Some(rest) = after_byte(b']', text) {
        return Some((Value::List(Items::new(alloc)), rest));
    }
    let (elements, after) = elements_of(alloc, text, levels)?;
    let rest = after_byte(b']', after)?;
    Some((Value::List(elements), rest))
}

// A member, put into its object, and what follows it.
#[cycle(quick)]
#[inline(always)]
fn take_member<'a>(
    alloc: Global,
    members: &mut ObjectBuilder,
    text: &'a str,
    levels: usize,
) -> Option<&'a str>
    ensures goes { IfSome result (λ rest. GoesOn levels (next_member_place members.old) text.now (machine.after_member members.new) rest.now) }
    ensures more { IfSome result (λ _. 0 < length members.new) }
{
    let (name, named) = name_of(alloc, text)?;
    let wanting = after_byte(b':', named)?;
    let (value, after) = value_of(alloc, wanting, levels)?;
    let Ok(()) = members.put(name, value) else {
        return None;
    };
    Some(after)
}

// From behind a brace, the members.
#[cycle(quick)]
fn members_of(alloc: Global, text: &str, levels: usize) -> Option<(Members, &str)>
    ensures { IfSome result (λ p. GoesOn levels machine.first_name text.now (machine.after_member p.0) p.1.now) }
{
    let mut members = ObjectBuilder::new(alloc);
    let mut rest = text;
    'members: loop {
        let after = take_member(alloc, &mut members, rest, levels)?;
        match after_byte(b',', after) {
            Some(next) => rest = next,
            None => return Some((members.finish(), after)),
        }
    }
}

// From behind a brace, an object, and what follows its other brace.
#[cycle(quick)]
fn object_of(alloc: Global, text: &str, levels: usize) -> Option<(Value, &str)>
    ensures { IfSome result (λ p. Closes machine.first_name levels text.now (tree p.0) p.1.now) }
{
    if let Some(rest) = after_byte(b'}', text) {
        return Some((object_value(Members::new(alloc)), rest));
    }
    let (members, after) = members_of(alloc, text, levels)?;
    let rest = after_byte(b'}', after)?;
    Some((object_value(members), rest))
}

// The value that the whole text spells, where it spells one.
pub(crate) fn whole_value_of(alloc: Global, text: &str) -> Option<Value>
    ensures { IfSome result (λ v. machine.run machine.trees machine.start (tokens text.now) ≡ machine.built (tree v)) }
{
    let (value, rest) = value_of(alloc, text, MAX_LEVELS)?;
    match front_of(after_blanks(rest)) {
        Front::End => Some(value),
        _ => None,
    }
}
