//! Objects, member by member. What is made of a value for which there was no memory has none either.

ghost use Rattle.serde_json.specs.Data.{Data, Members, object, no_members};
ghost use Rattle.wac_parser_print.specs.Objects.{Gives, GivesMember, GivesMembers, GivesTwo};
ghost use Rattle.wac_parser_print.specs.Objects as objects;

use serde_json::{Map, Value, put};
use std::alloc::{AllocError, Global};

/// An object that is being made: its members, where there was memory for them.
#[derive(Drop)]
pub(crate) struct Object {
    alloc: Global,
    members: Result<Map<String, Value>, AllocError>,
}

/// These members and one more.
fn added(
    alloc: Global,
    members: Result<Map<String, Value>, AllocError>,
    name: &str,
    value: Result<Value, AllocError>,
) -> Result<Map<String, Value>, AllocError>
    ensures { GivesMember members name.now value result }
{
    let value = value?;
    let mut members = members?;
    put(&mut members, alloc, name, value)?;
    Ok(members)
}

impl Object {
    /// An object with no member.
    pub(crate) fn new(alloc: Global) -> Self
        ensures { GivesMembers result.members no_members }
    {
        Object {
            alloc,
            members: Ok(Map::new(alloc)),
        }
    }

    /// The object with one member more.
    pub(crate) fn with(self, name: &str, value: Result<Value, AllocError>) -> Self
        ensures { GivesMember self.members name.now value result.members }
    {
        let Object { alloc, members } = self;
        Object {
            alloc,
            members: added(alloc, members, name, value),
        }
    }

    /// The object as a value.
    pub(crate) fn into_value(self) -> Result<Value, AllocError>
        ensures { (ms : Members) → GivesMembers self.members ms → Gives result (object ms) }
    {
        let Object { alloc: _, members } = self;
        Ok(Value::Object(members?))
    }
}

/// An object with the name of a variant and what it holds.
pub(crate) fn variant(
    alloc: Global,
    name: &str,
    contents: Result<Value, AllocError>,
) -> Result<Value, AllocError>
    ensures { (x : Data) → Gives contents x → Gives result (objects.variant name.now x) }
{
    Object::new(alloc).with(name, contents).into_value()
}

/// An object of two members.
pub(crate) fn pair(
    alloc: Global,
    first: &str,
    one: Result<Value, AllocError>,
    second: &str,
    other: Result<Value, AllocError>,
) -> Result<Value, AllocError>
    ensures { GivesTwo one other (objects.two first.now second.now) result }
{
    Object::new(alloc)
        .with(first, one)
        .with(second, other)
        .into_value()
}
