//! Objects of JSON that are built member by member. No function leaves early with values in hand, since each path on
//! which such a value is dropped has to be proved.

ghost use Rattle.std.specs.Prelude.{◌≡◌, ◌++◌, ◌∷◌, [], ℕ, Bool, IfOk, List, OnOk, map};
ghost use Rattle.output_pieces.specs.Objects.{HasMembers};
ghost use Rattle.serde_json.specs.Data.{Data, Members, boolean, no_members, number, object, string, unsigned};
ghost use Rattle.serde_json.specs.Data.{put as with_member};
ghost use Rattle.serde_json.specs.View.{members_view, view};

use serde_json::{Map, Value, put};
use std::alloc::{AllocError, Global};

/// An object with the members so far. Where there was no room for one, there is no object.
#[derive(Drop)]
pub struct ObjectBuilder {
    pub alloc: Global,
    pub members: Result<Map<String, Value>, AllocError>,
}

/// The members with one more.
fn added(
    alloc: Global,
    members: Result<Map<String, Value>, AllocError>,
    key: &str,
    value: Result<Value, AllocError>,
) -> Result<Map<String, Value>, AllocError>
    ensures { (before : Members) (is : Data) → IfOk members (λ found. members_view found.entries ≡ before)
        → IfOk value (λ own. view own ≡ is)
        → IfOk result (λ found. members_view found.entries ≡ with_member key.now is before) }
{
    let mut members = members?;
    let value = value?;
    put(&mut members, alloc, key, value)?;
    Ok(members)
}

impl ObjectBuilder {
    /// With no member.
    pub fn new(alloc: Global) -> ObjectBuilder
        ensures { HasMembers result no_members }
    {
        ObjectBuilder {
            alloc,
            members: Ok(Map::new(alloc)),
        }
    }

    /// With a member of this value, if there is room for the value.
    pub fn value(self, key: &str, value: Result<Value, AllocError>) -> ObjectBuilder
        ensures { (before : Members) (is : Data) → HasMembers self before → IfOk value (λ own. view own ≡ is)
            → HasMembers result (with_member key.now is before) }
    {
        let alloc = self.alloc;
        let members = added(alloc, self.members, key, value);
        ObjectBuilder { alloc, members }
    }

    /// With a member that is a number.
    pub fn number(self, key: &str, count: u64) -> ObjectBuilder
        ensures { (before : Members) (is : ℕ) → HasMembers self before → count ≡ is
            → HasMembers result (with_member key.now (number (unsigned is)) before) }
    {
        self.value(key, Ok(Value::from(count)))
    }

    /// With a member that is true or false.
    pub fn flag(self, key: &str, holds: bool) -> ObjectBuilder
        ensures { (before : Members) (is : Bool) → HasMembers self before → holds ≡ is
            → HasMembers result (with_member key.now (boolean is) before) }
    {
        self.value(key, Ok(Value::from(holds)))
    }

    /// With a member that is a text.
    pub fn text(self, key: &str, text: &str) -> ObjectBuilder
        ensures { (before : Members) (is : List ℕ) → HasMembers self before → text.now ≡ is
            → HasMembers result (with_member key.now (string is) before) }
    {
        let value = Value::try_from_str(self.alloc, text);
        self.value(key, value)
    }

    /// The whole object.
    pub fn build(self) -> Result<Value, AllocError>
        ensures { (members : Members) → HasMembers self members → IfOk result (λ value. view value ≡ object members) }
    {
        match self.members {
            Ok(members) => Ok(Value::Object(members)),
            Err(refused) => Err(refused),
        }
    }
}

/// Adds an item to those of an array.
pub fn add_item(values: &mut Vec<Value>, value: Result<Value, AllocError>) -> Result<(), AllocError>
    ensures { (is : Data) → IfOk value (λ own. view own ≡ is)
        → OnOk result (map view values.new.items ≡ map view values.old.items ++ is ∷ []) }
{
    let value = value?;
    values.push(value)?;
    Ok(())
}
