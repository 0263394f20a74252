ghost use Rattle.std.specs.Prelude.{◌≡◌, ◌≤◌, option_map, option_and_then, IfSome};
ghost use Rattle.serde_json.specs.Find.{as_number};
ghost use Rattle.serde_json.specs.View.{view, items_view, members_view};
ghost use Rattle.vr_base.specs.Checks.{result_map, value_of};
ghost use Rattle.vr_policy_read.specs.Faults.{GivesKind};
ghost use Rattle.vr_policy_read.specs.Limits.{most_policy};
ghost use Rattle.vr_policy_read.specs.Members.{member_value, required_value, required_text, whole_at_most, object_in, list_in, text_in};
ghost use Rattle.vr_policy_read.specs.Policies.{tree_within};

use crate::faults::{Member, ReadKind};
use serde_json::error::Category;
use serde_json::{Map, Value};
use std::alloc::Global;

/// The most bytes of a policy file.
pub const MOST_POLICY: usize = 4_194_304;

/// The members of a JSON object by their names. Of two with one name in the file the last is there.
pub type Object = Map<String, Value>;

/// The tree that a policy file spells in JSON.
pub fn tree(alloc: Global, bytes: &[u8]) -> Result<Value, ReadKind>
    ensures { GivesKind (result_map view result) (tree_within most_policy bytes.now) }
{
    if bytes.len() > MOST_POLICY {
        return Err(ReadKind::TooLong);
    }
    match Value::from_slice(alloc, bytes) {
        Ok(value) => Ok(value),
        Err(e) => match e.classify() {
            Category::Memory => Err(ReadKind::OutOfMemory),
            _ => Err(ReadKind::NotJson),
        },
    }
}

/// The value of a member of an object.
pub fn find(object: &Object, member: Member) -> Option<&Value>
    ensures { option_map (λ v. view v.now) result
        ≡ member_value member (members_view object.now.entries) }
{
    object.get(member.name())
}

/// The value of a member that has to be there.
pub fn required(object: &Object, member: Member) -> Result<&Value, ReadKind>
    ensures { GivesKind (result_map (λ v. view v.now) result)
        (required_value member (members_view object.now.entries)) }
{
    find(object, member).ok_or(ReadKind::Missing(member))
}

pub fn object(value: &Value, member: Member) -> Result<&Object, ReadKind>
    ensures { GivesKind (result_map (λ o. members_view o.now.entries) result)
        (object_in member (view value.now)) }
{
    value.as_object().ok_or(ReadKind::WrongKind(member))
}

pub fn list(value: &Value, member: Member) -> Result<&Vec<Value>, ReadKind>
    ensures { GivesKind (result_map (λ list. items_view list.now.items) result)
        (list_in member (view value.now)) }
{
    value.as_array().ok_or(ReadKind::WrongKind(member))
}

pub fn text(value: &Value, member: Member) -> Result<&str, ReadKind>
    ensures { GivesKind (value_of result) (text_in member (view value.now)) }
{
    value.as_str().ok_or(ReadKind::WrongKind(member))
}

/// The text of a member that has to be there.
pub fn required_text(object: &Object, member: Member) -> Result<&str, ReadKind>
    ensures { GivesKind (value_of result) (required_text member (members_view object.now.entries)) }
{
    text(required(object, member)?, member)
}

/// A whole number that is at most so much.
pub fn number_at_most(value: &Value, most: u64) -> Option<u64>
    ensures value { result ≡ option_and_then (whole_at_most most) (as_number (view value.now)) }
    ensures bound { IfSome result (λ n. n ≤ most) }
{
    value.as_u64().filter(|n| *n <= most)
}
