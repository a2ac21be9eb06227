// Members of JSON objects.
ghost use Rattle.std.specs.Prelude.{◌≡◌, OnOk};
ghost use Rattle.hex.specs.Hex.{encode_lower};
ghost use Rattle.serde_json.specs.Data.{string, put as with_member};
ghost use Rattle.serde_json.specs.View.{members_view};
ghost use Rattle.pd_ctl.specs.Trees.{count};

use pd_types::NoMemory;
use serde_json::{Map, Value, put};
use std::alloc::Global;

/// A text.
pub fn put_text(
    members: &mut Map<String, Value>,
    alloc: Global,
    name: &str,
    text: &str,
) -> Result<(), NoMemory>
    ensures { OnOk result (members_view members.new.entries
        ≡ with_member name.now (string text.now) (members_view members.old.entries)) }
{
    let value = Value::try_from_str(alloc, text)?;
    Ok(put(members, alloc, name, value)?)
}

/// A number.
pub fn put_count(
    members: &mut Map<String, Value>,
    alloc: Global,
    name: &str,
    number: u64,
) -> Result<(), NoMemory>
    ensures { OnOk result (members_view members.new.entries
        ≡ with_member name.now (count number) (members_view members.old.entries)) }
{
    Ok(put(members, alloc, name, Value::from(number))?)
}

/// A key, in hexadecimal digits.
pub fn put_key(
    members: &mut Map<String, Value>,
    alloc: Global,
    name: &str,
    key: &[u8],
) -> Result<(), NoMemory>
    ensures { OnOk result (members_view members.new.entries
        ≡ with_member name.now (string (encode_lower key.now)) (members_view members.old.entries)) }
{
    let digits = hex::encode(alloc, key)?;
    put_text(members, alloc, name, digits.as_str())
}
