ghost use Rattle.std.specs.Prelude.{◌≡◌, map, option_map};
ghost use Rattle.serde_json.specs.View.{view};
ghost use Rattle.rule_text.specs.Fields.{given, list_in, items_at, text_at, number_at, truth_at};

use serde_json::Value;

/// A field that is neither absent nor null.
pub fn optional<'a>(value: &'a Value, name: &str) -> Option<&'a Value>
    ensures { option_map (λ v. view v.now) result ≡ given name.now (view value.now) }
{
    match value.get(name) {
        Some(field) if !field.is_null() => Some(field),
        _ => None,
    }
}

/// The items of a list, none where the value is no list.
#[tactic(auto, using(crate::proofs::Lists::list_of_items))]
pub fn list<'a>(value: &'a Value) -> Option<&'a [Value]>
    ensures { option_map (λ items. map view items.now) result ≡ list_in (view value.now) }
{
    match value.as_array() {
        Some(items) => Some(items.as_slice()),
        None => None,
    }
}

/// The items of a list, none where it is absent or no list.
pub fn items_of<'a>(value: &'a Value, name: &str) -> &'a [Value]
    ensures { map view result.now ≡ items_at name.now (view value.now) }
{
    match value.get(name) {
        Some(field) => match list(field) {
            Some(items) => items,
            None => &[],
        },
        None => &[],
    }
}

/// The text of a field, empty where it is absent or no text.
pub fn text_of<'a>(value: &'a Value, name: &str) -> &'a str
    ensures { result.now ≡ text_at name.now (view value.now) }
{
    match value.get(name) {
        Some(field) => match field.as_str() {
            Some(text) => text,
            None => "",
        },
        None => "",
    }
}

/// The number of a field, 0 where it is absent or no whole number below 2^32.
pub fn number_of(value: &Value, name: &str) -> u32
    ensures { result ≡ number_at name.now (view value.now) }
{
    match value.get(name) {
        Some(field) => match field.as_u64() {
            Some(number) if number < 4_294_967_296 => number as u32,
            _ => 0,
        },
        None => 0,
    }
}

/// The truth value of a field, false where it is absent or none.
pub fn truth_of(value: &Value, name: &str) -> bool
    ensures { result ≡ truth_at name.now (view value.now) }
{
    match value.get(name) {
        Some(field) => match field.as_bool() {
            Some(truth) => truth,
            None => false,
        },
        None => false,
    }
}
