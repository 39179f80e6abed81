//! The values of a table's keys.
ghost use Rattle.std.specs.Prelude.{◌≡◌, option_map, unwrap_or};
ghost use Rattle.toml.specs.View.{view, items_view, table_view};
ghost use Rattle.toml.specs.Data.{get_member};
ghost use Rattle.panels.specs.Draft.{has_array, has_number, has_text};
ghost use Rattle.panels.specs.Tree.{has_key, text_under, text_or_empty, number_under, number, is_set, items_under};

use toml::{Table, Value};

pub(crate) fn value_at<'a>(table: &'a Table, key: &str) -> Option<&'a Value>
    ensures { option_map (λ value. view value.now) result ≡ get_member key.now (table_view table.now) }
{
    table.get(key)
}

pub(crate) fn text_at<'a>(table: &'a Table, key: &str) -> Option<&'a str>
    ensures { option_map (λ text. text.now) result ≡ text_under key.now (table_view table.now) }
{
    value_at(table, key)?.as_str()
}

/// Whether a table has a key.
pub(crate) fn has_key(table: &Table, key: &str) -> bool
    ensures { result ≡ has_key key.now (table_view table.now) }
{
    value_at(table, key).is_some()
}

/// Whether there is a text at a key.
pub(crate) fn has_text(table: &Table, key: &str) -> bool
    ensures { result ≡ has_text key.now (table_view table.now) }
{
    text_at(table, key).is_some()
}

/// Whether there is an integer at a key.
pub(crate) fn has_integer(table: &Table, key: &str) -> bool
    ensures { result ≡ has_number key.now (table_view table.now) }
{
    integer_at(table, key).is_some()
}

/// Whether there is an array at a key.
pub(crate) fn has_array(table: &Table, key: &str) -> bool
    ensures { result ≡ has_array key.now (table_view table.now) }
{
    match value_at(table, key) {
        Some(value) => value.is_array(),
        None => false,
    }
}

/// The text at a key; empty if there is none.
pub(crate) fn text_or_empty<'a>(table: &'a Table, key: &str) -> &'a str
    ensures { result.now ≡ text_or_empty key.now (table_view table.now) }
{
    text_at(table, key).unwrap_or("")
}

pub(crate) fn integer_at(table: &Table, key: &str) -> Option<i64>
    ensures { result ≡ number_under key.now (table_view table.now) }
{
    value_at(table, key)?.as_integer()
}

/// The integer at a key; `other` if there is none.
pub(crate) fn number_or(table: &Table, key: &str, other: i64) -> i64
    ensures { result ≡ unwrap_or (number_under key.now (table_view table.now)) other }
{
    integer_at(table, key).unwrap_or(other)
}

/// The integer at a key; 0 if there is none.
pub(crate) fn number_at(table: &Table, key: &str) -> i64
    ensures { result ≡ number key.now (table_view table.now) }
{
    number_or(table, key, 0)
}

/// Whether the value at a key is true.
pub(crate) fn is_true_at(table: &Table, key: &str) -> bool
    ensures { result ≡ is_set key.now (table_view table.now) }
{
    matches!(value_at(table, key), Some(Value::Boolean(true)))
}

/// The values of the array at a key; none if there is no array.
pub(crate) fn values_at<'a>(table: &'a Table, key: &str) -> &'a [Value]
    ensures { items_view result.now ≡ items_under key.now (table_view table.now) }
{
    match value_at(table, key) {
        Some(Value::Array(values)) => values.as_slice(),
        _ => &[],
    }
}
