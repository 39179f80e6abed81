//! Decodes a TOML tree into a draft.
ghost use Rattle.std.specs.Prelude.{◌≡◌, ◌++◌, codes, map, option_map, string_bytes, unwrap_or, IfOk, OnOk, Some};
ghost use Rattle.toml.specs.Data.{no_members};
ghost use Rattle.toml.specs.View.{table_view};
ghost use Rattle.panels.specs.Draft.{copies_by, draft_of, has_place, has_sound_model, items_from, name_of_copy, panel_of, repeat_of, size_by};
ghost use Rattle.panels.specs.Rules.{item_in, items_in};
ghost use Rattle.panels.specs.TableRules.{wrong_in_keys};
ghost use Rattle.panels.specs.Tree.{items_under, table_under, tables_in, texts_in, texts_by_key};

use crate::draft::{Draft, ItemDraft, PanelDraft};
use crate::fault::TreeFault;
use crate::index::name_indexes;
use crate::items::characters_in;
use crate::rules::{count_of, item_rules, panel_rules, top_rules, wrong_by};
use crate::tree::{
    has_array, has_integer, has_key, has_text, is_true_at, number_at, number_or, text_at,
    text_or_empty, value_at, values_at,
};
use std::alloc::{AllocError, Global};
use toml::Table;

/// Whether the table of an item has its row, its column, and its text or length.
fn has_place(table: &Table) -> bool
    ensures { result ≡ has_place (table_view table.now) }
{
    has_integer(table, "row")
        && has_integer(table, "col")
        && (has_text(table, "text") || has_integer(table, "length"))
}

/// Whether the `model` in the table of a panel is absent, or an integer.
fn has_sound_model(panel: &Table) -> bool
    ensures { result ≡ has_sound_model (table_view panel.now) }
{
    !has_key(panel, "model") || has_integer(panel, "model")
}

/// The name of a copy: the name that its table has, and the copy's number from 1 on.
fn name_of_copy(alloc: Global, stem: &str, copy: Option<u8>) -> Result<String, AllocError>
    ensures { IfOk result (λ name. string_bytes name ≡ name_of_copy stem.now copy) }
{
    match copy {
        Some(copy) => {
            let number = u16::from(copy) + 1;
            format!(in alloc; "{stem}.{number}")
        }
        None => String::from_str(alloc, stem),
    }
}

/// How many characters an item has: those of its text, or if it has none, as many as its `length` says.
fn size_by(text: Option<&str>, length: i64) -> i64
    ensures { result ≡ size_by (option_map (λ text. text.now) text.entry) length }
{
    match text {
        Some(text) => characters_in(text),
        None => length,
    }
}

/// The draft of a copy of an item, from the item's table, which has this index in its array; `array` is the key of that
/// array, `text`, `field` or `value`.
fn item_draft<'a>(
    alloc: Global,
    array: &str,
    index: usize,
    table: &'a Table,
    copy: Option<u8>,
) -> Result<ItemDraft<'a>, AllocError>
    ensures { IfOk result (λ item. item ≡ item_in array.now index (table_view table.now) copy) }
{
    let text = text_at(table, "text");
    let stem = text_or_empty(table, "name");
    Ok(ItemDraft {
        table,
        wrong: wrong_by(item_rules(array, table), table),
        index,
        copy,
        is_value: array == "value",
        is_named: has_text(table, "name"),
        is_placed: has_place(table),
        has_show: has_text(table, "show"),
        row: number_at(table, "row"),
        column: number_at(table, "col"),
        length: size_by(text, number_at(table, "length")),
        text,
        show: name_of_copy(alloc, text_or_empty(table, "show"), copy)?,
        stem,
        name: name_of_copy(alloc, stem, copy)?,
        label: text_or_empty(table, "label"),
        fill: text_or_empty(table, "fill"),
        bright: is_true_at(table, "bright"),
        numeric: is_true_at(table, "numeric"),
        hidden: is_true_at(table, "hidden"),
        required: is_true_at(table, "required"),
        marked: is_true_at(table, "marked"),
    })
}

/// The number of copies that a table asks for; `None` if it has no `repeat`.
fn copies_in(table: &Table) -> Option<u8>
    ensures { result ≡ repeat_of (table_view table.now) }
{
    let repeat = value_at(table, "repeat")?.as_integer()?;
    count_of(repeat)
}

/// Adds `count` copies of an item.
fn add_copies<'a>(
    alloc: Global,
    array: &str,
    index: usize,
    table: &'a Table,
    count: u8,
    items: &mut Vec<ItemDraft<'a>>,
) -> Result<(), AllocError>
    ensures { OnOk result (items.new.items ≡ items.old.items
        ++ map (item_in array.now index (table_view table.now)) (copies_by (Some count))) }
{
    for copy in 0..count {
        items.push(item_draft(alloc, array, index, table, Some(copy))?)?;
    }
    Ok(())
}

/// Adds the copies of an item, or the item alone if its table has no `repeat`.
fn add_items<'a>(
    alloc: Global,
    array: &str,
    index: usize,
    table: &'a Table,
    items: &mut Vec<ItemDraft<'a>>,
) -> Result<(), AllocError>
    ensures { OnOk result (items.new.items ≡ items.old.items ++ items_in array.now index (table_view table.now)) }
{
    match copies_in(table) {
        Some(count) => add_copies(alloc, array, index, table, count, items)?,
        None => items.push(item_draft(alloc, array, index, table, None)?)?,
    }
    Ok(())
}

/// The tables in an array of a panel; values of other types are left out.
fn tables_at<'a>(alloc: Global, panel: &'a Table, array: &str) -> Result<Vec<&'a Table>, AllocError>
    ensures { IfOk result (λ tables.
        map (λ table. table_view table.now) tables.items ≡ tables_in (items_under array.now (table_view panel.now))) }
{
    let mut tables = Vec::new(alloc);
    for value in values_at(panel, array) {
        if let Some(table) = value.as_table() {
            tables.push(table)?;
        }
    }
    Ok(tables)
}

/// The drafts of the items in a panel's array of texts, fields or values.
fn item_drafts<'a>(
    alloc: Global,
    panel: &'a Table,
    array: &str,
) -> Result<Vec<ItemDraft<'a>>, AllocError>
    ensures { IfOk result (λ items.
        items.items ≡ items_from (items_in array.now) 0 (tables_in (items_under array.now (table_view panel.now)))) }
{
    let tables = tables_at(alloc, panel, array)?;
    let mut items = Vec::new(alloc);
    for index in 0..tables.len() {
        add_items(alloc, array, index, tables[index], &mut items)?;
    }
    Ok(items)
}

/// The drafts of a panel's fields, and after these of its values.
fn field_drafts<'a>(alloc: Global, panel: &'a Table) -> Result<Vec<ItemDraft<'a>>, AllocError>
    ensures { IfOk result (λ items. items.items
        ≡ items_from (items_in (codes "field")) 0 (tables_in (items_under (codes "field") (table_view panel.now)))
        ++ items_from (items_in (codes "value")) 0 (tables_in (items_under (codes "value") (table_view panel.now)))) }
{
    let mut fields = item_drafts(alloc, panel, "field")?;
    let mut values = item_drafts(alloc, panel, "value")?;
    fields.append(&mut values)?;
    Ok(fields)
}

/// What is wrong with a panel's table of keys.
fn wrong_keys(keys: &Table) -> Option<TreeFault>
    ensures { result ≡ wrong_in_keys (table_view keys.now) }
{
    let are_texts = keys.values().all(|value| value.is_str());
    (!are_texts).then_some(TreeFault::BadKind)
}

/// The texts in a panel's table of keys, each with its key.
fn key_drafts<'a>(alloc: Global, keys: &'a Table) -> Result<Vec<(&'a str, &'a str)>, AllocError>
    ensures { IfOk result
        (λ found. map (λ key. (key.0.now, key.1.now)) found.items ≡ texts_by_key (table_view keys.now)) }
{
    let mut found = Vec::new(alloc);
    for (key, value) in keys {
        if let Some(panel) = value.as_str() {
            found.push((key.as_str(), panel))?;
        }
    }
    Ok(found)
}

/// A panel's table of keys, if it has one.
fn key_table<'a>(panel: &'a Table) -> Option<&'a Table>
    ensures { option_map (λ keys. table_view keys.now) result ≡ table_under (codes "keys") (table_view panel.now) }
{
    value_at(panel, "keys")?.as_table()
}

/// What is wrong with a table of keys; `None` if the panel has no such table.
fn wrong_in_table(keys: Option<&Table>) -> Option<TreeFault>
    ensures { result ≡ wrong_in_keys (unwrap_or (option_map (λ keys. table_view keys.now) keys.entry) no_members) }
{
    wrong_keys(keys?)
}

/// The texts in a table of keys, each with its key; none if the panel has no such table.
fn keys_in<'a>(
    alloc: Global,
    keys: Option<&'a Table>,
) -> Result<Vec<(&'a str, &'a str)>, AllocError>
    ensures { IfOk result (λ found.
        map (λ key. (key.0.now, key.1.now)) found.items
        ≡ texts_by_key (unwrap_or (option_map (λ keys. table_view keys.now) keys.entry) no_members)) }
{
    match keys {
        Some(keys) => key_drafts(alloc, keys),
        None => Ok(Vec::new(alloc)),
    }
}

fn panel_draft<'a>(alloc: Global, panel: &'a Table) -> Result<PanelDraft<'a>, AllocError>
    ensures { IfOk result (λ draft. draft ≡ panel_of (table_view panel.now)) }
{
    let keys = key_table(panel);
    Ok(PanelDraft {
        table: panel,
        wrong: wrong_by(panel_rules(panel), panel),
        is_named: has_text(panel, "name"),
        has_sound_model: has_sound_model(panel),
        has_otherwise: has_text(panel, "otherwise"),
        name: text_or_empty(panel, "name"),
        model: number_or(panel, "model", 2),
        otherwise: text_or_empty(panel, "otherwise"),
        cursor: text_at(panel, "cursor"),
        texts: item_drafts(alloc, panel, "text")?,
        fields: field_drafts(alloc, panel)?,
        asks: texts_at(alloc, panel, "asks")?,
        wrong_keys: wrong_in_table(keys),
        keys: keys_in(alloc, keys)?,
    })
}

fn panel_drafts<'a>(alloc: Global, top: &'a Table) -> Result<Vec<PanelDraft<'a>>, AllocError>
    ensures { IfOk result
        (λ panels. panels.items ≡ map panel_of (tables_in (items_under (codes "panel") (table_view top.now)))) }
{
    let mut panels = Vec::new(alloc);
    for value in values_at(top, "panel") {
        if let Some(table) = value.as_table() {
            panels.push(panel_draft(alloc, table)?)?;
        }
    }
    Ok(panels)
}

/// The texts in the array at a key, without values of other types; none if there is no array.
fn texts_at<'a>(alloc: Global, table: &'a Table, key: &str) -> Result<Vec<&'a str>, AllocError>
    ensures { IfOk result
        (λ texts. map (λ text. text.now) texts.items ≡ texts_in (items_under key.now (table_view table.now))) }
{
    let mut texts = Vec::new(alloc);
    for value in values_at(table, key) {
        if let Some(text) = value.as_str() {
            texts.push(text)?;
        }
    }
    Ok(texts)
}

impl<'a> Draft<'a> {
    /// The draft of a panel text, from its TOML tree.
    ///
    /// Err only if memory is refused.
    pub fn of(alloc: Global, top: &'a Table) -> Result<Draft<'a>, AllocError>
        ensures { IfOk result (λ draft. draft ≡ draft_of (table_view top.now)) }
    {
        let panels = panel_drafts(alloc, top)?;
        let (panel_names, field_names, copied_names) = name_indexes(alloc, panels.as_slice())?;
        Ok(Draft {
            table: top,
            wrong: wrong_by(top_rules(), top),
            has_start: has_text(top, "start"),
            has_lus: has_array(top, "lus"),
            start: text_or_empty(top, "start"),
            lus: texts_at(alloc, top, "lus")?,
            panels,
            panel_names,
            field_names,
            copied_names,
        })
    }
}
