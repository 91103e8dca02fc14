//! What stands at a key of a table: a number, a text, a truth value, a table or a list of tables.
ghost use Rattle.std.specs.Prelude.{◌≡◌, map, option_map, IfOk, option_copied, Some};
ghost use Rattle.toml.specs.View.{view, table_view, items_view};
ghost use Rattle.toml.specs.Data.{get_member};
ghost use Rattle.sdf_model.specs.Keys.{is_kind};
ghost use Rattle.sdf_model.specs.Spelled.{number_if, text_if, truth_if};
ghost use Rattle.sdf_model.specs.Tree.{tables_at, table_at, tables_in, is_second, version_of};

use cargo_core::Memory;
use std::alloc::Global;
use toml::{Table, Value};

/// The value at a key.
pub(crate) fn value_at<'a>(table: &'a Table, key: &str) -> Option<&'a Value>
    ensures { option_map (λ v. view v.now) result ≡ get_member key.now (table_view table.now) }
{
    table.get(key)
}

/// The number at a key, if there is one.
pub(crate) fn number_if(table: &Table, key: &str) -> Option<u64>
    ensures { result ≡ number_if key.now (table_view table.now) }
{
    match value_at(table, key) {
        Some(value) => match value.as_integer() {
            Some(n) if n >= 0 => Some(n as u64),
            _ => None,
        },
        None => None,
    }
}

/// The version of a text, by its root table: 2 where it says so, and else 1.
#[tactic(auto, unfolding(crate::specs::Tree::version_of))]
pub(crate) fn version_of(root: &Table) -> u64
    ensures { result ≡ version_of (table_view root.now) }
{
    if is_second(root) { 2 } else { 1 }
}

/// Whether a text says that its version is 2.
fn is_second(root: &Table) -> bool
    ensures { result ≡ is_second (table_view root.now) }
{
    match value_at(root, "version") {
        Some(value) => value.as_integer().is_some_and(|n| n == 2),
        None => false,
    }
}

/// The text at a key, if there is one.
pub(crate) fn text_if<'a>(table: &'a Table, key: &str) -> Option<&'a str>
    ensures { option_copied result ≡ text_if key.now (table_view table.now) }
{
    match value_at(table, key) {
        Some(value) => value.as_str(),
        None => None,
    }
}

/// The truth value at a key, if there is one.
pub(crate) fn truth_if(table: &Table, key: &str) -> Option<bool>
    ensures { result ≡ truth_if key.now (table_view table.now) }
{
    match value_at(table, key) {
        Some(value) => value.as_bool(),
        None => None,
    }
}

/// The table at a key, if there is one.
pub(crate) fn table_at<'a>(table: &'a Table, key: &str) -> Option<&'a Table>
    ensures { option_map (λ t. table_view t.now) result ≡ table_at key.now (table_view table.now) }
{
    match value_at(table, key) {
        Some(value) => value.as_table(),
        None => None,
    }
}

/// The elements of the list at a key: its tables, where it holds nothing else.
pub(crate) fn tables_at<'a>(
    alloc: Global,
    table: &'a Table,
    key: &str,
) -> Result<Vec<&'a Table>, Memory>
    ensures { IfOk result (λ v. map (λ t. table_view t.now) v.items
        ≡ tables_at key.now (table_view table.now)) }
{
    match value_at(table, key) {
        Some(value) => match value.as_array() {
            Some(items) => tables_in(alloc, items),
            None => Ok(Vec::new(alloc)),
        },
        None => Ok(Vec::new(alloc)),
    }
}

/// The tables of a list, where it holds nothing else.
fn tables_in<'a>(alloc: Global, items: &'a [Value]) -> Result<Vec<&'a Table>, Memory>
    ensures { IfOk result (λ v. map (λ t. table_view t.now) v.items
        ≡ tables_in (Some (items_view items.now))) }
{
    let mut tables = Vec::with_capacity(alloc, items.len())?;
    for item in items {
        match item.as_table() {
            Some(table) => tables.push(table)?,
            None => return Ok(Vec::new(alloc)),
        }
    }
    Ok(tables)
}
