//! The rules that are read on one element: on unknown keys, on missing ones, and on misfit values.
ghost use Rattle.std.specs.Prelude.{◌≡◌, ◌<◌, ◌≤◌, ◌++◌, ◌||◌, ◌==◌, if◌then◌else◌, [], map, not, ℕ};
ghost use Rattle.std.specs.Prelude.{None, Some, OnOk, IfErr, string_bytes};
ghost use Rattle.std.specs.List.{list_any};
ghost use Rattle.std.specs.Str.{bytes_eq};
ghost use Rattle.std.specs.BTreeMap.{keys as keys_in};
ghost use Rattle.toml.specs.View.{table_view};
ghost use Rattle.sdf_model.specs.Keys.{row_of, is_lacking, is_misfit, breaks_with};
ghost use Rattle.sdf_model.specs.Tree.{breaks};
ghost use Rattle.sdf_model.specs.Elements.{place_and_members, first_broken, Judged};

use crate::element::Element;
use crate::key::{self, Absent, Key};
use crate::kind::is_kind;
use crate::tree::value_at;
use sdf_plan::{Place, Refusal};
use toml::Table;

/// Judges the rules that are read on one element of a text of a version, each only where those
/// before it are kept.
pub(crate) fn judge(version: u64, elements: &[Element]) -> Result<(), Refusal>
    ensures kept { OnOk result ((n : ℕ) → 2 ≤ n → n ≤ 4
        → first_broken version n (map place_and_members elements.now) ≡ None) }
    ensures broken { IfErr result (Judged version (map place_and_members elements.now)) }
{
    for rule in 2..5 {
        if let Some(place) = first_broken(version, elements, rule) {
            return Err(Refusal { rule, place });
        }
    }
    Ok(())
}

/// The first element that breaks a rule.
fn first_broken(version: u64, elements: &[Element], rule: u8) -> Option<Place>
    ensures { result ≡ first_broken version rule (map place_and_members elements.now) }
{
    for element in elements {
        if breaks(version, rule, element.place, element.table) {
            return Some(element.place);
        }
    }
    None
}

/// Whether the table of an element of a text of a version breaks a rule.
fn breaks(version: u64, rule: u8, place: Place, table: &Table) -> bool
    ensures { result ≡ breaks version rule place (table_view table.now) }
{
    match place {
        Place::System => breaks_with(rule, &key::SYSTEM, &[], table),
        Place::Region(_) => breaks_with(rule, &key::REGION, &[], table),
        Place::Domain(_) => breaks_with(rule, &key::DOMAIN, &[], table),
        Place::Map(_, _) => breaks_with(rule, &key::MAP, &[], table),
        Place::Irq(_, _) => breaks_with(rule, &key::IRQ, &[], table),
        Place::Channel(_) => breaks_with(rule, &key::CHANNEL, &[], table),
        Place::End(_, _) => breaks_with(rule, &key::END, &[], table),
        Place::Net => breaks_with(rule, &key::NET, more(version, &key::NET_MORE), table),
        Place::NetClient(_) => {
            let added = more(version, &key::NET_CLIENT_MORE);
            breaks_with(rule, &key::NET_CLIENT, added, table)
        }
        Place::Serial => breaks_with(rule, &key::SERIAL, &[], table),
        Place::SerialClient(_) => breaks_with(rule, &key::SERIAL_CLIENT, &[], table),
        Place::Blk => breaks_with(rule, &key::BLK, &[], table),
        Place::BlkClient(_) => breaks_with(rule, &key::BLK_CLIENT, &[], table),
    }
}

/// The keys that version 2 adds, in a text of that version, and none in another.
fn more(version: u64, keys: &[Key]) -> &[Key]
    ensures { map row_of result.now ≡ (if version == 2 then map row_of keys.now else []) }
{
    if version == 2 {
        keys
    } else {
        keys.split_at(0).0
    }
}

/// Whether a table breaks a rule, where its element has these keys and some more.
#[tactic(auto, unfolding(crate::specs::Keys::breaks_with))]
fn breaks_with(rule: u8, keys: &[Key], more: &[Key], table: &Table) -> bool
    ensures { result ≡ breaks_with rule (map row_of keys.now ++ map row_of more.now)
        (table_view table.now) }
{
    match rule {
        2 => has_unknown_key(keys, more, table),
        3 => lacks_key(keys, more, table),
        4 => has_misfit(keys, more, table),
        _ => false,
    }
}

/// Whether a table has a key beside these.
fn has_unknown_key(keys: &[Key], more: &[Key], table: &Table) -> bool
    ensures { result
        ≡ list_any
        (λ name. not (list_any (λ key. bytes_eq key.name.now (string_bytes name)) keys.now
        || list_any (λ key. bytes_eq key.name.now (string_bytes name)) more.now))
        (keys_in table.now) }
{
    table
        .keys()
        .any(|name| !is_known(keys, more, name.as_str()))
}

fn is_known(keys: &[Key], more: &[Key], name: &str) -> bool
    ensures { result ≡ (list_any (λ key. bytes_eq key.name.now name.now) keys.now
        || list_any (λ key. bytes_eq key.name.now name.now) more.now) }
{
    is_named(keys, name) || is_named(more, name)
}

fn is_named(keys: &[Key], name: &str) -> bool
    ensures { result ≡ list_any (λ key. bytes_eq key.name.now name.now) keys.now }
{
    keys.iter().any(|key| key.name == name)
}

/// Whether a required key is missing.
fn lacks_key(keys: &[Key], more: &[Key], table: &Table) -> bool
    ensures { result
        ≡ (list_any (λ key. is_lacking (table_view table.now) (row_of key)) keys.now
        || list_any (λ key. is_lacking (table_view table.now) (row_of key)) more.now) }
{
    lacks_one(keys, table) || lacks_one(more, table)
}

fn lacks_one(keys: &[Key], table: &Table) -> bool
    ensures { result ≡ list_any (λ key. is_lacking (table_view table.now) (row_of key)) keys.now }
{
    keys.iter().any(|key| is_lacking(key, table))
}

fn is_lacking(key: &Key, table: &Table) -> bool
    ensures { result ≡ is_lacking (table_view table.now) (row_of key.now) }
{
    key.absent == Absent::Refused && value_at(table, key.name).is_none()
}

/// Whether a value isn't of its key's kind.
fn has_misfit(keys: &[Key], more: &[Key], table: &Table) -> bool
    ensures { result
        ≡ (list_any (λ key. is_misfit (table_view table.now) (row_of key)) keys.now
        || list_any (λ key. is_misfit (table_view table.now) (row_of key)) more.now) }
{
    has_one_misfit(keys, table) || has_one_misfit(more, table)
}

fn has_one_misfit(keys: &[Key], table: &Table) -> bool
    ensures { result ≡ list_any (λ key. is_misfit (table_view table.now) (row_of key)) keys.now }
{
    keys.iter().any(|key| is_misfit(key, table))
}

fn is_misfit(key: &Key, table: &Table) -> bool
    ensures { result ≡ is_misfit (table_view table.now) (row_of key.now) }
{
    match value_at(table, key.name) {
        Some(value) => !is_kind(value, key.kind),
        None => false,
    }
}
