//! How a field of a plan is read from the table of its element, by the kind of the field.
ghost use Rattle.std.specs.Prelude.{◌≡◌, IfOk, map, option_map};
ghost use Rattle.toml.specs.View.{table_view};
ghost use Rattle.sdf_model.specs.Keys.{Row, row_of};
ghost use Rattle.sdf_model.specs.Spelled.{number_if, text_if, policy_at};
ghost use Rattle.sdf_model.specs.Fields.{number_in, text_in, truth_in};
ghost use Rattle.sdf_model.specs.Tree.{tables_at, table_at};

use crate::key::{Absent, BUDGET, Key};
use crate::tree::{number_if, table_at, tables_at, text_if, truth_if};
use cargo_core::{Memory, Series, Text};
use sdf_plan::Policy;
use std::alloc::Global;
use toml::Table;

/// A part of a plan, which the table of one element spells.
pub(crate) trait Part: Sized + Drop {
    ghost use Rattle.toml.specs.Data.{Members};

    ghost spelled: { Members → Self };

    fn read(alloc: Global, table: &Table) -> Result<Self, Memory>
        ensures { IfOk result (λ part. part ≡ spelled (table_view table.now)) };
}

/// What a field of a plan holds, which is read from a table by its key.
pub(crate) trait Field: Sized + Drop {
    ghost use Rattle.toml.specs.Data.{Members};

    ghost held: { Row → Members → Self };

    fn field(alloc: Global, table: &Table, key: &Key) -> Result<Self, Memory>
        ensures { IfOk result (λ x. x ≡ held (row_of key.now) (table_view table.now)) };
}

impl Field for u64 {
    ghost held = { number_in };

    fn field(alloc: Global, table: &Table, key: &Key) -> Result<u64, Memory> {
        match number_if(table, key.name) {
            Some(number) => Ok(number),
            None => match key.absent {
                Absent::Number(number) => Ok(number),
                Absent::Budget => Ok(number_if(table, BUDGET).unwrap_or(1000)),
                _ => Ok(0),
            },
        }
    }
}

impl Field for Option<u64> {
    ghost held = { λ key t. number_if key.name t };

    fn field(alloc: Global, table: &Table, key: &Key) -> Result<Option<u64>, Memory> {
        Ok(number_if(table, key.name))
    }
}

impl Field for Text {
    ghost held = { text_in };

    fn field(alloc: Global, table: &Table, key: &Key) -> Result<Text, Memory> {
        match text_if(table, key.name) {
            Some(text) => Text::new(alloc, text),
            None => match key.absent {
                Absent::Level => Text::new(alloc, "level"),
                _ => Text::new(alloc, ""),
            },
        }
    }
}

impl Field for Option<Text> {
    ghost held = { λ key t. text_if key.name t };

    fn field(alloc: Global, table: &Table, key: &Key) -> Result<Option<Text>, Memory> {
        match text_if(table, key.name) {
            Some(text) => Ok(Some(Text::new(alloc, text)?)),
            None => Ok(None),
        }
    }
}

impl Field for bool {
    ghost held = { truth_in };

    fn field(alloc: Global, table: &Table, key: &Key) -> Result<bool, Memory> {
        match truth_if(table, key.name) {
            Some(truth) => Ok(truth),
            None => Ok(key.absent == Absent::True),
        }
    }
}

impl Field for Policy {
    ghost held = { λ key t. policy_at key.name t };

    fn field(alloc: Global, table: &Table, key: &Key) -> Result<Policy, Memory> {
        match text_if(table, key.name) {
            Some(text) if text == "drop" => Ok(Policy::Drop),
            _ => Ok(Policy::Hold),
        }
    }
}

impl<T: Part> Field for Series<T> {
    ghost held = { λ key t. map T.spelled (tables_at key.name t) };

    fn field(alloc: Global, table: &Table, key: &Key) -> Result<Series<T>, Memory> {
        read_parts(alloc, &tables_at(alloc, table, key.name)?)
    }
}

impl<T: Part> Field for Option<T> {
    ghost held = { λ key t. option_map T.spelled (table_at key.name t) };

    fn field(alloc: Global, table: &Table, key: &Key) -> Result<Option<T>, Memory> {
        match table_at(table, key.name) {
            Some(part) => Ok(Some(T::read(alloc, part)?)),
            None => Ok(None),
        }
    }
}

/// The fields that are read by two, three and four keys. A part is read by these, and not by one
/// field after another, since each way out of a body drops what was read before it.
pub(crate) fn two<A: Field, B: Field>(
    alloc: Global,
    table: &Table,
    a: &Key,
    b: &Key,
) -> Result<(A, B), Memory>
    ensures { IfOk result (λ read. (read.0 ≡ A.held (row_of a.now) (table_view table.now))
        × (read.1 ≡ B.held (row_of b.now) (table_view table.now))) }
{
    let first = A::field(alloc, table, a)?;
    let second = B::field(alloc, table, b)?;
    Ok((first, second))
}

pub(crate) fn three<A: Field, B: Field, C: Field>(
    alloc: Global,
    table: &Table,
    a: &Key,
    b: &Key,
    c: &Key,
) -> Result<(A, B, C), Memory>
    ensures { IfOk result (λ read. (read.0 ≡ A.held (row_of a.now) (table_view table.now))
        × (read.1 ≡ B.held (row_of b.now) (table_view table.now))
        × (read.2 ≡ C.held (row_of c.now) (table_view table.now))) }
{
    let (first, second) = two(alloc, table, a, b)?;
    let third = C::field(alloc, table, c)?;
    Ok((first, second, third))
}

pub(crate) fn four<A: Field, B: Field, C: Field, D: Field>(
    alloc: Global,
    table: &Table,
    a: &Key,
    b: &Key,
    c: &Key,
    d: &Key,
) -> Result<(A, B, C, D), Memory>
    ensures { IfOk result (λ read. (read.0 ≡ A.held (row_of a.now) (table_view table.now))
        × (read.1 ≡ B.held (row_of b.now) (table_view table.now))
        × (read.2 ≡ C.held (row_of c.now) (table_view table.now))
        × (read.3 ≡ D.held (row_of d.now) (table_view table.now))) }
{
    let (first, second) = two(alloc, table, a, b)?;
    let (third, fourth) = two(alloc, table, c, d)?;
    Ok((first, second, third, fourth))
}

/// The parts that the tables of a list spell.
fn read_parts<T: Part>(alloc: Global, tables: &[&Table]) -> Result<Series<T>, Memory>
    ensures { IfOk result (λ s. s ≡ map T.spelled (map (λ t. table_view t.now) tables.now)) }
{
    let mut parts = Vec::with_capacity(alloc, tables.len())?;
    for table in tables {
        parts.push(T::read(alloc, *table)?)?;
    }
    Ok(Series::from_vec(parts))
}
