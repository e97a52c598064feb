//! The columns to which a user may assign values, by number from 0.
ghost use Rattle.std.specs.Prelude.{◌≡◌, ◌++◌, ◌<◌, [], ◌∷◌, not, filter, length, option_map, IfOk, OnOk, true, ◌&&◌};
ghost use Rattle.std.specs.Prelude.{nat_lt, false, IsTrue, ℤ, ◌+◌};
ghost use Rattle.std.specs.List.{range_with_len, list_all};
ghost use Rattle.tql_spec.specs.Creation.{has_number};
ghost use Rattle.tql_spec.specs.Datum.{Row};
ghost use Rattle.tql_spec.specs.Definition.{cell, with_generated};
ghost use Rattle.tql_spec.specs.Binding.{generated_columns};
ghost use Rattle.tql_catalog.specs.Definitions.{system_of};
ghost use Rattle.tql_catalog.specs.Rows.{has_system, numbers_repeat};

use crate::definition::System;
use std::alloc::AllocError;
use tql_memory::Memory;

/// Whether a column is generated.
pub(crate) fn is_generated(system: Option<System>, number: usize) -> bool
    ensures { result ≡ has_number number (generated_columns (option_map system_of system)) }
{
    match system {
        Some(system) => number == system.start || number == system.end,
        None => false,
    }
}

/// Adds the number of a column, if the column is not generated.
fn add_assignable(
    numbers: &mut Vec<usize, Memory>,
    system: Option<System>,
    number: usize,
) -> Result<(), AllocError>
    ensures { OnOk result (numbers.new.items ≡ numbers.old.items
        ++ filter (λ i. not (has_number i (generated_columns (option_map system_of system)))) (number ∷ [])) }
{
    if !is_generated(system, number) {
        numbers.push(number)?;
    }
    Ok(())
}

/// Returns the numbers of the columns that are not generated, among `width` columns.
pub(crate) fn assignable_numbers(
    memory: Memory,
    width: usize,
    system: Option<System>,
) -> Result<Vec<usize, Memory>, AllocError>
    ensures { IfOk result (λ numbers. numbers.items
        ≡ filter (λ i. not (has_number i (generated_columns (option_map system_of system)))) (range_with_len 0 width)) }
{
    let mut numbers = Vec::with_capacity(memory, width)?;
    for number in 0..width {
        add_assignable(&mut numbers, system, number)?;
    }
    Ok(numbers)
}

/// Returns the number of a column among the stored ones, from 0, in a table of `width` columns. The column must not be
/// generated.
pub(crate) fn stored_number(width: usize, system: Option<System>, column: usize) -> usize
    requires there { IsTrue (has_system (option_map system_of system) width) }
    requires stored { has_number column (generated_columns (option_map system_of system)) ≡ false }
    ensures { (cells : Row) (start end : ℤ)
        → length cells + length (generated_columns (option_map system_of system)) ≡ width
        → cell (with_generated (option_map system_of system) cells start end) column ≡ cell cells result }
{
    match system {
        Some(system) => match (system.start < column, system.end < column) {
            (false, false) => column,
            (true, false) => column - 1,
            (false, true) => column - 1,
            (true, true) => column - 2,
        },
        None => column,
    }
}

/// Whether a number occurs twice.
pub(crate) fn has_repeated(numbers: &[usize]) -> bool
    ensures { result ≡ numbers_repeat numbers.now }
{
    let mut left = numbers;
    while let [number, others @ ..] = left {
        if others.contains(number) {
            return true;
        }
        left = others;
    }
    false
}

/// Whether this is the number of one of `width` columns, and the column is not generated.
fn is_open(width: usize, system: Option<System>, number: usize) -> bool
    ensures { result ≡ (nat_lt number width
        && not (has_number number (generated_columns (option_map system_of system)))) }
{
    number < width && !is_generated(system, number)
}

/// Whether each of these is the number of one of `width` columns, and no column is generated.
pub(crate) fn are_open(width: usize, system: Option<System>, numbers: &[usize]) -> bool
    ensures { result ≡ list_all
        (λ i. nat_lt i width && not (has_number i (generated_columns (option_map system_of system)))) numbers.now }
{
    numbers.iter().all(|number| is_open(width, system, *number))
}
