//! Commands with a type or an operator, which are passed by their numbers.
ghost use Rattle.std.specs.Prelude.{option_and_then, option_map};
ghost use Rattle.rhai_host.specs.Content.{content};
ghost use Rattle.rhai_run.specs.declared.command.Command.TheVariants as command;
ghost use Rattle.rhai_run.specs.declared.command.Question.TheVariants as question;
ghost use Rattle.rhai_host.specs.Calls.{PerformsIf, PerformsSaid};
ghost use Rattle.rhai_host.specs.Names.{name_at, place_at};
ghost use Rattle.rhai_host.specs.Numbers.{operator_of, type_of};

use crate::handle::Handle;
use crate::numbers::{operator_of, type_of};
use crate::perform::{no_command, perform, perform_at, perform_named};
use crate::told::Told;
use rhai_run::Question;
use rhai_text::Token;
use rhai_value::TypeId;
use std::alloc::Global;

/// Appends the value at the hand position cast to this type, copied without its holders.
#[unsafe(no_mangle)]
pub extern "C" fn rhai_host_cast(
    alloc: Global,
    handle: &mut Handle,
    i: usize,
    kind: u32,
    told: &mut Told,
) -> u32
    ensures { PerformsSaid result (content handle.old) (content handle.new) told.old told.new (option_map (λ t. command.Cast i t) (type_of kind)) }
{
    match type_of(kind) {
        Some(kind) => perform(alloc, handle, told, |world| world.cast(i, kind)),
        None => no_command(handle),
    }
}

/// Returns whether this type is held at the hand position.
#[unsafe(no_mangle)]
pub extern "C" fn rhai_host_is_held(
    alloc: Global,
    handle: &mut Handle,
    i: usize,
    kind: u32,
    told: &mut Told,
) -> u32
    ensures { PerformsSaid result (content handle.old) (content handle.new) told.old told.new (option_map (λ t. command.Ask i (question.Held t)) (type_of kind)) }
{
    match type_of(kind) {
        Some(kind) => perform(
            alloc,
            handle,
            told,
            |world| world.ask(i, &Question::Held(kind)),
        ),
        None => no_command(handle),
    }
}

/// Returns whether the value at the hand position is of this type: by its variant, or for a holder
/// by the held type.
#[unsafe(no_mangle)]
pub extern "C" fn rhai_host_is_type(
    alloc: Global,
    handle: &mut Handle,
    i: usize,
    kind: u32,
    told: &mut Told,
) -> u32
    ensures { PerformsSaid result (content handle.old) (content handle.new) told.old told.new (option_map (λ t. command.Ask i (question.Is t)) (type_of kind)) }
{
    match type_of(kind) {
        Some(kind) => perform(
            alloc,
            handle,
            told,
            |world| world.ask(i, &Question::Is(kind)),
        ),
        None => no_command(handle),
    }
}

/// Appends the operator's result for the values at the two hand positions.
#[unsafe(no_mangle)]
pub extern "C" fn rhai_host_binary(
    alloc: Global,
    handle: &mut Handle,
    operator: u32,
    i: usize,
    j: usize,
    told: &mut Told,
) -> u32
    ensures { PerformsSaid result (content handle.old) (content handle.new) told.old told.new (option_map (λ op. command.Binary op i j) (operator_of operator)) }
{
    match operator_of(operator) {
        Some(operator) => perform(alloc, handle, told, |world| world.binary(operator, i, j)),
        None => no_command(handle),
    }
}

fn assign(
    alloc: Global,
    handle: &mut Handle,
    operator: Token,
    is_entry: bool,
    at: usize,
    j: usize,
    told: &mut Told,
) -> u32
    ensures { PerformsIf result (content handle.old) (content handle.new) told.old told.new (λ k. option_map (λ p. command.Assign operator p j) (place_at k is_entry at)) }
{
    perform_at(
        alloc,
        handle,
        is_entry,
        at,
        told,
        |world, place| world.assign(operator, place, j),
    )
}

/// Applies the operator's assignment to the value at the place and the value at the hand position.
#[unsafe(no_mangle)]
pub extern "C" fn rhai_host_assign(
    alloc: Global,
    handle: &mut Handle,
    operator: u32,
    is_entry: bool,
    at: usize,
    j: usize,
    told: &mut Told,
) -> u32
    ensures { PerformsIf result (content handle.old) (content handle.new) told.old told.new (λ k. option_and_then (λ op. option_map (λ p. command.Assign op p j) (place_at k is_entry at)) (operator_of operator)) }
{
    match operator_of(operator) {
        Some(operator) => assign(alloc, handle, operator, is_entry, at, j, told),
        None => no_command(handle),
    }
}

fn get_value(alloc: Global, handle: &mut Handle, name: usize, kind: TypeId, told: &mut Told) -> u32
    ensures { PerformsIf result (content handle.old) (content handle.new) told.old told.new (λ k. option_map (λ n. command.GetValue n kind) (name_at k name)) }
{
    perform_named(
        alloc,
        handle,
        name,
        told,
        |world, name| world.get_value(name, kind),
    )
}

/// Appends the value of the newest entry with the name cast to this type, copied without its
/// holders; returns nothing if there is no such value.
#[unsafe(no_mangle)]
pub extern "C" fn rhai_host_get_value(
    alloc: Global,
    handle: &mut Handle,
    name: usize,
    kind: u32,
    told: &mut Told,
) -> u32
    ensures { PerformsIf result (content handle.old) (content handle.new) told.old told.new (λ k. option_and_then (λ t. option_map (λ n. command.GetValue n t) (name_at k name)) (type_of kind)) }
{
    match type_of(kind) {
        Some(kind) => get_value(alloc, handle, name, kind, told),
        None => no_command(handle),
    }
}

fn get_ref(alloc: Global, handle: &mut Handle, name: usize, kind: TypeId, told: &mut Told) -> u32
    ensures { PerformsIf result (content handle.old) (content handle.new) told.old told.new (λ k. option_map (λ n. command.GetRef n kind) (name_at k name)) }
{
    perform_named(
        alloc,
        handle,
        name,
        told,
        |world, name| world.get_ref(name, kind),
    )
}

/// Appends a copy of the newest entry's own value as a reference of this type; returns nothing if
/// there is no such value.
#[unsafe(no_mangle)]
pub extern "C" fn rhai_host_get_ref(
    alloc: Global,
    handle: &mut Handle,
    name: usize,
    kind: u32,
    told: &mut Told,
) -> u32
    ensures { PerformsIf result (content handle.old) (content handle.new) told.old told.new (λ k. option_and_then (λ t. option_map (λ n. command.GetRef n t) (name_at k name)) (type_of kind)) }
{
    match type_of(kind) {
        Some(kind) => get_ref(alloc, handle, name, kind, told),
        None => no_command(handle),
    }
}

fn remove(alloc: Global, handle: &mut Handle, name: usize, kind: TypeId, told: &mut Told) -> u32
    ensures { PerformsIf result (content handle.old) (content handle.new) told.old told.new (λ k. option_map (λ n. command.Remove n kind) (name_at k name)) }
{
    perform_named(
        alloc,
        handle,
        name,
        told,
        |world, name| world.remove(name, kind),
    )
}

/// Removes the newest entry with the name, and appends its value cast to this type, without its
/// holders; returns nothing if there is no such value.
#[unsafe(no_mangle)]
pub extern "C" fn rhai_host_remove(
    alloc: Global,
    handle: &mut Handle,
    name: usize,
    kind: u32,
    told: &mut Told,
) -> u32
    ensures { PerformsIf result (content handle.old) (content handle.new) told.old told.new (λ k. option_and_then (λ t. option_map (λ n. command.Remove n t) (name_at k name)) (type_of kind)) }
{
    match type_of(kind) {
        Some(kind) => remove(alloc, handle, name, kind, told),
        None => no_command(handle),
    }
}
