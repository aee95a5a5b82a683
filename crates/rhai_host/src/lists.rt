//! Commands with a list of names, and with a text besides a name.
ghost use Rattle.std.specs.Prelude.{◌≡◌, ◌<◌, IfOk, OnErr, length, option_and_then, option_map};
ghost use Rattle.std.specs.Str.{chars};
ghost use Rattle.rhai_host.specs.Content.{content};
ghost use Rattle.rhai_run.specs.declared.command.Command.TheVariants as command;
ghost use Rattle.rhai_host.specs.Calls.{DoesOne, DoesOneMade, PerformsIf, PerformsMade};
ghost use Rattle.rhai_host.specs.Lists.{flagged_at, names_at};
ghost use Rattle.rhai_host.specs.Names.{name_at};
ghost use Rattle.rhai_host.specs.Numbers.{text_of};

use crate::handle::Handle;
use crate::handle::kept::Kept;
use crate::perform::{CLOSED, NO_COMMAND, NO_ROOM, Reply, no_command, perform_named};
use crate::texts::text_in;
use crate::told::Told;
use rhai_run::{FlaggedNames, Names};
use rhai_text::ImmutableString;
use slab::Slab;
use std::alloc::{AllocError, Global};

/// Copies the names with these numbers, if each number has one.
fn listed(
    alloc: Global,
    names: &Slab<ImmutableString>,
    numbers: &[usize],
) -> Result<Option<Vec<ImmutableString>>, AllocError>
    ensures ok { IfOk result (λ o. option_map (λ v. v.items) o ≡ names_at names.now numbers.now) }
    ensures err { OnErr result (0 < length numbers.now) }
{
    let mut found = Vec::new(alloc);
    let mut left = numbers;
    while let [number, rest @ ..] = left {
        let Some(name) = names.get(*number) else {
            return Ok(None);
        };
        found.push(name.copy(alloc)?)?;
        left = rest;
    }
    Ok(Some(found))
}

/// As `listed`, with a flag for each.
fn flagged(
    alloc: Global,
    names: &Slab<ImmutableString>,
    numbers: &[usize],
    flags: &[bool],
) -> Result<Option<Vec<(ImmutableString, bool)>>, AllocError>
    ensures ok { IfOk result (λ o. option_map (λ v. v.items) o ≡ flagged_at names.now numbers.now flags.now) }
    ensures err { OnErr result (0 < length numbers.now) }
{
    let mut found = Vec::new(alloc);
    let mut left = numbers;
    let mut flags_left = flags;
    while let [number, rest @ ..] = left {
        let [flag, more @ ..] = flags_left else {
            return Ok(None);
        };
        let Some(name) = names.get(*number) else {
            return Ok(None);
        };
        found.push((name.copy(alloc)?, *flag))?;
        left = rest;
        flags_left = more;
    }
    Ok(Some(found))
}

fn map_of(kept: &mut Kept, keys: &Names, told: &mut Told) -> u32
    ensures { DoesOne result kept.old kept.new told.old told.new (command.MakeMap keys.now) }
{
    let done = kept.world.make_map(keys);
    done.tell(&mut kept.answer, told)
}

fn made_map(alloc: Global, kept: &mut Kept, keys: &[usize], told: &mut Told) -> u32
    ensures { DoesOneMade result kept.old kept.new told.old told.new (0 < length keys.now) (option_map (λ ks. command.MakeMap ks) (names_at kept.old.names keys.now)) }
{
    match listed(alloc, &kept.names, keys) {
        Ok(Some(keys)) => map_of(kept, &Names::new(keys), told),
        Ok(None) => NO_COMMAND,
        Err(_) => NO_ROOM,
    }
}

/// Removes as many values from the end of the hand as there are keys, and appends the map from the
/// keys to these values, in order; for duplicate keys the last value counts.
#[unsafe(no_mangle)]
pub extern "C" fn rhai_host_make_map(
    alloc: Global,
    handle: &mut Handle,
    keys: &[usize],
    told: &mut Told,
) -> u32
    ensures { PerformsMade result (content handle.old) (content handle.new) told.old told.new (λ _. 0 < length keys.now) (λ k. option_map (λ ks. command.MakeMap ks) (names_at k.names keys.now)) }
{
    let Some(mut kept) = handle.take(alloc) else {
        return CLOSED;
    };
    let status = made_map(alloc, &mut kept, keys, told);
    handle.put(kept);
    status
}

fn extended_by(kept: &mut Kept, names: &Names, told: &mut Told) -> u32
    ensures { DoesOne result kept.old kept.new told.old told.new (command.Extend names.now) }
{
    let done = kept.world.extend(names);
    done.tell(&mut kept.answer, told)
}

fn extended(alloc: Global, kept: &mut Kept, names: &[usize], told: &mut Told) -> u32
    ensures { DoesOneMade result kept.old kept.new told.old told.new (0 < length names.now) (option_map (λ ns. command.Extend ns) (names_at kept.old.names names.now)) }
{
    match listed(alloc, &kept.names, names) {
        Ok(Some(names)) => extended_by(kept, &Names::new(names), told),
        Ok(None) => NO_COMMAND,
        Err(_) => NO_ROOM,
    }
}

/// Removes as many values from the end of the hand as there are names, and adds a writable entry
/// for each name and value.
#[unsafe(no_mangle)]
pub extern "C" fn rhai_host_extend(
    alloc: Global,
    handle: &mut Handle,
    names: &[usize],
    told: &mut Told,
) -> u32
    ensures { PerformsMade result (content handle.old) (content handle.new) told.old told.new (λ _. 0 < length names.now) (λ k. option_map (λ ns. command.Extend ns) (names_at k.names names.now)) }
{
    let Some(mut kept) = handle.take(alloc) else {
        return CLOSED;
    };
    let status = extended(alloc, &mut kept, names, told);
    handle.put(kept);
    status
}

fn extended_by_flagged(kept: &mut Kept, names: &FlaggedNames, told: &mut Told) -> u32
    ensures { DoesOne result kept.old kept.new told.old told.new (command.ExtendFlagged names.now) }
{
    let done = kept.world.extend_flagged(names);
    done.tell(&mut kept.answer, told)
}

fn extended_flagged(
    alloc: Global,
    kept: &mut Kept,
    names: &[usize],
    constants: &[bool],
    told: &mut Told,
) -> u32
    ensures { DoesOneMade result kept.old kept.new told.old told.new (0 < length names.now) (option_map (λ ns. command.ExtendFlagged ns) (flagged_at kept.old.names names.now constants.now)) }
{
    match flagged(alloc, &kept.names, names, constants) {
        Ok(Some(names)) => extended_by_flagged(kept, &FlaggedNames::new(names), told),
        Ok(None) => NO_COMMAND,
        Err(_) => NO_ROOM,
    }
}

/// Removes as many values from the end of the hand as there are names, and adds an entry for each
/// name and value; it is a constant if its flag is set.
#[unsafe(no_mangle)]
pub extern "C" fn rhai_host_extend_flagged(
    alloc: Global,
    handle: &mut Handle,
    names: &[usize],
    constants: &[bool],
    told: &mut Told,
) -> u32
    ensures { PerformsMade result (content handle.old) (content handle.new) told.old told.new (λ _. 0 < length names.now) (λ k. option_map (λ ns. command.ExtendFlagged ns) (flagged_at k.names names.now constants.now)) }
{
    let Some(mut kept) = handle.take(alloc) else {
        return CLOSED;
    };
    let status = extended_flagged(alloc, &mut kept, names, constants, told);
    handle.put(kept);
    status
}

fn aliased(alloc: Global, handle: &mut Handle, name: usize, alias: &str, told: &mut Told) -> u32
    ensures { PerformsIf result (content handle.old) (content handle.new) told.old told.new (λ k. option_map (λ n. command.SetAlias n (chars alias.now)) (name_at k name)) }
{
    perform_named(
        alloc,
        handle,
        name,
        told,
        |world, name| world.set_alias(name, alias),
    )
}

/// Gives the newest entry with the name this alias, unless it has it; an empty alias means the name
/// itself.
#[unsafe(no_mangle)]
pub extern "C" fn rhai_host_set_alias(
    alloc: Global,
    handle: &mut Handle,
    name: usize,
    alias: &[u8],
    told: &mut Told,
) -> u32
    ensures { PerformsIf result (content handle.old) (content handle.new) told.old told.new (λ k. option_and_then (λ a. option_map (λ n. command.SetAlias n a) (name_at k name)) (text_of alias.now)) }
{
    match text_in(alias) {
        Some(alias) => aliased(alloc, handle, name, alias, told),
        None => no_command(handle),
    }
}
