//! The texts of names: of a name by its number, and of an entry of the scope.
ghost use Rattle.std.specs.Prelude.{◌≡◌, option_map};
ghost use Rattle.rhai_host.specs.Content.{content};
ghost use Rattle.rhai_host.specs.NameTexts.{IsFlag, IsToldText, TellsEntry, TellsName, shown_at};
ghost use Rattle.rhai_host.specs.Names.{name_at};

use crate::handle::Handle;
use crate::handle::kept::Kept;
use crate::perform::{CLOSED, DONE, NO_COMMAND, OUT_OF_MEMORY, keep};
use crate::told::Told;
use rhai_run::{Answer, Shown};
use std::alloc::Global;

fn tell_name(alloc: Global, kept: &mut Kept, number: usize, told: &mut Told) -> u32
    ensures { IsToldText result kept.old kept.new (name_at kept.old number) told.old told.new }
{
    let Some(name) = kept.names.get(number) else {
        return NO_COMMAND;
    };
    let Ok(text) = String::from_str(alloc, name.as_str()) else {
        return OUT_OF_MEMORY;
    };
    keep(&mut kept.answer, Answer::Text(Shown::from_text(text)), told);
    DONE
}

/// Returns the name of a number, as a text.
#[unsafe(no_mangle)]
pub extern "C" fn rhai_host_name_text(
    alloc: Global,
    handle: &mut Handle,
    number: usize,
    told: &mut Told,
) -> u32
    ensures { TellsName result (content handle.old) (content handle.new) number told.old told.new }
{
    let Some(mut kept) = handle.take(alloc) else {
        return CLOSED;
    };
    let status = tell_name(alloc, &mut kept, number, told);
    handle.put(kept);
    status
}

fn tell_entry(
    alloc: Global,
    kept: &mut Kept,
    i: usize,
    is_constant: &mut bool,
    told: &mut Told,
) -> u32
    ensures name { IsToldText result kept.old kept.new (option_map (λ e. e.0) (shown_at kept.old i)) told.old told.new }
    ensures constant { IsFlag result (shown_at kept.old i) is_constant.old is_constant.new }
{
    let scope = kept.world.scope();
    if i >= scope.len() {
        return NO_COMMAND;
    }
    let Ok(text) = String::from_str(alloc, scope.name_at(i).as_str()) else {
        return OUT_OF_MEMORY;
    };
    *is_constant = scope.at(i).is_read_only(kept.world.store());
    keep(&mut kept.answer, Answer::Text(Shown::from_text(text)), told);
    DONE
}

/// Returns the name of the entry at this position, counted from the oldest, as a text, and reports
/// whether the entry is a constant.
#[unsafe(no_mangle)]
pub extern "C" fn rhai_host_entry(
    alloc: Global,
    handle: &mut Handle,
    i: usize,
    is_constant: &mut bool,
    told: &mut Told,
) -> u32
    ensures { TellsEntry result (content handle.old) (content handle.new) i is_constant.old is_constant.new told.old told.new }
{
    let Some(mut kept) = handle.take(alloc) else {
        return CLOSED;
    };
    let status = tell_entry(alloc, &mut kept, i, is_constant, told);
    handle.put(kept);
    status
}
