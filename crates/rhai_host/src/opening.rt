//! Opens, closes and inspects worlds, and keeps names.
ghost use Rattle.std.specs.Prelude.{◌≡◌, None, Some, true, false, length};
ghost use Rattle.rhai_host.specs.Content.{content};
ghost use Rattle.rhai_host.specs.Owned.{has};
ghost use Rattle.rhai_host.specs.Opened.{CollectsKept, GivesUp, IsCollected, IsGivenUp, IsNamed, Names, Opens, answer_bytes, copied_into, fault_text, hand_len, kept_bytes, refusal_text};
ghost use Rattle.rhai_host.specs.Names.{name_at};
ghost use Rattle.rhai_host.specs.Numbers.{text_of};

use crate::handle::Handle;
use crate::handle::kept::Kept;
use crate::perform::{CLOSED, DONE, NO_COMMAND, OUT_OF_MEMORY};
use crate::texts::text_of;
use rhai_run::{Answer, Refusal, World};
use rhai_text::{EvalAltResult, ImmutableString, Limits};
use script_engine::Engine;
use slab::Slab;
use std::alloc::Global;
use std::cmp::min;

/// Opens a world with these limits, 0 meaning no limit, and closes the one that was open before.
#[unsafe(no_mangle)]
pub extern "C" fn rhai_host_new(
    alloc: Global,
    handle: &mut Handle,
    text: usize,
    items: usize,
) -> u32
    ensures { Opens result (content handle.old) (content handle.new) (record { text = text; items = items }) }
{
    let kept = Kept {
        world: World::new(alloc, Limits { text, items }),
        names: Slab::new(alloc),
        answer: Answer::Done,
        engine: Engine::new(alloc),
    };
    match Box::new(alloc, kept) {
        Ok(kept) => {
            rhai_host_close(alloc, handle);
            handle.put(kept);
            DONE
        }
        Err(_) => OUT_OF_MEMORY,
    }
}

/// Closes the world, if one is open.
#[unsafe(no_mangle)]
pub extern "C" fn rhai_host_close(alloc: Global, handle: &mut Handle)
    ensures { content handle.new ≡ None }
{
    drop(handle.take(alloc));
}

/// Returns whether a world is open.
#[unsafe(no_mangle)]
pub extern "C" fn rhai_host_is_open(handle: &Handle) -> bool
    ensures { result ≡ has (content handle.now) }
{
    handle.is_open()
}

fn kept_name(kept: &mut Kept, name: ImmutableString, number: &mut usize) -> u32
    ensures { IsNamed result kept.old kept.new (Some name) number.old number.new }
{
    match kept.names.insert(name) {
        Ok(key) => {
            *number = key;
            DONE
        }
        Err(_) => OUT_OF_MEMORY,
    }
}

#[inline(always)]
fn named(alloc: Global, kept: &mut Kept, text: &[u8], number: &mut usize) -> u32
    ensures { IsNamed result kept.old kept.new (text_of text.now) number.old number.new }
{
    match text_of(alloc, text) {
        Ok(Some(name)) => kept_name(kept, name, number),
        Ok(None) => NO_COMMAND,
        Err(_) => OUT_OF_MEMORY,
    }
}

/// Assigns a number to a name, which commands use in its place. It only allocates a slot if no
/// freed number is available.
#[unsafe(no_mangle)]
pub extern "C" fn rhai_host_name(
    alloc: Global,
    handle: &mut Handle,
    text: &[u8],
    number: &mut usize,
) -> u32
    ensures { Names result (content handle.old) (content handle.new) text.now number.old number.new }
{
    let Some(mut kept) = handle.take(alloc) else {
        return CLOSED;
    };
    let status = named(alloc, &mut kept, text, number);
    handle.put(kept);
    status
}

/// Returns how many values are in the hand, 0 where no world is open.
#[unsafe(no_mangle)]
pub extern "C" fn rhai_host_hand_len(alloc: Global, handle: &mut Handle) -> usize
    ensures count { result ≡ hand_len (content handle.old) }
    ensures stays { content handle.new ≡ content handle.old }
{
    let Some(kept) = handle.take(alloc) else {
        return 0;
    };
    let count = kept.world.hand().len();
    handle.put(kept);
    count
}

fn fault_text(fault: &EvalAltResult, second: bool) -> &[u8]
    ensures { result.now ≡ fault_text fault.now second }
{
    match fault {
        EvalAltResult::ErrorMismatchDataType(wanted, found, _) => {
            if second {
                found.as_str().as_bytes()
            } else {
                wanted.as_str().as_bytes()
            }
        }
        EvalAltResult::ErrorDataRace(_)
        | EvalAltResult::ErrorArithmetic(_, _)
        | EvalAltResult::ErrorDataTooLarge(_, _)
        | EvalAltResult::ErrorMemory(_) => &[],
    }
}

fn refusal_text(why: &Refusal, second: bool) -> &[u8]
    ensures { result.now ≡ refusal_text why.now second }
{
    match why {
        Refusal::Mismatch(name) => {
            if second {
                &[]
            } else {
                name.as_str().as_bytes()
            }
        }
        Refusal::Fault(fault) => fault_text(fault, second),
        Refusal::NoValue
        | Refusal::SameValue
        | Refusal::NoEntry
        | Refusal::EmptyScope
        | Refusal::ConstantEntry
        | Refusal::SharedEntry
        | Refusal::NoMark
        | Refusal::WrongSource
        | Refusal::BitPlace
        | Refusal::BytePlace
        | Refusal::NoBuiltin
        | Refusal::NotHashable => &[],
    }
}

fn first_bytes(answer: &Answer) -> &[u8]
    ensures { result.now ≡ answer_bytes answer.now false }
{
    match answer {
        Answer::Text(text) => text.as_str().as_bytes(),
        Answer::Bytes(bytes) => bytes.as_slice(),
        Answer::Refused(why) => refusal_text(why, false),
        Answer::Done | Answer::Bool(_) | Answer::Int(_) | Answer::Pair(_, _) | Answer::Nothing => {
            &[]
        }
    }
}

fn second_bytes(answer: &Answer) -> &[u8]
    ensures { result.now ≡ answer_bytes answer.now true }
{
    match answer {
        Answer::Refused(why) => refusal_text(why, true),
        Answer::Text(_)
        | Answer::Bytes(_)
        | Answer::Done
        | Answer::Bool(_)
        | Answer::Int(_)
        | Answer::Pair(_, _)
        | Answer::Nothing => &[],
    }
}

fn answer_bytes(answer: &Answer, second: bool) -> &[u8]
    ensures { result.now ≡ answer_bytes answer.now second }
{
    if second {
        second_bytes(answer)
    } else {
        first_bytes(answer)
    }
}

fn copy_into(bytes: &[u8], room: &mut [u8])
    ensures { room.new ≡ copied_into bytes.now room.old }
{
    let count = min(bytes.len(), room.len());
    room[..count].copy_from_slice(&bytes[..count]);
}

/// Copies the bytes of the last text, bytes or refusal that was returned, or those of its second
/// name, as far as there is room; returns how many there are.
#[unsafe(no_mangle)]
pub extern "C" fn rhai_host_answer(
    alloc: Global,
    handle: &mut Handle,
    second: bool,
    room: &mut [u8],
) -> usize
    ensures count { result ≡ length (kept_bytes (content handle.old) second) }
    ensures bytes { room.new ≡ copied_into (kept_bytes (content handle.old) second) room.old }
    ensures stays { content handle.new ≡ content handle.old }
{
    let Some(kept) = handle.take(alloc) else {
        return 0;
    };
    let bytes = answer_bytes(&kept.answer, second);
    let count = bytes.len();
    copy_into(bytes, room);
    handle.put(kept);
    count
}

fn given_up(kept: &mut Kept, number: usize) -> u32
    ensures { IsGivenUp result kept.old kept.new number (name_at kept.old number) }
{
    match kept.names.try_remove(number) {
        Some(_) => DONE,
        None => NO_COMMAND,
    }
}

/// Frees the number of a name. A new name may get it.
#[unsafe(no_mangle)]
pub extern "C" fn rhai_host_forget_name(alloc: Global, handle: &mut Handle, number: usize) -> u32
    ensures { GivesUp result (content handle.old) (content handle.new) number }
{
    let Some(mut kept) = handle.take(alloc) else {
        return CLOSED;
    };
    let status = given_up(&mut kept, number);
    handle.put(kept);
    status
}

#[inline(always)]
fn collected(kept: &mut Kept) -> u32
    ensures { IsCollected result kept.old kept.new }
{
    match kept.world.collect() {
        Ok(()) => DONE,
        Err(_) => OUT_OF_MEMORY,
    }
}

/// Frees each unreachable cell.
#[unsafe(no_mangle)]
pub extern "C" fn rhai_host_collect(alloc: Global, handle: &mut Handle) -> u32
    ensures { CollectsKept result (content handle.old) (content handle.new) }
{
    let Some(mut kept) = handle.take(alloc) else {
        return CLOSED;
    };
    let status = collected(&mut kept);
    handle.put(kept);
    status
}

/// Returns how many bytes a handle takes.
#[unsafe(no_mangle)]
pub extern "C" fn rhai_host_handle_size() -> usize
    ensures { result ≡ 16 }
{
    Handle::size()
}

/// Returns the alignment of a handle.
#[unsafe(no_mangle)]
pub extern "C" fn rhai_host_handle_align() -> usize
    ensures { result ≡ 8 }
{
    Handle::align()
}
