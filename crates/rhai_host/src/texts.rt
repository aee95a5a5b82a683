//! New values from bytes, from characters, and from numbers of two words.
ghost use Rattle.std.specs.Prelude.{◌≡◌, Some, IfOk, OnErr, option_map};
ghost use Rattle.std.specs.Str.{chars};
ghost use Rattle.rhai_host.specs.Content.{content};
ghost use Rattle.rhai_run.specs.declared.command.Command.TheVariants as command;
ghost use Rattle.rhai_run.specs.declared.command.Literal.TheVariants as literal;
ghost use Rattle.rhai_value.specs.declared.value.host.Host.TheVariants as host;
ghost use Rattle.rhai_host.specs.Calls.{Performs, PerformsSaid};
ghost use Rattle.rhai_host.specs.Numbers.{char_of, text_of, wide, wide_signed};

use crate::handle::Handle;
use crate::perform::{no_command, out_of_memory, perform};
use crate::told::Told;
use rhai_run::{Bytes, Literal};
use rhai_text::ImmutableString;
use rhai_value::Host;
use std::alloc::{AllocError, Global};

/// Appends a `u128` of the host, passed as its lower and its upper 64 bits.
#[unsafe(no_mangle)]
pub extern "C" fn rhai_host_put_u128(
    alloc: Global,
    handle: &mut Handle,
    low: u64,
    high: u64,
    told: &mut Told,
) -> u32
    ensures { Performs result (content handle.old) (content handle.new) told.old told.new (command.Put (literal.Host (host.U128 (wide low high)))) }
{
    let n = u128::from(low) + (1 << 64) * u128::from(high);
    perform(
        alloc,
        handle,
        told,
        |world| world.put(&Literal::Host(Host::U128(n))),
    )
}

/// Appends an `i128` of the host, passed as the lower and the upper 64 bits of its two's
/// complement.
#[unsafe(no_mangle)]
pub extern "C" fn rhai_host_put_i128(
    alloc: Global,
    handle: &mut Handle,
    low: u64,
    high: u64,
    told: &mut Told,
) -> u32
    ensures { Performs result (content handle.old) (content handle.new) told.old told.new (command.Put (literal.Host (host.I128 (wide_signed low high)))) }
{
    let n = u128::from(low) + (1 << 64) * u128::from(high);
    perform(
        alloc,
        handle,
        told,
        |world| world.put(&Literal::Host(Host::I128(n.cast_signed()))),
    )
}

/// Returns the bytes as a text, if they are valid UTF-8.
pub(crate) fn text_in(bytes: &[u8]) -> Option<&str>
    ensures { option_map (λ t. chars t.now) result ≡ text_of bytes.now }
{
    match str::from_utf8(bytes) {
        Ok(text) => Some(text),
        Err(_) => None,
    }
}

/// Makes a text of bytes, if they are valid UTF-8.
pub(crate) fn text_of(alloc: Global, bytes: &[u8]) -> Result<Option<ImmutableString>, AllocError>
    ensures text { IfOk result (λ o. o ≡ text_of bytes.now) }
    ensures err { OnErr result (text_of bytes.now ≡ Some (chars bytes.now)) }
{
    let Ok(text) = str::from_utf8(bytes) else {
        return Ok(None);
    };
    match ImmutableString::from_str(alloc, text) {
        Ok(text) => Ok(Some(text)),
        Err(error) => Err(error),
    }
}

/// Appends a text of these bytes, which are UTF-8.
#[unsafe(no_mangle)]
pub extern "C" fn rhai_host_put_text(
    alloc: Global,
    handle: &mut Handle,
    text: &[u8],
    told: &mut Told,
) -> u32
    ensures { PerformsSaid result (content handle.old) (content handle.new) told.old told.new (option_map (λ t. command.Put (literal.Text t)) (text_of text.now)) }
{
    match text_of(alloc, text) {
        Ok(Some(text)) => perform(alloc, handle, told, |world| world.put(&Literal::Text(text))),
        Ok(None) => no_command(handle),
        Err(_) => out_of_memory(handle),
    }
}

fn bytes_of(alloc: Global, bytes: &[u8]) -> Result<Bytes, AllocError>
    ensures { IfOk result (λ b. b ≡ bytes.now) }
{
    let mut items = Vec::with_capacity(alloc, bytes.len())?;
    items.extend_from_slice(bytes)?;
    Ok(Bytes::new(items))
}

/// Appends a blob of these bytes.
#[unsafe(no_mangle)]
pub extern "C" fn rhai_host_put_blob(
    alloc: Global,
    handle: &mut Handle,
    bytes: &[u8],
    told: &mut Told,
) -> u32
    ensures { Performs result (content handle.old) (content handle.new) told.old told.new (command.Put (literal.Blob bytes.now)) }
{
    match bytes_of(alloc, bytes) {
        Ok(bytes) => perform(
            alloc,
            handle,
            told,
            |world| world.put(&Literal::Blob(bytes)),
        ),
        Err(_) => out_of_memory(handle),
    }
}

fn char_of(code: u32) -> Option<char>
    ensures { result ≡ char_of code }
{
    char::from_u32(code)
}

/// Appends the character with this code.
#[unsafe(no_mangle)]
pub extern "C" fn rhai_host_put_char(
    alloc: Global,
    handle: &mut Handle,
    code: u32,
    told: &mut Told,
) -> u32
    ensures { PerformsSaid result (content handle.old) (content handle.new) told.old told.new (option_map (λ c. command.Put (literal.Char c)) (char_of code)) }
{
    match char_of(code) {
        Some(character) => perform(
            alloc,
            handle,
            told,
            |world| world.put(&Literal::Char(character)),
        ),
        None => no_command(handle),
    }
}
