//! The keys of maps.
ghost use Rattle.std.specs.Prelude.{◌≡◌, ◌≤◌, ℕ, length, IfOk, IsOk, string_bytes};
ghost use Rattle.std.specs.Int.{w64, from_be_bytes};

use crate::map::sought::front_of;
use std::alloc::{AllocError, Global};
use std::marker::Model;
use std::str;

/// The most bytes of a key that is stored inline.
pub(crate) const SHORT_BYTES: usize = 30;

/// A key of a map. Up to 30 bytes are stored inline, without an allocation. Contracts see its
/// bytes.
/// rhai: `Identifier`, which is a `SmartString`.
#[derive(Drop)]
pub struct Key {
    form: KeyForm,
}

/// A short key inline, with its length, padded with zeros; a longer one in its own allocation.
#[derive(Drop)]
pub(crate) enum KeyForm {
    Short(u8, [u8; SHORT_BYTES]),
    Long(String),
}

impl Model for Key {
    ghost use Rattle.std.specs.Prelude.{ℕ, List};

    ghost Value = { List ℕ };

    ghost use Rattle.rhai_value.specs.Keys.{key_bytes, IsKey};

    ghost view = { λ k. key_bytes k.form };

    ghost invariant = { λ k. IsKey k.form };
}

impl Key {
    /// Makes a key from a text.
    /// Errors: for a text of more than 30 bytes, its allocation fails.
    /// Cost: the length of the text.
    #[inline(always)]
    pub fn from_str(alloc: Global, text: &str) -> Result<Key, AllocError>
        ensures value { IfOk result (λ k. k ≡ text.now) }
        ensures free { length text.now ≤ 30 → IsOk result }
    {
        if text.len() <= SHORT_BYTES {
            return Ok(Key::short(text));
        }
        let text = String::from_str(alloc, text)?;
        let form = KeyForm::Long(text);
        Ok(Key { form })
    }

    /// Makes a key from an owned text.
    /// Cost: no memory.
    #[inline(always)]
    pub fn from_string(text: String) -> Key
        ensures { result ≡ string_bytes text }
    {
        if text.len() <= SHORT_BYTES {
            return Key::short(text.as_str());
        }
        let form = KeyForm::Long(text);
        Key { form }
    }

    /// The key of a text of at most 30 bytes.
    #[inline(always)]
    fn short(text: &str) -> Key
        requires { length text.now ≤ 30 }
        ensures { result ≡ text.now }
    {
        let text = text.as_bytes();
        let mut bytes = [0; SHORT_BYTES];
        for i in 0..text.len() {
            bytes[i] = text[i];
        }
        let form = KeyForm::Short(text.len() as u8, bytes);
        Key { form }
    }

    /// Borrows the text.
    /// Cost: constant.
    #[inline(always)]
    pub fn as_str(&self) -> &str
        ensures { result.now ≡ self.now }
    {
        match &self.form {
            KeyForm::Short(len, bytes) => {
                let len = *len as usize;
                unsafe { str::from_utf8_unchecked(&bytes[..len]) }
            }
            KeyForm::Long(text) => text.as_str(),
        }
    }

    /// Converts the key into its text.
    /// Errors: for a text of up to 30 bytes, its allocation fails; a longer one is moved.
    /// Cost: the length of the text.
    pub fn into_string(self, alloc: Global) -> Result<String, AllocError>
        ensures { IfOk result (λ s. string_bytes s ≡ self) }
    {
        String::from_str(alloc, self.as_str())
    }

    /// The first eight bytes as a number, as in `front_of`.
    #[inline(always)]
    pub(crate) fn front(&self) -> u64
        ensures { result ≡ from_be_bytes w64 self.now }
    {
        match &self.form {
            KeyForm::Short(_, bytes) => u64::from_be_bytes([
                bytes[0], bytes[1], bytes[2], bytes[3], bytes[4], bytes[5], bytes[6], bytes[7],
            ]),
            KeyForm::Long(text) => front_of(text.as_str()),
        }
    }

    /// Copies the key.
    #[inline(always)]
    pub(crate) fn copy(&self) -> Result<Key, AllocError>
        ensures { IfOk result (λ k. k ≡ self.now) }
    {
        let form = match &self.form {
            KeyForm::Short(len, bytes) => KeyForm::Short(*len, *bytes),
            KeyForm::Long(text) => KeyForm::Long(text.clone()?),
        };
        Ok(Key { form })
    }
}
