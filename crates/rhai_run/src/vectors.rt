//! Moving values into, out of and between vectors.
ghost use Rattle.std.specs.Prelude.{◌≡◌, ◌<◌, ◌++◌, ◌+◌, ◌≤◌, slice_get, slice_set, vec_len, vec_capacity, Some, IfOk, OnOk, OnErr};
ghost use Rattle.rhai_run.specs.State.{last_values, values_before};

use rhai_value::Dynamic;
use std::alloc::AllocError;
use std::mem;

/// Takes a value out of its place, and leaves another.
pub(crate) fn replace_at(values: &mut Vec<Dynamic>, i: usize, left: Dynamic) -> Dynamic
    requires { i < vec_len values.old }
    ensures value { slice_get values.old.items i ≡ Some result }
    ensures after { values.new.items ≡ slice_set values.old.items i left }
    ensures len { vec_len values.new ≡ vec_len values.old }
    ensures capacity { vec_capacity values.new ≡ vec_capacity values.old }
{
    mem::replace(&mut values[i], left)
}

/// Removes the last values, and leaves room for one.
pub(crate) fn take_last(values: &mut Vec<Dynamic>, n: usize) -> Result<Vec<Dynamic>, AllocError>
    requires { n ≤ vec_len values.old }
    ensures taken { IfOk result (λ v. v.items ≡ last_values n values.old.items) }
    ensures left { OnOk result ((values.new.items ≡ values_before n values.old.items) × (vec_len values.new < vec_capacity values.new)) }
    ensures err { OnErr result (values.new.items ≡ values.old.items) }
{
    values.reserve(1)?;
    let before = values.len() - n;
    Ok(values.split_off(before)?)
}

/// Removes the last values; there is room to put them back.
pub(crate) fn split_last(values: &mut Vec<Dynamic>, n: usize) -> Result<Vec<Dynamic>, AllocError>
    requires { n ≤ vec_len values.old }
    ensures taken { IfOk result (λ v. v.items ≡ last_values n values.old.items) }
    ensures left { OnOk result (values.new.items ≡ values_before n values.old.items) }
    ensures room { IfOk result (λ v. vec_len values.new + vec_len v ≤ vec_capacity values.new) }
    ensures err { OnErr result (values.new.items ≡ values.old.items) }
{
    let before = values.len() - n;
    Ok(values.split_off(before)?)
}

/// Appends values, given enough capacity.
pub(crate) fn append_in_room(values: &mut Vec<Dynamic>, last: Vec<Dynamic>)
    requires { vec_len values.old + vec_len last ≤ vec_capacity values.old }
    ensures { values.new.items ≡ values.old.items ++ last.items }
{
    for value in last {
        values.push_reserved(value);
    }
}
