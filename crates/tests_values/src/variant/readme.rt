//! The caller in the README.
ghost use Rattle.std.specs.Prelude.{◌≡◌, true, IfSome, IsNone};
ghost use Rattle.rhai_value.specs.declared.value.type_id.TypeId.TheVariants as type_id;
ghost use Rattle.rhai_value.specs.Types.{is_type};

use rhai_variant::Variant;
use std::alloc::Global;
use std::test::Fail;

/// Makes a script value and reads it again; only a `String` may fail to allocate.
pub fn there_and_back<T: Variant>(alloc: Global, x: T) -> Option<T>
    ensures same { IfSome result (λ y. T.tree y ≡ T.tree x) }
    ensures none { IsNone result → is_type T.KIND type_id.String ≡ true }
{
    let Ok(value) = x.into_dynamic(alloc) else {
        return None;
    };
    match T::from_dynamic(alloc, value) {
        Ok(y) => Some(y),
        Err(_) => None,
    }
}

/// Whether a text is unchanged by that.
fn is_back(alloc: Global, text: String) -> bool {
    match there_and_back(alloc, text) {
        Some(text) => text.as_str() == "a",
        None => false,
    }
}

#[test]
fn a_text_goes_there_and_back(rt: HostRuntime) -> Result<(), Fail> {
    let text = String::from_str(rt.alloc(), "a")?;
    assert!(rt; is_back(rt.alloc(), text));
    Ok(())
}
