//! The sizes of a value of many levels: values, characters, hash bytes.

use crate::shape::Shape;

/// How many of the levels are arrays of one item, maps, functions and arrays of three.
#[derive(Drop)]
struct Levels {
    arrays: usize,
    maps: usize,
    functions: usize,
    sides: usize,
}

fn levels_of(shape: Shape, depth: usize) -> Levels {
    let mut levels = Levels {
        arrays: 0,
        maps: 0,
        functions: 0,
        sides: 0,
    };
    match shape {
        Shape::Arrays => levels.arrays = depth,
        Shape::Maps => levels.maps = depth,
        Shape::Functions => levels.functions = depth,
        Shape::Mixed => {
            levels.arrays = depth.div_ceil(3);
            levels.maps = depth.saturating_sub(1).div_ceil(3);
            levels.functions = depth / 3;
        }
        Shape::Sides => levels.sides = depth,
    }
    levels
}

/// Adds up these amounts for each level, and for the int at the bottom.
fn sum(levels: &Levels, each: [usize; 4], bottom: usize) -> usize {
    let [array, map, function, sides] = each;
    levels
        .arrays
        .saturating_mul(array)
        .saturating_add(levels.maps.saturating_mul(map))
        .saturating_add(levels.functions.saturating_mul(function))
        .saturating_add(levels.sides.saturating_mul(sides))
        .saturating_add(bottom)
}

/// Returns the number of values: a level is one, plus two empty arrays if it has these on its
/// sides.
pub fn values(shape: Shape, depth: usize) -> usize {
    sum(&levels_of(shape, depth), [1, 1, 1, 3], 1)
}

/// The characters in debug format: `[..]`, `#{"k": ..}`, `Fn("f", ..)` and `[[], .., []]` around
/// the `7`.
pub fn debug_characters(shape: Shape, depth: usize) -> usize {
    sum(&levels_of(shape, depth), [2, 8, 9, 10], 1)
}

/// The characters in display format, which only differs for a function pointer: that is `Fn(f)`.
pub fn display_characters(shape: Shape, depth: usize) -> usize {
    let is_function = match shape {
        Shape::Arrays | Shape::Maps | Shape::Sides => false,
        Shape::Functions => true,
        Shape::Mixed => depth % 3 == 0,
    };
    if is_function {
        5
    } else {
        debug_characters(shape, depth)
    }
}

/// The hash bytes: a kind and a count of eight bytes, and nine more for a key or a name; an empty
/// array has nine, as the int has.
pub fn hash_bytes(shape: Shape, depth: usize) -> usize {
    sum(&levels_of(shape, depth), [9, 18, 18, 27], 9)
}
