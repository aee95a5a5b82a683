//! Runs in which an allocation fails, once or from then on: each continues as if none had failed,
//! or still reports the failure. `checks/alloc_failures/run` makes each allocation fail in turn.

use crate::runs::LIMITS;
use script_code::compile;
use script_run::{Outcome, Run};
use script_syntax::parse;
use std::alloc::{AllocError, Global};
use std::io::Eprint;
use std::test::Fail;

/// After this many failures a run still needs memory.
const MOST_REFUSALS: usize = 3;

/// Calls, closures and caught errors.
const CALLS: &str = "
fn deep(n) { if n == 0 { throw [\"bottom\", [n]] } deep(n - 1) }
try { deep(5) } catch (e) { print(e); }
try { [1][3] } catch (e) { print(e.message); }
let base = [10];
let add = |x, y| [x, y] + base;
print(add.curry(\"one\").call(2));
base.push(11);
print([1, 2].map(|x, i| [x, i]));
print([3, 1, 2].filter(|x| x > 1));
print([1, 2].reduce(|made, x| made + [x], base));
let sorted = [[3], [1], [2]];
sorted.sort(|x, y| x[0] - y[0]);
print(sorted);
";

const CALLS_PRINT: &str = "[\"bottom\", [0]]
index 3 out of range of 1
[\"one\", 2, 10]
[[1, 0], [2, 1]]
[3, 2]
[10, 11, 1, 2]
[[1], [2], [3]]
";

/// Values that are written, moved and appended.
const WRITES: &str = "
let map = #{first: [1], second: #{inner: [2]}};
map.third = [3];
map[\"fourth\"] = map.second;
map.second.inner[0] = \"two\";
map.second.inner += [4];
map.second.inner.push([5]);
map.mixin(#{fifth: [6]});
map.fill_with(#{first: [7], sixth: [8]});
print(map);
let items = [];
for c in \"abc\" { items.push([c]); }
items.insert(1, [0]);
items.append([[9]]);
items.splice(0, 1, [[1], [2]]);
items += [[7]];
print(items);
let text = \"ab\";
text += \"cd\";
text[0] = 'z';
text.pad(6, '-');
print(text);
";

const WRITES_PRINT: &str =
    "#{\"fifth\": [6], \"first\": [1], \"fourth\": #{\"inner\": [2]}, \"second\": #{\"inner\": [\"two\", 4, [5]]}, \"sixth\": [8], \"third\": [3]}
[[1], [2], [0], ['b'], ['c'], [9], [7]]
zbcd--
";

/// Whether a script prints this, whichever allocation of its run fails.
fn goes_on(rt: &impl Eprint, alloc: Global, text: &str, printed: &str) -> Result<bool, AllocError> {
    let Ok(script) = parse(alloc, text) else {
        return Err(AllocError);
    };
    let Ok(program) = compile(alloc, &script, &[]) else {
        return Err(AllocError);
    };
    let mut run = Run::new(alloc, &program, &LIMITS)?;
    let mut refusals = 0usize;
    for _ in 0..1_000 {
        match run.go(&program, 10) {
            Outcome::Memory if refusals < MOST_REFUSALS => {
                let _told = rt.eprintln(format_args!("refused: Run::go"));
                refusals = refusals.saturating_add(1);
            }
            Outcome::Memory => return Err(AllocError),
            Outcome::Paused => {}
            Outcome::Done(_) => return Ok(run.take_output().as_str() == printed),
            Outcome::Statement
            | Outcome::Calls(_)
            | Outcome::Fault(_)
            | Outcome::Answered(_)
            | Outcome::Refused(_) => return Ok(false),
        }
    }
    Ok(false)
}

#[test]
fn calls_go_on(rt: HostRuntime) -> Result<(), Fail> {
    let goes_on = goes_on(&rt, rt.alloc(), CALLS, CALLS_PRINT)?;
    assert!(rt; goes_on);
    Ok(())
}

#[test]
fn writes_go_on(rt: HostRuntime) -> Result<(), Fail> {
    let goes_on = goes_on(&rt, rt.alloc(), WRITES, WRITES_PRINT)?;
    assert!(rt; goes_on);
    Ok(())
}
