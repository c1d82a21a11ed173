//! Paths, a fixed sequence of octets, and want of memory. All but the two tests of want of memory expect ample memory.

ghost use Rattle.std.specs.Prelude.{◌<◌, ◌≤◌, length};

use crate::made::{Row, raws};
use crate::octets::Octets;
use gw_insn::Raw;
use gw_verify::{Cause, Path, Program, explain, holds};
use std::alloc::{AllocError, Global};

/// `jeq #0, L1, L2` / `L1: st M[3]` / `L2: ld M[3]` / `ret a`.
const UNSET_ON_ONE_BRANCH: [Row; 4] = [(21, 0, 1, 0), (2, 0, 0, 3), (96, 0, 0, 3), (22, 0, 0, 0)];

/// `ja L` / `ld M[3]` / `L: ret #1`.
const UNREACHABLE_LOAD: [Row; 3] = [(5, 0, 0, 1), (96, 0, 0, 3), (6, 0, 0, 1)];

fn path(alloc: Global, places: &[u32]) -> Result<Path, AllocError> {
    let places = places.to_vec(alloc)?;
    Ok(Path { places })
}

fn is_held(alloc: Global, rows: &[Row], places: &[u32], word: u32) -> Result<bool, AllocError>
    requires rows { length rows.now ≤ 65535 }
    requires word { word < 16 }
{
    Ok(holds(&raws(alloc, rows)?, &path(alloc, places)?, word))
}

/// Lists of places, and whether each is a path that leaves word 3 unset.
const PATHS: [(&[u32], bool); 6] = [
    (&[0, 2], true),
    (&[0, 1, 2], false),
    (&[2], false),
    (&[0, 3], false),
    (&[0, 2, 2], false),
    (&[], false),
];

#[test]
fn paths_that_hold(rt: HostRuntime) -> Result<(), AllocError> {
    let a = rt.alloc();
    for (places, expected) in PATHS {
        assert!(rt;
            is_held(a, &UNSET_ON_ONE_BRANCH, places, 3)? == expected,
            "{places:?}"
        );
    }
    assert!(rt; is_held(a, &UNSET_ON_ONE_BRANCH, &[0, 1, 2], 4)?);
    Ok(())
}

fn explained(
    alloc: Global,
    rows: &[Row],
    place: usize,
    word: u32,
) -> Result<Option<Path>, AllocError>
    requires rows { length rows.now ≤ 65535 }
    requires word { word < 16 }
{
    explain(alloc, &raws(alloc, rows)?, place, word)
}

/// Whether the path that leaves word 3 unset at a place has these places.
fn is_explained(
    alloc: Global,
    rows: &[Row],
    place: usize,
    places: &[u32],
) -> Result<bool, AllocError>
    requires { length rows.now ≤ 65535 }
{
    match explained(alloc, rows, place, 3)? {
        Some(path) => Ok(path.places.as_slice() == places),
        None => Ok(false),
    }
}

#[test]
fn explained_places(rt: HostRuntime) -> Result<(), AllocError> {
    let a = rt.alloc();
    assert!(rt; is_explained(a, &UNSET_ON_ONE_BRANCH, 2, &[0, 2])?);
    assert!(rt; explained(a, &UNREACHABLE_LOAD, 1, 3)?.is_none());
    assert!(rt; is_explained(a, &UNREACHABLE_LOAD, 0, &[0])?);
    assert!(rt; explained(a, &UNREACHABLE_LOAD, 3, 3)?.is_none());
    Ok(())
}

/// The next so many instructions of the fixed sequence, and then `ret #1`.
fn code_of(octets: &mut Octets, alloc: Global, count: usize) -> Result<Vec<Raw>, AllocError> {
    let mut code = Vec::new(alloc);
    for _ in 0..count {
        code.push(octets.next_raw())?;
    }
    code.extend(raws(alloc, &[(6, 0, 0, 1)])?)?;
    Ok(code)
}

/// Each call returns, with a program of that many instructions or with the code.
#[test]
fn fixed_sequence(rt: HostRuntime) -> Result<(), AllocError> {
    let a = rt.alloc();
    let mut octets = Octets::new();
    // 65536 octets are 8192 instructions: 682 runs of 12, and one of 8
    for run in 0..683 {
        let count = if run < 682 { 12 } else { 8 };
        let len = match Program::check(a, code_of(&mut octets, a, count)?) {
            Ok(program) => program.len(),
            Err(refused) => refused.code.len(),
        };
        assert!(rt; len == count + 1);
    }
    Ok(())
}

/// Whether the code has the fields of the rows.
fn spells(code: &[Raw], rows: &[Row]) -> bool {
    code.len() == rows.len()
        && code.iter().zip(rows).all(|(raw, &(number, jt, jf, k))| (raw.code, raw.jt, raw.jf, raw.k)
            == (number, jt, jf, k))
}

/// Whether code is refused so at a place, and comes back; none where it is accepted.
fn is_refused(
    alloc: Global,
    rows: &[Row],
    why: Cause,
    place: usize,
) -> Result<Option<bool>, AllocError>
    requires { length rows.now ≤ 65535 }
{
    match Program::check(alloc, raws(alloc, rows)?) {
        Ok(_) => Ok(None),
        Err(refused) => Ok(Some(
            refused.why == why && refused.place == place && spells(&refused.code, rows),
        )),
    }
}

/// With any growth refused, 30 comes for accepted code alone, and the code comes back.
#[test]
fn want_of_memory_in_check(rt: HostRuntime) {
    let a = rt.alloc();
    if let Ok(found) = is_refused(a, &UNREACHABLE_LOAD, Cause::OutOfMemory, 0) {
        assert!(rt; found != Some(false));
    }
    if let Ok(found) = is_refused(a, &UNSET_ON_ONE_BRANCH, Cause::UnsetWord { word: 3 }, 2) {
        assert!(rt; found == Some(true));
    }
}

/// With any growth refused, a path that is answered is the path.
#[test]
fn want_of_memory_in_explain(rt: HostRuntime) {
    if let Ok(is_path) = is_explained(rt.alloc(), &UNSET_ON_ONE_BRANCH, 2, &[0, 2]) {
        assert!(rt; is_path);
    }
}
