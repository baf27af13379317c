// Declarations put together: a number of types, then one name after the other. What does not fit is refused and changes nothing.
ghost use Rattle.std.specs.Prelude.{◌≡◌, ◌+◌, ◌≤◌, ◌<◌, length, get_or};
ghost use Rattle.std.proofs.lemmas.List.Edits.{sets};
ghost use Rattle.declarations.specs.Declarations.{is_index, is_variable};
ghost use Rattle.declarations.specs.Put.{leaves, start_answer, started, room, answer, basis_put, variable_put};

use crate::{SIZE, are_counts, is_index, is_variable};
use words::append;

// Why nothing is put: the words are then what they were.
#[derive(Clone, Copy, PartialEq, Eq, Debug)]
pub enum PutError {
    // The slice is not of the size.
    WrongSize,
    // All 32 names of the kind are declared.
    Full,
    // What is put is not what is wanted, or too many names are declared as it is.
    Bad,
}

// No bases and no variables over so many types.
pub fn start(ds: &mut [u16], types: usize) -> Result<(), PutError>
    ensures { (result ≡ start_answer ds.old types) × (ds.new ≡ leaves result (started ds.old types) ds.old) }
{
    if ds.len() != SIZE {
        return Err(PutError::WrongSize);
    }
    if 32 < types {
        return Err(PutError::Bad);
    }
    ds.fill(0);
    ds[0] = types as u16;
    Ok(())
}

// Whether there is room for one name more of those that word `k` counts: a place in the words, as the layout has it, and no switch.
fn room_for(ds: &[u16], k: usize) -> Result<(), PutError>
    requires { k < 3 }
    ensures { result ≡ room ds.now k }
{
    if ds.len() != SIZE {
        return Err(PutError::WrongSize);
    }
    if !are_counts(ds[0], ds[1], ds[2]) {
        return Err(PutError::Bad);
    }
    if ds[k] == 32 {
        return Err(PutError::Full);
    }
    Ok(())
}

// Stores all of `ws` from `at` on. Not by `copy_from_slice`, which for the one word of most indices is a call: declaring twelve names took 300 ns for 241.
fn lay(ds: &mut [u16], at: usize, ws: &[u16])
    requires { at + length ws.now ≤ length ds.old }
    ensures { ds.new ≡ sets ds.old at ws.now }
{
    append(ds, at, ws);
}

// The size is asked here and of a variable, and no array type says it: behind a `&mut` that would be one more refusal in each put, which never comes. From `room_for` the
// array would come as a `&mut` too, and its contract would speak of all that is written after it.
fn add_basis(ds: &mut [u16], index: &[u16])
    requires { (length ds.old ≡ 6179) × (get_or ds.old 1 0 < 32) × (length index.now ≤ 63) }
    ensures { ds.new ≡ basis_put ds.old index.now }
{
    let a = ds[1];
    let at = 3 + usize::from(a) * 64;
    ds[1] = a + 1;
    ds[at] = index.len() as u16;
    lay(ds, at + 1, index);
}

fn add_variable(ds: &mut [u16], kind: u16, first: &[u16], second: &[u16])
    requires { (length ds.old ≡ 6179) × (get_or ds.old 2 0 < 32) × (length first.now ≤ 63) × (length second.now ≤ 63) }
    ensures { ds.new ≡ variable_put ds.old kind first.now second.now }
{
    let a = ds[2];
    let at = 2051 + usize::from(a) * 129;
    let head = [kind, first.len() as u16, second.len() as u16];
    ds[2] = a + 1;
    lay(ds, at, &head);
    lay(ds, at + 3, first);
    lay(ds, at + 66, second);
}

// One basis name more, of an index: its words are exactly one over the types.
pub fn put_basis(ds: &mut [u16], index: &[u16]) -> Result<(), PutError>
    ensures value { result ≡ answer (room ds.old 1) (is_index (get_or ds.old 0 0) index.now) }
    ensures ds_after { ds.new ≡ leaves result (basis_put ds.old index.now) ds.old }
{
    room_for(ds, 1)?;
    if !is_index(usize::from(ds[0]), index) {
        return Err(PutError::Bad);
    }
    add_basis(ds, index);
    Ok(())
}

// One variable more, of a kind, by its number as `fejogbu_put_variable` is given it, and exactly the indices that it wants.
pub fn put_variable(
    ds: &mut [u16],
    kind: u16,
    first: &[u16],
    second: &[u16],
) -> Result<(), PutError>
    ensures value { result ≡ answer (room ds.old 2) (is_variable (get_or ds.old 0 0) kind first.now second.now) }
    ensures ds_after { ds.new ≡ leaves result (variable_put ds.old kind first.now second.now) ds.old }
{
    room_for(ds, 2)?;
    if !is_variable(usize::from(ds[0]), kind, first, second) {
        return Err(PutError::Bad);
    }
    add_variable(ds, kind, first, second);
    Ok(())
}
