// The declarations of a case, as numbers: how many types; how many bases, and of each the length and the words of its index; how many
// variables, and of each the kind (0 scalar, 1 ket, 2 bra, 3 operator, and 4 more where it is marked) and the lengths and words of both indices.
use crate::input::{Input, narrow, next_count, next_number, next_words};
use declarations::SIZE;
use declarations::constructor::{PutError, put_basis, put_variable, start};
use std::io;

// What the constructor refuses is to be refused by whoever is lent the declarations, so these are made bad by any reading: 33 types.
fn kept(ds: &mut [u16; SIZE], put: Result<(), PutError>) {
    if put.is_err() {
        ds[0] = 33;
    }
}

// An index of more words than there is room for is declared with as many as there is: too many for any index.
fn basis(input: &mut Input, ds: &mut [u16; SIZE]) -> io::Result<()> {
    let mut room = [0u16; 4096];
    let index = next_words(input, &mut room)?;
    let put = put_basis(ds, index);
    kept(ds, put);
    Ok(())
}

fn variable(input: &mut Input, ds: &mut [u16; SIZE]) -> io::Result<()> {
    let mut room = [0u16; 4096];
    let mut more_room = [0u16; 4096];
    let kind = narrow(next_number(input)?);
    let first = next_words(input, &mut room)?;
    let second = next_words(input, &mut more_room)?;
    let put = put_variable(ds, kind, first, second);
    kept(ds, put);
    Ok(())
}

// Puts a case's declarations together by their constructor.
pub fn next_declarations(input: &mut Input) -> io::Result<[u16; SIZE]> {
    let mut ds = [0u16; SIZE];
    let put = start(&mut ds, next_number(input)?);
    kept(&mut ds, put);
    for _ in 0..next_count(input)? {
        basis(input, &mut ds)?;
    }
    for _ in 0..next_count(input)? {
        variable(input, &mut ds)?;
    }
    Ok(ds)
}
