// The reading of a file into lent words: declarations, two terms, steps. Nothing is relied on.
ghost use Rattle.std.specs.Prelude.{◌≡◌};
ghost use Rattle.format.specs.Reading.{read_of};
ghost use Rattle.reader.specs.Answers.{Done};
ghost use Rattle.reader.specs.Code.Holding.{BytesTold, ended_in, Found};

use crate::faults::{Fault, refused};
use crate::keys::Stage;
use crate::walking::{State, take_line};
use cursor::Reader;
use declarations::SIZE;
use text::pieces::bad_line;
use words::clear_from;

// What was read: the lengths of the two terms, and how many steps there are. They stand beside the lent slices, since a caller lends memory of fixed sizes, and `run_steps` takes a slice and its
// length.
#[derive(Clone, Copy)]
pub struct Read {
    pub left: usize,
    pub right: usize,
    pub steps: usize,
}

// The words of a term's slice, used or not.
pub const TERM_SIZE: usize = 4096;

// The words of the steps of a file, used or not.
pub const STEPS_SIZE: usize = 8000;

// Codes 2 and 3.
fn test_bytes(bytes: &[u8]) -> Result<(), Fault>
    ensures { BytesTold bytes.now result }
{
    if 65536 < bytes.len() {
        return Err(refused(2, 0));
    }
    match bad_line(bytes) {
        Some(line) => Err(refused(3, line)),
        None => Ok(()),
    }
}

// What was read up to the end of the file, whose lines are counted.
fn ended_in(s: State, line: usize) -> Result<Read, Fault>
    ensures { result ≡ ended_in s line }
{
    match s.stage {
        Stage::End => Ok(Read {
            left: s.left,
            right: s.right,
            steps: s.steps,
        }),
        _ => Err(refused(4, line)),
    }
}

// The bytes of a file, and then its lines.
fn read_lines(
    bytes: &[u8],
    ds: &mut [u16; SIZE],
    left: &mut [u16; TERM_SIZE],
    right: &mut [u16; TERM_SIZE],
    steps: &mut [u16; STEPS_SIZE],
) -> Result<Read, Fault>
    ensures { Found (read_of bytes.now) result ds.new left.new right.new steps.new }
{
    test_bytes(bytes)?;
    clear_from(steps, 0);
    let mut s = State {
        stage: Stage::Start,
        left: 0,
        right: 0,
        steps: 0,
    };
    // The cursor is a place in bytes and no iterator, so that lines are counted beside it.
    let mut reader = Reader { bytes, at: 0 };
    let mut line = 1;
    while !reader.is_at_end() {
        let piece = reader.next(b'\n');
        s = take_line(
            &bytes[reader.at..piece.end],
            line,
            s,
            ds,
            left,
            right,
            steps,
        )?;
        reader = piece.rest;
        line += 1;
    }
    ended_in(s, line)
}

// Reads a file. Code 1, for a slice of another size, leaves all four as they are; any other fault leaves zeros. Else they hold what the file says, with zeros behind, whatever
// stood there before.
pub fn read_file(
    bytes: &[u8],
    ds: &mut [u16],
    left: &mut [u16],
    right: &mut [u16],
    steps: &mut [u16],
) -> Result<Read, Fault>
    ensures { Done bytes.now ds.old left.old right.old steps.old result ds.new left.new
        right.new steps.new }
{
    let Some(ds) = ds.as_mut_array::<SIZE>() else {
        return Err(refused(1, 0));
    };
    let Some(left) = left.as_mut_array::<TERM_SIZE>() else {
        return Err(refused(1, 0));
    };
    let Some(right) = right.as_mut_array::<TERM_SIZE>() else {
        return Err(refused(1, 0));
    };
    let Some(steps) = steps.as_mut_array::<STEPS_SIZE>() else {
        return Err(refused(1, 0));
    };
    let read = read_lines(bytes, ds, left, right, steps);
    if read.is_err() {
        clear_from(ds, 0);
        clear_from(left, 0);
        clear_from(right, 0);
        clear_from(steps, 0);
    }
    read
}
