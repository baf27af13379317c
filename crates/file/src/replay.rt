// The replay of a derivation's file, for a caller who lends its bytes and two work slices. Nothing is relied on.
ghost use Rattle.std.specs.Prelude.{◌≡◌};
ghost use Rattle.file.specs.Replays.{replay_answer, left_replayed, right_replayed};
ghost use Rattle.file.specs.Demands.{Behind, Exactly, Named, EqualSides, EqualEnds};

use declarations::SIZE;
use lent::faults::Fault;
use reader::files::{STEPS_SIZE, read_file};
use step::run::{Answer, refused_with, run_steps};

// Replays a file in two work slices. Code 1 leaves both as they are, 2 to 13 leave zeros; else they hold the two terms that are left, with zeros behind, whatever stood there
// before.
pub fn replay(bytes: &[u8], left: &mut [u16], right: &mut [u16]) -> Answer
    ensures answer { result ≡ replay_answer bytes.now left.old right.old }
    ensures slices { (left.new ≡ left_replayed bytes.now left.old right.old)
        × (right.new ≡ right_replayed bytes.now left.old right.old) }
    ensures demand1 { Behind left.old right.old result left.new right.new }
    ensures demand2 { Exactly bytes.now left.old right.old result }
    ensures otherwise { Named bytes.now left.old right.old result left.new right.new }
    ensures demand3 { EqualSides bytes.now }
    ensures keeps { EqualEnds bytes.now result left.new right.new }
{
    let mut ds = [0u16; SIZE];
    let mut steps = [0u16; STEPS_SIZE];
    match read_file(bytes, &mut ds, left, right, &mut steps) {
        Ok(read) => run_steps(&ds, left, read.left, right, read.right, &steps, read.steps),
        // By its fields: a fault of the reading has no side, and a `From` would stand in `reader` for this one call.
        Err(fault) => refused_with(Fault {
            code: fault.code,
            side: 0,
            at: fault.at,
        }),
    }
}
