// What ends the reading of a file.
ghost use Rattle.std.specs.Prelude.{◌≡◌};
ghost use Rattle.reader.specs.Code.Lines.{fault};

// A published code, with its line. The codes stay numbers: the file's form and every answer are published over the numbers 1 to 9, and a caller gets the number itself. Whoever refuses is lent
// the line for it: 01 has a step line answer "code 5 with the line" where a field is missing, and the other lines do alike, by a `let .. else` of the same form.
#[derive(Clone, Copy)]
pub struct Fault {
    pub code: usize,
    pub at: usize,
}

pub(crate) fn refused(code: usize, line: usize) -> Fault
    ensures { result ≡ fault code line }
{
    Fault { code, at: line }
}
