// What a scan may pass at once. The long rows of a term are mostly sums and products of variables, and looking at many words at a time takes a tenth of the time that walking takes.
ghost use Rattle.std.specs.Prelude.{◌≡◌, true, ◌++◌, ◌+◌, ◌≤◌, length};
ghost use Rattle.term.specs.Code.Rows.{Leaves};

// The head of a variable: its number, and no word as those of `heads` are, since any name may stand behind it.
const VARIABLE: u16 = 26;

// The shortest row that is looked at: a shorter one is sooner walked. Only heads that count their children have so many.
const LONG_ROW: usize = 16;

// Whether all words are variables. It looks at every word and does not stop at the first other one, so that it is compiled to tests of many at a time.
fn are_variables(row: &[u16]) -> bool
    ensures { result ≡ true → Leaves row.now 0 (length row.now) }
{
    let mut all = true;
    for &word in row {
        all &= word / 256 == VARIABLE;
    }
    all
}

// Whether the `n` words from `at` on, which stand behind a head with `n` children, are a row that a scan may pass.
pub(crate) fn is_row(ws: &[u16], at: usize, n: usize) -> bool
    requires { at ≤ length ws.now }
    ensures { result ≡ true → (at + n ≤ length ws.now) × Leaves ws.now at n }
{
    if n < LONG_ROW || ws.len() - at < n {
        return false;
    }
    are_variables(&ws[at..at + n])
}

// The same of two slices, one behind the other, and of no words at all. A row may begin in the first and end in the second. `is_row` stays beside it: it answers for the slice that has the whole row,
// and `part_end`, which has one slice, asks it alone.
pub(crate) fn are_leaves(front: &[u16], back: &[u16], at: usize, n: usize) -> bool
    requires { at ≤ length front.now + length back.now }
    ensures { result ≡ true → (at + n ≤ length front.now + length back.now) × Leaves (front.now ++ back.now) at n }
{
    if n < LONG_ROW {
        return n == 0;
    }
    if front.len() <= at {
        return is_row(back, at - front.len(), n);
    }
    let here = front.len() - at;
    if n <= here {
        return is_row(front, at, n);
    }
    if back.len() < n - here {
        return false;
    }
    are_variables(&front[at..]) && are_variables(&back[..n - here])
}
