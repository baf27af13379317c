// Decimal numbers without leading zeros, of any length.
ghost use Rattle.std.specs.Prelude.{◌≡◌, ◌+◌, ◌-◌, ◌*◌, ◌≤◌, min};
ghost use Rattle.text.specs.Numbers.{well_begun, number_in, told, most};

// No limit of a file is above 65,535, so all numbers above answer this one.
const MOST: usize = 65536;

// A number with one digit more.
fn grown(value: usize, digit: u8) -> usize
    requires { (value ≤ 65536) × (48 ≤ digit) }
    ensures { result ≡ min most (value * 10 + (digit - 48)) }
{
    MOST.min(value * 10 + usize::from(digit - b'0'))
}

// Whether there is a first byte, and it is not the 0 of several.
fn is_well_begun(text: &[u8]) -> bool
    ensures { result ≡ well_begun text.now }
{
    match text {
        [] => false,
        [_] => true,
        [first, ..] => *first != b'0',
    }
}

pub fn read_number(text: &[u8]) -> Option<usize>
    ensures { result ≡ told (min most) (number_in text.now) }
{
    if !is_well_begun(text) {
        return None;
    }
    let mut value = 0;
    for digit in text {
        if !digit.is_ascii_digit() {
            return None;
        }
        value = grown(value, *digit);
    }
    Some(value)
}
