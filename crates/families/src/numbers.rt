// The heads that the families name, by their numbers.
pub const SCALAR_SUM: u16 = 7;

pub const PRODUCT: u16 = 8;

pub const DELTA: u16 = 10;

pub const SUM: u16 = 20;

pub const BIG_SUM: u16 = 27;
