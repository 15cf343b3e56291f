// The kinds of statements and of bodies on the tape.
// Kept: words of the tape are numbers in fixed memory, which `says_at` of the specs decodes; an enum would be turned into them and back at each use.

pub const RULE: u32 = 1;

pub const OUTPUT: u32 = 4;

// A theory statement, whose kind on the tape is one of those below.
pub const THEORY: u32 = 9;

pub const COMMENT: u32 = 10;

// A term: a number, a string, a compound.
pub const NUMBER: u32 = 90;

pub const STRING: u32 = 91;

pub const COMPOUND: u32 = 92;

pub const ELEMENT: u32 = 94;

// A theory atom, without and with an operator and a bound.
pub const ATOM: u32 = 95;

pub const GUARDED: u32 = 96;

// A body: a normal one, or one with weights.
pub const NORMAL: u32 = 0;

pub const WEIGHTS: u32 = 1;
