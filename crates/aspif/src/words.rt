// The words of a line on the tape, by how far they stand from its first; `says_at` of the specs reads them so.

// Of a line: its place in the text, the count of the words behind these two, and what it says.
pub const PLACE: usize = 0;

pub const SIZE: usize = 1;

pub const SAYS: usize = 2;

// Of what a line says, from here on: its kind.
pub const KIND: usize = 0;

// Of a rule: the kind of its head, and the list of the head atoms, its count before them.
pub const HEAD_KIND: usize = 1;

pub const HEADS: usize = 2;

pub const FIRST_HEAD: usize = 3;

// Of a body, from its kind on: its lower bound, and the list of its literals or premises.
pub const LOWER_BOUND: usize = 1;

pub const PREMISES: usize = 2;

// Of a theory statement: the number of the term, the element or the atom.
pub const OF: usize = 1;

// Of a numeric term: its value.
pub const VALUE: usize = 2;

// Of a string: its length and its bytes.
pub const LENGTH: usize = 2;

pub const FIRST_BYTE: usize = 3;

// Of a compound: t, and the list of its arguments.
pub const FUNCTOR: usize = 2;

pub const ARGUMENTS: usize = 3;

pub const FIRST_ARGUMENT: usize = 4;

pub const SECOND_ARGUMENT: usize = 5;

// Of an element: the list of its terms; behind one term, how many literals its condition has.
pub const TERMS: usize = 2;

pub const FIRST_TERM: usize = 3;

pub const CONDITION: usize = 4;

// Of a theory atom: its name, the list of its elements; behind one element, the operator and the bound.
pub const NAME: usize = 2;

pub const ELEMENTS: usize = 3;

pub const FIRST_ELEMENT: usize = 4;

pub const OPERATOR: usize = 5;

pub const BOUND: usize = 6;
