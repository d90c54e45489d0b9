// The shapes of statements, by the calculus' names for them.

// s is sharper than u.
pub const SHARPER: u8 = 1;

// What belongs to both s1 and s2 belongs to u.
pub const INTERSECTION_SHARPER: u8 = 2;

// In t, each b is, throughout s, d wherever it is c.
pub const NESTED_INCLUSION: u8 = 3;

// In t, each c is d somewhere in s.
pub const POSSIBLE_INCLUSION: u8 = 4;

// In s, each c has an r to some d.
pub const EXISTENTIAL_RIGHT: u8 = 5;

// In s, what has an r to some c is d.
pub const EXISTENTIAL_LEFT: u8 = 6;

// In s, what is c1 and c2 is d.
pub const CONJUNCTION_LEFT: u8 = 7;

// In s, r1 lies within r2.
pub const ROLE_INCLUSION: u8 = 8;

// In s, r1 followed by r2 lies within r3.
pub const ROLE_CHAIN: u8 = 9;
