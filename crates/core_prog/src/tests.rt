//! What no line of a table shows: a module that nests deep, and names that no text spells.

mod deep;
mod names;
