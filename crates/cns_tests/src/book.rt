// Tests of the book, of packs of statements, and of the crates below the book.
//
// They say what no clause, no case file of `tests/cases` and no growth test says: a limit of a history, a small heap, counted
// comparisons, statements that are made at once, sizes of what is kept by the million, texts of values, trees on each allocator,
// both forms of positions. Tables are `const` where they can be: one in a body would be proved with it. A helper that
// cannot go on ends the test by `rt`: its callers are then proved sooner than with a `?` after each call.
mod comparisons;
mod counted;
mod heap;
mod limits;
mod packs;
mod positions;
mod script;
mod terms;
pub(crate) mod tree;
mod units;
