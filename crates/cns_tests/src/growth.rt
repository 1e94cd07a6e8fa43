// Tests in which each growth of a call is refused in turn.
//
// `Rationed` of `cns_rationed` grants a call so many growths, refuses the next, and grants all after it. A call answers
// `NoMemory` exactly where one was refused. Its blocks are then given back, and the same call once more finds its memory; that
// its arguments are as before is said by its clauses, and a book is asked. This catches a call that swallows a refusal as well
// as one that gives up without any. `refusing.rt` has the loop; there is a file for the tree, one for positions, two for
// a new book and statements, and `book.rt` for the fifteen commands. Calls over the global allocator are driven by
// `tests/refused.sh`, which refuses the growths of the built program.
mod book;
mod bytes;
mod calls;
mod maps;
mod opening;
mod refusing;
mod statements;
mod trees;
