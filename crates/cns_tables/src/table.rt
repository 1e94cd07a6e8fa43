// A page, and its tables.
ghost use Rattle.std.specs.Prelude.{◌≡◌, ◌∷◌, [], ◌++◌, List, ℕ, OnOk};
ghost use Rattle.std.specs.List.{flat_map};
ghost use Rattle.cns_tables.specs.Tables.{HasMore, caption_of, cell_of, cells_of, columns_of, none_of, row_of, shown, some_of, table_text};

use crate::piece::{Piece, write_form, write_markup, write_piece};
use std::alloc::{AllocError, Global};

/// A page as it is made.
#[derive(Drop)]
pub struct Page {
    /// Its bytes so far.
    pub text: Vec<u8>,
    /// How many rows its tables have so far. The count stops at 2^64 - 1.
    pub rows: u64,
}

/// A table of a page.
#[derive(Clone, Copy)]
pub struct Table {
    /// Where links lead to.
    pub id: &'static str,
    pub title: &'static str,
    /// What its rows are, with the units.
    pub caption: &'static str,
    /// What stands there where it has no rows.
    pub none: &'static str,
    pub columns: &'static [&'static str],
}

/// A row of a table.
pub trait TableRow {
    ghost text: { Self → List ℕ };

    /// Adds the row.
    fn write_row(&self, out: &mut Vec<u8>) -> Result<(), AllocError>
        ensures { OnOk result (out.new.items ≡ out.old.items ++ text self.now) };
}

/// What stands before a row.
pub const ROW: &str = "<tr><th scope=row>";

// What stands before another cell than the first.
const CELL: &str = "<td>";

// What stands for a table that has no rows: id, id, title, and the sentence.
const NONE: &str = "<section aria-labelledby=_>
<h2 id=_>_</h2>
<p>_</p>
</section>
";

// What stands before the columns of one that has rows: id, id, title, title and caption.
const BEGIN: &str = "<section aria-labelledby=_>
<h2 id=_>_</h2>
<div class=wide tabindex=0 role=region aria-label=\"_\">
<div class=part>
<table>
<caption>_</caption>
<thead><tr>";

const COLUMN: &str = "<th scope=col>_";

const ROWS: &str = "\n</thead><tbody>\n";

const END: &str = "</table>\n</div>\n</div>\n</section>\n";

// Adds other cells of a row.
#[tactic(auto, using(std::proofs::lemmas::Grind::common_steps))]
fn write_cells(pieces: &[Piece<'_>], out: &mut Vec<u8>) -> Result<(), AllocError>
    ensures { OnOk result (out.new.items ≡ out.old.items ++ cells_of pieces.now) }
{
    for piece in pieces {
        write_cell(piece, out)?;
    }
    Ok(())
}

#[tactic(auto, using(crate::proofs::Written::after))]
fn write_cell(piece: &Piece<'_>, out: &mut Vec<u8>) -> Result<(), AllocError>
    ensures { OnOk result (out.new.items ≡ out.old.items ++ cell_of piece.now) }
{
    write_markup(CELL, out)?;
    write_piece(piece, out)
}

/// Adds a row: what stands before it, its first cell, and the other cells.
#[tactic(auto, using(crate::proofs::Written::after))]
pub fn write_line(
    head: &'static str,
    first: &Piece<'_>,
    others: &[Piece<'_>],
    out: &mut Vec<u8>,
) -> Result<(), AllocError>
    ensures { OnOk result (out.new.items ≡ out.old.items ++ row_of head.now first.now others.now) }
{
    write_markup(head, out)?;
    write_piece(first, out)?;
    write_cells(others, out)?;
    write_markup("\n", out)
}

// Adds rows, one after another.
#[tactic(auto, using(std::proofs::lemmas::Grind::common_steps))]
fn write_rows<T: TableRow>(rows: &[T], out: &mut Vec<u8>) -> Result<(), AllocError>
    ensures { OnOk result (out.new.items ≡ out.old.items ++ flat_map T.text rows.now) }
{
    for row in rows {
        row.write_row(out)?;
    }
    Ok(())
}

// Adds the names of the columns.
#[tactic(auto, using(std::proofs::lemmas::Grind::common_steps))]
fn write_columns(table: &Table, out: &mut Vec<u8>) -> Result<(), AllocError>
    ensures { OnOk result (out.new.items ≡ out.old.items ++ columns_of table.now) }
{
    for column in table.columns {
        write_form(COLUMN, &[Piece::Markup(column)], out)?;
    }
    Ok(())
}

// Adds a table that has no rows.
#[tactic(auto, unfolding(crate::specs::Tables::none_of))]
fn write_none(table: &Table, out: &mut Vec<u8>) -> Result<(), AllocError>
    ensures { OnOk result (out.new.items ≡ out.old.items ++ none_of table.now) }
{
    let pieces = [
        Piece::Markup(table.id),
        Piece::Markup(table.id),
        Piece::Markup(table.title),
        Piece::Markup(table.none),
    ];
    write_form(NONE, &pieces, out)
}

// Adds the title and what stands before the columns.
#[tactic(auto, unfolding(crate::specs::Tables::caption_of))]
fn write_caption(table: &Table, out: &mut Vec<u8>) -> Result<(), AllocError>
    ensures { OnOk result (out.new.items ≡ out.old.items ++ caption_of table.now) }
{
    let pieces = [
        Piece::Markup(table.id),
        Piece::Markup(table.id),
        Piece::Markup(table.title),
        Piece::Markup(table.title),
        Piece::Markup(table.caption),
    ];
    write_form(BEGIN, &pieces, out)
}

// Adds the table of some rows.
#[tactic(auto, using(crate::proofs::Written::after))]
fn write_some<T: TableRow>(table: &Table, rows: &[T], out: &mut Vec<u8>) -> Result<(), AllocError>
    ensures { OnOk result (out.new.items ≡ out.old.items ++ some_of T.text table.now rows.now) }
{
    write_caption(table, out)?;
    write_columns(table, out)?;
    write_markup(ROWS, out)?;
    write_rows(rows, out)?;
    write_markup(END, out)
}

// Adds a table with its rows in order, or what stands there where it has none.
#[tactic(auto, using(crate::proofs::Written::no_rows, crate::proofs::Written::some_rows))]
fn write_table<T: TableRow>(table: &Table, rows: &[T], out: &mut Vec<u8>) -> Result<(), AllocError>
    ensures { OnOk result (out.new.items ≡ out.old.items ++ table_text T.text table.now rows.now) }
{
    if rows.is_empty() {
        write_none(table, out)
    } else {
        write_some(table, rows, out)
    }
}

impl Page {
    /// Nothing yet. It takes no memory.
    pub fn new(alloc: Global) -> Page
        ensures text { result.text.items ≡ [] }
        ensures rows { result.rows ≡ 0 }
    {
        Page {
            text: Vec::new(alloc),
            rows: 0,
        }
    }

    /// Adds a table, and counts its rows.
    pub fn table<T: TableRow>(&mut self, table: &Table, rows: &[T]) -> Result<(), AllocError>
        ensures { OnOk result (HasMore (shown T.text table.now rows.now ∷ []) self.old self.new) }
    {
        self.rows = self.rows.saturating_add(rows.len() as u64);
        write_table(table, rows, &mut self.text)
    }

    /// The same of rows that were gathered for it, whose memory is given back.
    pub fn gathered<T: TableRow + Drop>(
        &mut self,
        table: &Table,
        rows: Vec<T>,
    ) -> Result<(), AllocError>
        ensures { OnOk result (HasMore (shown T.text table.now rows.items ∷ []) self.old self.new) }
    {
        self.table(table, rows.as_slice())
    }
}
