//! A table of texts, and its text.
ghost use Rattle.std.specs.Prelude.{◌≡◌, ◌∷◌, ◌++◌, [], IfOk, OnOk, OnErr};
ghost use Rattle.text_table.specs.Layout.{table_text};
ghost use Rattle.text_table.specs.Texts.{texts_of};

use crate::columns::columns_of;
use crate::lines::add_line;
use std::alloc::{AllocError, Global};

/// On which side of its column an entry stands.
#[derive(Clone, Copy)]
pub enum Side {
    /// Words.
    Left,
    /// Numbers.
    Right,
}

/// Columns, and rows of texts for them, the header first. Lengths are counted in bytes, so that
/// columns stand under one another where the texts are ASCII.
#[derive(Drop)]
pub struct Table {
    /// The side of each column. Entries behind the last one aren't written.
    pub sides: Vec<Side>,
    /// The entries of each row. A row that has fewer than there are columns ends with empty ones.
    pub rows: Vec<Vec<String>>,
}

impl Table {
    /// A table without a row.
    pub fn new(alloc: Global, sides: Vec<Side>) -> Table
        ensures sides { result.sides ≡ sides }
        ensures rows { result.rows.items ≡ [] }
    {
        Table {
            sides,
            rows: Vec::new(alloc),
        }
    }

    /// One row more, behind the others. If memory runs out the table stays as it was.
    pub fn push(&mut self, row: Vec<String>) -> Result<(), AllocError>
        ensures sides { self.new.sides ≡ self.old.sides }
        ensures rows { OnOk result (self.new.rows.items ≡ self.old.rows.items ++ row ∷ []) }
        ensures unchanged { OnErr result (self.new.rows.items ≡ self.old.rows.items) }
    {
        self.rows.push(row)?;
        Ok(())
    }

    /// Writes the table behind what `text` has: a line for each row, its entries filled up to the
    /// width of their columns, two spaces between them, and no space at its end. If memory runs out
    /// `text` stays as it was.
    pub fn write(&self, alloc: Global, text: &mut Vec<u8>) -> Result<(), AllocError>
        ensures written { OnOk result (text.new.items ≡ text.old.items
            ++ table_text self.now.sides.items (texts_of self.now.rows.items)) }
        ensures unchanged { OnErr result (text.new.items ≡ text.old.items) }
    {
        let lines = lines_of(alloc, &self.sides, &self.rows)?;
        text.extend_from_slice(&lines)
    }
}

fn lines_of(alloc: Global, sides: &[Side], rows: &[Vec<String>]) -> Result<Vec<u8>, AllocError>
    ensures { IfOk result (λ text. text.items ≡ table_text sides.now (texts_of rows.now)) }
{
    let columns = columns_of(alloc, sides, rows)?;
    let mut text = Vec::new(alloc);
    for row in rows {
        add_line(&mut text, alloc, &columns, row)?;
    }
    Ok(text)
}
