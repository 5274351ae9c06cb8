//! Tables for two voters.

ghost use Rattle.std.specs.Prelude.{◌≡◌, ◌++◌, ◌+◌, ◌*◌, ◌<◌, ℕ, List, OnOk};
ghost use Rattle.std.specs.List.{flat_map};
ghost use Rattle.vocab.specs.declared.kinds.Sort.TheVariants.{Ballot};
ghost use Rattle.vocab.specs.Range.{below};
ghost use Rattle.vocab.specs.Size.{sort_count};
ghost use Rattle.html.specs.Grids.{is_gridded, head_html, cell_html, row_html, grid_html};

use crate::escapes::Html;
use crate::facts::put_ballot;
use lists::NoMemory;
use profiles::Space;

/// What stands in the cells of a table.
pub trait Cells {
    /// The text of the cell of a profile.
    ghost cell: { Self → ℕ → List ℕ };

    /// Adds the text of the cell of a profile.
    fn put_cell(&self, out: &mut Html, p: u32) -> Result<(), NoMemory>
        ensures { OnOk result (out.new ≡ out.old ++ cell self.now p) };
}

/// Whether there are two voters, who are both there, and fewer ballots than so many.
pub fn is_gridded(space: &Space, most: u32) -> bool
    ensures { result ≡ is_gridded space.now most }
{
    let size = space.size();
    size.voters() == 2 && !size.absent() && space.ballots() < most
}

/// The profile of two ballots.
fn profile_at(space: &Space, b: u32, c: u32) -> u32
    requires row { b < sort_count space.now Ballot }
    requires column { c < sort_count space.now Ballot }
    ensures { result ≡ b * sort_count space.now Ballot + c }
{
    let count = space.ballots();
    b * count + c
}

/// Adds a ballot as the head of a row or a column.
fn put_head(out: &mut Html, space: &Space, b: u32) -> Result<(), NoMemory>
    ensures { OnOk result (out.new ≡ out.old ++ head_html space.now b) }
{
    out.append(b"<th>")?;
    put_ballot(out, space, b)?;
    out.append(b"</th>")?;
    Ok(())
}

/// Adds all ballots as heads.
fn put_heads(out: &mut Html, space: &Space) -> Result<(), NoMemory>
    ensures { OnOk result (out.new ≡ out.old ++
        flat_map (head_html space.now) (below (sort_count space.now Ballot))) }
{
    let count = space.ballots();
    for b in 0..count {
        put_head(out, space, b)?;
    }
    Ok(())
}

/// Adds a cell.
fn put_cell<C: Cells>(
    out: &mut Html,
    space: &Space,
    cells: &C,
    b: u32,
    c: u32,
) -> Result<(), NoMemory>
    requires row { b < sort_count space.now Ballot }
    requires column { c < sort_count space.now Ballot }
    ensures { OnOk result (out.new ≡ out.old ++ cell_html space.now (C.cell cells.now) b c) }
{
    let p = profile_at(space, b, c);
    out.append(b"<td>")?;
    cells.put_cell(out, p)?;
    out.append(b"</td>")?;
    Ok(())
}

/// Adds the cells of a row.
fn put_cells<C: Cells>(out: &mut Html, space: &Space, cells: &C, b: u32) -> Result<(), NoMemory>
    requires { b < sort_count space.now Ballot }
    ensures { OnOk result (out.new ≡ out.old ++
        flat_map (cell_html space.now (C.cell cells.now) b) (below (sort_count space.now Ballot))) }
{
    let count = space.ballots();
    for c in 0..count {
        put_cell(out, space, cells, b, c)?;
    }
    Ok(())
}

/// Adds a row.
fn put_row<C: Cells>(out: &mut Html, space: &Space, cells: &C, b: u32) -> Result<(), NoMemory>
    requires { b < sort_count space.now Ballot }
    ensures { OnOk result (out.new ≡ out.old ++ row_html space.now (C.cell cells.now) b) }
{
    out.append(b"<tr>")?;
    put_head(out, space, b)?;
    put_cells(out, space, cells, b)?;
    out.append(b"</tr>\n")?;
    Ok(())
}

/// Adds all rows.
fn put_rows<C: Cells>(out: &mut Html, space: &Space, cells: &C) -> Result<(), NoMemory>
    ensures { OnOk result (out.new ≡ out.old ++
        flat_map (row_html space.now (C.cell cells.now)) (below (sort_count space.now Ballot))) }
{
    let count = space.ballots();
    for b in 0..count {
        put_row(out, space, cells, b)?;
    }
    Ok(())
}

/// Adds a table.
pub fn put_grid<C: Cells>(out: &mut Html, space: &Space, cells: &C) -> Result<(), NoMemory>
    ensures { OnOk result (out.new ≡ out.old ++ grid_html space.now (C.cell cells.now)) }
{
    out.append(b"<table class=g>\n<tr><td></td>")?;
    put_heads(out, space)?;
    out.append(b"</tr>\n")?;
    put_rows(out, space, cells)?;
    out.append(b"</table>\n")?;
    Ok(())
}
