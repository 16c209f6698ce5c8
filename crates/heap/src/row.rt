// Reads and writes of the row of cells. An index past the end reads a blank cell, and a write there does nothing.
ghost use Rattle.std.specs.Prelude.{◌≡◌, slice_index_or};
ghost use Rattle.heap.specs.Cells.{blank, keyed, stood, swapped};

use super::Cell;

// The writes are by index: what a write through `get_mut` left in the slice stayed open in the proof.

// The cell at the index; a blank one past the end.
pub(crate) fn cell_at(cells: &[Cell], index: usize) -> Cell
    ensures { result ≡ slice_index_or cells.now index blank }
{
    cells.get(index).copied().unwrap_or(Cell::new())
}

// Gives the item another key.
pub(crate) fn set_key(cells: &mut [Cell], item: usize, key: Option<u32>)
    ensures { cells.new ≡ keyed cells.old item key }
{
    if item < cells.len() {
        cells[item].key = key;
    }
}

// Moves the item to the place.
pub(crate) fn stand(cells: &mut [Cell], place: usize, item: usize)
    ensures { cells.new ≡ stood cells.old place item }
{
    if place < cells.len() {
        cells[place].item = item;
    }
    if item < cells.len() {
        cells[item].place = place;
    }
}

// Exchanges the items of two places.
pub(crate) fn swap(cells: &mut [Cell], p: usize, q: usize)
    ensures { cells.new ≡ swapped cells.old p q }
{
    let upper = cell_at(cells, p).item;
    let lower = cell_at(cells, q).item;
    stand(cells, p, lower);
    stand(cells, q, upper);
}
