use pages::OutOfMemory;
use std::alloc::Global;

/// How many cells a page has.
const CELLS: usize = 1024;

/// A time for each cell of guest memory, of four bytes: 0 until it is set. A page takes memory for its cells once one of them is set.
#[derive(Drop)]
pub(crate) struct PagedTimes {
    /// Where the cells of each page end in `cells`: 0 for a page of which none was set.
    ends: Vec<usize>,
    // One list for all pages, so that a machine pays for those that it doesn't touch with a cleared word alone.
    cells: Vec<u32>,
}

impl PagedTimes {
    /// Times of so many pages of 1024 cells.
    pub(crate) fn new(alloc: Global, count: u32) -> Result<PagedTimes, OutOfMemory> {
        Ok(PagedTimes {
            ends: vec![in alloc; 0; count as usize]?,
            cells: Vec::new(alloc),
        })
    }

    /// The time of a cell. A cell past the last page has time 0.
    #[inline]
    pub(crate) fn get(&self, cell: u64) -> u32 {
        match self.ends.get(page_of(cell)) {
            Some(end) => match index_in(*end, cell) {
                Some(index) => self.cells.get(index).copied().unwrap_or(0),
                None => 0,
            },
            None => 0,
        }
    }

    /// Sets the time of a cell. None is past the last page.
    ///
    /// # Errors
    ///
    /// `OutOfMemory` alone.
    #[inline]
    pub(crate) fn set(&mut self, cell: u64, time: u32) -> Result<(), OutOfMemory> {
        let page = page_of(cell);
        if page >= self.ends.len() {
            return Ok(());
        }
        if self.ends[page] == 0 {
            self.cells.resize(self.cells.len() + CELLS, 0)?;
            self.ends[page] = self.cells.len();
        }
        if let Some(index) = index_in(self.ends[page], cell) {
            if index < self.cells.len() {
                self.cells[index] = time;
            }
        }
        Ok(())
    }
}

/// The page of a cell.
#[inline]
fn page_of(cell: u64) -> usize {
    (cell / CELLS as u64) as usize
}

/// Where a cell stands among all, by where those of its page end.
#[inline]
fn index_in(end: usize, cell: u64) -> Option<usize> {
    let start = end.checked_sub(CELLS)?;
    Some(start + (cell % CELLS as u64) as usize)
}
