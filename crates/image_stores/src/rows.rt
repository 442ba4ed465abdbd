//! Rows of cells, the newest on top: frames of procedures, or array values.

ghost use Rattle.std.specs.Prelude.{◌≡◌, ◌<◌, ◌≤◌, ◌+◌, ◌-◌, ◌∷◌, [], pos, IsTrue, IsFalse, IfSome, IfNone, Some, None, replicate, slice_get, slice_set, slice_index_or, length, drop, ℕ, ℤ, List};
ghost use Rattle.image_stores.specs.Rows.{Held, set_first, first, longer, total};

use std::marker::Model;

/// Rows of cells in room that is made once.
#[derive(Drop)]
pub struct Rows {
    cells: Vec<i64>,
    bases: Vec<usize>,
    depth: usize,
    base: usize,
    top: usize,
}

impl Model for Rows {
    ghost use Rattle.std.specs.Prelude.{length};
    ghost use Rattle.image_stores.specs.Rows.{Held, rows, Fit};

    ghost Value = { Held };

    ghost view = { λ f. record { rows = rows f.cells.items f.bases.items f.top f.depth; size = length f.cells.items; most = length f.bases.items } };

    ghost invariant = { λ f. Fit f.cells.items f.bases.items f.depth f.base f.top };
}

impl Rows {
    /// No rows, in this room.
    #[tactic(auto, using(crate::proofs::RowLaws::fit_none))]
    pub fn new(cells: Vec<i64>, bases: Vec<usize>) -> Rows
        ensures { result ≡ record { rows = []; size = length cells.items; most = length bases.items } }
    {
        Rows {
            cells,
            bases,
            depth: 0,
            base: 0,
            top: 0,
        }
    }

    /// Whether no cell is left.
    #[tactic(auto, using(crate::proofs::RowLaws::total_rows))]
    pub fn is_full(&self) -> bool
        ensures { IsFalse result → total self.now.rows < self.now.size }
    {
        self.top >= self.cells.len()
    }

    /// Whether so many cells are left.
    #[tactic(auto, using(crate::proofs::RowLaws::total_rows))]
    pub fn has_room(&self, n: u32) -> bool
        ensures { IsTrue result → total self.now.rows + n ≤ self.now.size }
    {
        n as usize <= self.cells.len() - self.top
    }

    /// Whether no row can be begun.
    #[tactic(auto, using(crate::proofs::RowLaws::rows_length))]
    pub fn is_deep(&self) -> bool
        ensures { IsFalse result → length self.now.rows < self.now.most }
    {
        self.depth >= self.bases.len()
    }

    /// Begins an empty row.
    #[tactic(auto, using(crate::proofs::RowLaws::begin_view, crate::proofs::RowLaws::begin_fit))]
    pub fn begin(&mut self)
        requires { length self.old.rows < self.old.most }
        ensures { self.new ≡ record { rows = [] ∷ self.old.rows; size = self.old.size; most = self.old.most } }
    {
        let depth = self.depth;
        let top = self.top;
        write_base(&mut self.bases, depth, top);
        self.depth = depth + 1;
        self.base = top;
    }

    /// Puts a cell at the end of the first row.
    #[tactic(auto, using(crate::proofs::RowLaws::add_view, crate::proofs::RowLaws::add_fit, crate::proofs::RowLaws::same_word))]
    pub fn add(&mut self, v: i64)
        requires room { total self.old.rows < self.old.size }
        requires some { 0 < length self.old.rows }
        ensures { self.new ≡ record { rows = longer self.old.rows v; size = self.old.size; most = self.old.most } }
    {
        let top = self.top;
        write(&mut self.cells, top, v);
        self.top = top + 1;
    }

    /// Drops the first row.
    #[tactic(auto, using(crate::proofs::RowLaws::end_view, crate::proofs::RowLaws::end_fit))]
    pub fn end(&mut self)
        requires { 0 < length self.old.rows }
        ensures { self.new ≡ record { rows = drop 1 self.old.rows; size = self.old.size; most = self.old.most } }
    {
        let depth = self.depth - 1;
        self.top = self.base;
        self.depth = depth;
        self.base = if depth > 0 {
            base_at(&self.bases, depth - 1)
        } else {
            0
        };
    }

    /// Writes a cell of the first row, where it has it.
    #[tactic(auto, using(crate::proofs::RowLaws::set_none, crate::proofs::RowLaws::write_fit))]
    pub fn set(&mut self, x: usize, v: i64)
        ensures { self.new ≡ record { rows = set_first self.old.rows x v; size = self.old.size; most = self.old.most } }
    {
        let base = self.base;
        let top = self.top;
        if x >= top - base {
            return;
        }
        write(&mut self.cells, base + x, v);
    }

    /// How many rows there are.
    #[tactic(auto, using(crate::proofs::RowLaws::rows_length))]
    pub fn depth(&self) -> usize
        ensures { result ≡ length self.now.rows }
    {
        self.depth
    }

    /// Begins a row of so many zeros.
    pub fn begin_zeros(&mut self, n: usize)
        requires deep { length self.old.rows < self.old.most }
        requires room { total self.old.rows + n ≤ self.old.size }
        ensures { self.new ≡ record { rows = replicate n (pos 0) ∷ self.old.rows; size = self.old.size; most = self.old.most } }
    {
        self.begin();
        for i in 0..n {
            self.add(0);
        }
    }

    /// A cell of the first row, where it has it.
    #[tactic(auto, using(crate::proofs::RowLaws::read_view, crate::proofs::RowLaws::read_none, crate::proofs::RowLaws::same_word))]
    pub fn get(&self, x: usize) -> Option<i64>
        ensures { result ≡ slice_get (first self.now.rows) x }
    {
        let base = self.base;
        let top = self.top;
        if x >= top - base {
            return None;
        }
        Some(read(&self.cells, base + x))
    }
}

/// Writes one cell.
pub fn write(cells: &mut Vec<i64>, at: usize, v: i64)
    requires { at < length cells.old.items }
    ensures { cells.new.items ≡ slice_set cells.old.items at v }
{
    cells[at] = v;
}

/// Reads one cell.
pub fn read(cells: &Vec<i64>, at: usize) -> i64
    requires { at < length cells.now.items }
    ensures { result ≡ slice_index_or cells.now.items at (pos 0) }
{
    cells[at]
}

fn write_base(cells: &mut Vec<usize>, at: usize, v: usize)
    requires { at < length cells.old.items }
    ensures { cells.new.items ≡ slice_set cells.old.items at v }
{
    cells[at] = v;
}

fn base_at(cells: &Vec<usize>, at: usize) -> usize
    requires { at < length cells.now.items }
    ensures { result ≡ slice_index_or cells.now.items at 0 }
{
    cells[at]
}
