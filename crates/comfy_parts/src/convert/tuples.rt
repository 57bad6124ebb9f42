//! Cells from tuples: values of several types in one row. The cells of a tuple are those of the
//! next shorter tuple, and one more.

ghost use Rattle.std.specs.Prelude.{[], ◌∷◌};

use crate::convert::{Cells, IntoCell, IntoCells};
use crate::error::Result;
use std::alloc::Global;

impl<A: IntoCell, B: IntoCell> IntoCells for (A, B) {
    ghost cells_of = { λ values. A.cell_of values.0 ∷ B.cell_of values.1 ∷ [] };

    fn into_cells(self, alloc: Global) -> Result<Cells> {
        let (a, b) = self;
        let cells = Cells(Vec::with_capacity(alloc, 2)?);
        cells.with(alloc, a)?.with(alloc, b)
    }
}

impl<A: IntoCell, B: IntoCell, C: IntoCell> IntoCells for (A, B, C) {
    ghost cells_of = { λ values. A.cell_of values.0 ∷ B.cell_of values.1 ∷ C.cell_of values.2
        ∷ [] };

    fn into_cells(self, alloc: Global) -> Result<Cells> {
        let (a, b, c) = self;
        (a, b).into_cells(alloc)?.with(alloc, c)
    }
}

impl<A: IntoCell, B: IntoCell, C: IntoCell, D: IntoCell> IntoCells for (A, B, C, D) {
    ghost cells_of = { λ values. A.cell_of values.0 ∷ B.cell_of values.1 ∷ C.cell_of values.2
        ∷ D.cell_of values.3 ∷ [] };

    fn into_cells(self, alloc: Global) -> Result<Cells> {
        let (a, b, c, d) = self;
        (a, b, c).into_cells(alloc)?.with(alloc, d)
    }
}

impl<A: IntoCell, B: IntoCell, C: IntoCell, D: IntoCell, E: IntoCell> IntoCells
    for (A, B, C, D, E) {
    ghost cells_of = { λ values. A.cell_of values.0 ∷ B.cell_of values.1 ∷ C.cell_of values.2
        ∷ D.cell_of values.3 ∷ E.cell_of values.4 ∷ [] };

    fn into_cells(self, alloc: Global) -> Result<Cells> {
        let (a, b, c, d, e) = self;
        (a, b, c, d).into_cells(alloc)?.with(alloc, e)
    }
}

impl<A: IntoCell, B: IntoCell, C: IntoCell, D: IntoCell, E: IntoCell, F: IntoCell> IntoCells
    for (A, B, C, D, E, F) {
    ghost cells_of = { λ values. A.cell_of values.0 ∷ B.cell_of values.1 ∷ C.cell_of values.2
        ∷ D.cell_of values.3 ∷ E.cell_of values.4 ∷ F.cell_of values.5 ∷ [] };

    fn into_cells(self, alloc: Global) -> Result<Cells> {
        let (a, b, c, d, e, f) = self;
        (a, b, c, d, e).into_cells(alloc)?.with(alloc, f)
    }
}

impl<
    A: IntoCell,
    B: IntoCell,
    C: IntoCell,
    D: IntoCell,
    E: IntoCell,
    F: IntoCell,
    G: IntoCell,
> IntoCells for (A, B, C, D, E, F, G) {
    ghost cells_of = { λ values. A.cell_of values.0 ∷ B.cell_of values.1 ∷ C.cell_of values.2
        ∷ D.cell_of values.3 ∷ E.cell_of values.4 ∷ F.cell_of values.5 ∷ G.cell_of values.6 ∷ [] };

    fn into_cells(self, alloc: Global) -> Result<Cells> {
        let (a, b, c, d, e, f, g) = self;
        (a, b, c, d, e, f).into_cells(alloc)?.with(alloc, g)
    }
}

impl<
    A: IntoCell,
    B: IntoCell,
    C: IntoCell,
    D: IntoCell,
    E: IntoCell,
    F: IntoCell,
    G: IntoCell,
    H: IntoCell,
> IntoCells for (A, B, C, D, E, F, G, H) {
    ghost cells_of = { λ values. A.cell_of values.0 ∷ B.cell_of values.1 ∷ C.cell_of values.2
        ∷ D.cell_of values.3 ∷ E.cell_of values.4 ∷ F.cell_of values.5 ∷ G.cell_of values.6
        ∷ H.cell_of values.7 ∷ [] };

    fn into_cells(self, alloc: Global) -> Result<Cells> {
        let (a, b, c, d, e, f, g, h) = self;
        (a, b, c, d, e, f, g).into_cells(alloc)?.with(alloc, h)
    }
}
