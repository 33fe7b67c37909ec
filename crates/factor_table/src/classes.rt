//! The classes of a row's edges: what the row knows of them, and all of them where they can be asked.

ghost use Rattle.std.specs.Prelude.{◌≡◌, ◌<◌, ℕ, List, Option, Some, None, length, replicate, slice_get};
ghost use Rattle.factor_table.specs.KnownClasses.{all_zero};

/// The classes of a row's edges, as far as they are known without asking.
pub trait Classes {
    // the known class, or none, at each place of the row
    ghost known_classes: { Self → List (Option ℕ) };

    /// The class of an edge, by its place in the row, where it is known.
    fn known(&self, edge: usize) -> Option<usize>
        requires { edge < length (known_classes self.now) }
        ensures { Some result ≡ slice_get (known_classes self.now) edge };
}

/// A row whose edges' classes can all be asked.
pub trait RowClasses: Classes {
    // the class at each place of the row
    ghost classes: { Self → List ℕ };

    // the run of the return edges, where class 0 is theirs
    ghost back: { Self → Option (ℕ × ℕ) };

    /// The class of an edge, by its place in the row.
    fn class_at(&self, edge: usize) -> usize
        requires { edge < length (classes self.now) }
        ensures { Some result ≡ slice_get (classes self.now) edge };

    /// The place of the first return edge and the one behind the last, where class 0 is theirs.
    fn back(&self) -> Option<(usize, usize)>
        ensures { result ≡ back self.now };
}

/// A row whose edges are all of class 0.
#[derive(Clone, Copy, Debug)]
pub struct OneClass {
    pub len: usize,
}

impl Classes for OneClass {
    ghost known_classes = { λ row. all_zero row.len };

    #[inline]
    fn known(&self, _edge: usize) -> Option<usize> {
        Some(0)
    }
}

impl RowClasses for OneClass {
    ghost classes = { λ row. replicate row.len 0 };

    ghost back = { λ row. None };

    #[inline]
    fn class_at(&self, _edge: usize) -> usize {
        0
    }

    #[inline]
    fn back(&self) -> Option<(usize, usize)> {
        None
    }
}
