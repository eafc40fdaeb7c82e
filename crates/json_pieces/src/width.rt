//! How much of a text is open, and when that is too much.

/// Without closing so many members and elements may be open, in a text of any length.
const FEW: usize = 256;

/// And one for so many bytes of the text: open they take some 200 bytes each.
const SHARE: usize = 96;

/// How many members and elements of a text are open, by reckoning: those that are taken out are still counted.
#[derive(Clone, Copy)]
pub(crate) struct Width {
    /// Those that were opened since the text was closed.
    open: usize,
    /// Those that stand open where a mark leads back to.
    kept: usize,
    /// With more the text is closed; 0 until something is opened.
    most: usize,
}

impl Width {
    pub(crate) fn new() -> Width {
        Width {
            open: 0,
            kept: 0,
            most: 0,
        }
    }

    /// So many more are open, of a text of so many bytes. The first ones are on the way to any other, so that
    /// twice as many may always be open: a text is never closed to be opened the same way again.
    pub(crate) fn opened(&mut self, more: usize, length: usize) {
        self.open = self.open.saturating_add(more);
        if self.most == 0 && more > 0 {
            self.most = FEW.max(length / SHARE).max(more.saturating_mul(2));
        }
    }

    /// Whether so many are open that the text is to be closed.
    pub(crate) fn is_large(&self) -> bool {
        self.open > self.most
    }

    /// The text was closed, and what was open is kept or not.
    pub(crate) fn closed(&mut self, kept: bool) {
        *self = Width {
            open: 0,
            kept: if kept { self.open } else { self.kept },
            most: 0,
        };
    }

    /// A mark was gone back to. If it was the last one, what was open there may be so again.
    pub(crate) fn taken_back(&mut self, marked: bool) {
        if !marked {
            self.open = self.open.max(self.kept);
            self.kept = 0;
        }
    }
}
