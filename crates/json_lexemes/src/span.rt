//! The place of a value's text, and what comes next.

/// From the first byte of a value to the one after its last.
#[derive(Clone, Copy, Debug, Drop)]
pub struct Span {
    pub start: usize,
    pub end: usize,
}

/// What comes next inside of an object or an array.
#[derive(Clone, Copy, Debug, Drop)]
pub enum Next {
    /// A value of the name or number, which begins here.
    Value(usize),
    /// None: this is the place behind the closing bracket.
    End(usize),
}
