//! A stretch of the first text.

ghost use Rattle.std.specs.Prelude.{◌≡◌, IsUtf8};

/// A stretch of the first text.
#[derive(Clone, Copy)]
pub(crate) struct Lent<'a> {
    text: &'a str,
    ghost utf8: { ∥ IsUtf8 text.now ∥₁ },
}

impl<'a> Lent<'a> {
    pub(crate) fn new(text: &'a str) -> Lent<'a>
        ensures { result.text.now ≡ text.entry.now }
    {
        Lent { text }
    }

    pub(crate) fn as_str(self) -> &'a str
        ensures { result.now ≡ self.entry.text.now }
    {
        self.text
    }
}
