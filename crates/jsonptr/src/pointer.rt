//! A pointer that borrows its string.

ghost use Rattle.std.specs.Prelude.{◌≡◌, ◌<◌, ◌^◌, length, slice_index, [], ◌∷◌, ◌++◌, IfOk, IfErr, OnErr, OnOk};
ghost use Rattle.std.specs.Prelude.{IfSome, IfNone, IsTrue, ◌↔◌, ◌⊎◌};
ghost use Rattle.jsonptr.specs.Text.{text_of, IsPrefix, IsLongestShared, IsNoPointerText};
ghost use Rattle.jsonptr.specs.Faults.{IsFault};
ghost use Rattle.jsonptr.specs.Scanning.{tokens_of_text, IsOfItsTokens, NoSlash, Starts, BeginSame, AreApart};

use crate::{ParseError, PointerBuf, Token, Tokens};
use std::alloc::{AllocError, Global};
use std::fmt;

/// A JSON pointer (RFC 6901) that borrows its string. It names one location of a document.
///
/// Two pointers are equal where their strings are, which is where their tokens are.
#[derive(Clone, Copy, Debug)]
pub struct Pointer<'a> {
    text: &'a str,
    ghost valid: { IsOfItsTokens text.now },
}

#[tactic(auto, unfolding(crate::specs::Pointers::tokens_of))]
impl<'a> PartialEq for Pointer<'a> {
    ghost use Rattle.std.specs.Prelude.{◌≡◌, IsTrue, ◌↔◌};
    ghost use Rattle.std.specs.Str.{bytes_eq};
    ghost use Rattle.std.specs.Cmp.{on_per, partial_equiv_from_equiv};
    ghost use Rattle.std.specs.Cmp.Lexicographic.{nat_list_eq_equiv};
    ghost use Rattle.jsonptr.specs.Text.{text_of};
    ghost use Rattle.jsonptr.specs.Pointers.{tokens_of};

    ghost eq = { λ a b. bytes_eq (text_of (tokens_of a)) (text_of (tokens_of b)) };

    ghost laws = { on_per (λ p. text_of (tokens_of p)) (partial_equiv_from_equiv nat_list_eq_equiv) };

    fn eq(&self, other: &Pointer<'a>) -> bool
        ensures eq_value { result
            ≡ bytes_eq (text_of (tokens_of self.now)) (text_of (tokens_of other.now)) }
        ensures tokens { IsTrue result ↔ (tokens_of self.now ≡ tokens_of other.now) }
        ensures texts { IsTrue result
            ↔ (text_of (tokens_of self.now) ≡ text_of (tokens_of other.now)) }
    {
        self.as_str() == other.as_str()
    }
}

impl<'a> Eq for Pointer<'a> {
    ghost use Rattle.std.specs.Cmp.{on_equiv};
    ghost use Rattle.std.specs.Cmp.Lexicographic.{nat_list_eq_equiv};
    ghost use Rattle.jsonptr.specs.Text.{text_of};
    ghost use Rattle.jsonptr.specs.Pointers.{tokens_of};

    ghost laws = { on_equiv (λ p. text_of (tokens_of p)) nat_list_eq_equiv };
}

impl<'a> fmt::Display for Pointer<'a> {
    ghost use Rattle.std.specs.Prelude.{Some};
    ghost use Rattle.jsonptr.specs.Text.{text_of};
    ghost use Rattle.jsonptr.specs.Pointers.{tokens_of};

    ghost output = { λ p. Some (text_of (tokens_of p)) };

    /// Writes the pointer's string.
    fn fmt<W: fmt::Write>(&self, f: &mut fmt::Formatter<W>) -> fmt::Result {
        f.write_str(self.as_str())
    }
}

#[tactic(auto, unfolding(crate::specs::Pointers::tokens_of))]
impl<'a> Pointer<'a> {
    ghost use Rattle.jsonptr.specs.Pointers.{tokens_of, token_of, tokens_left};

    /// The pointer of the whole document, whose string is empty.
    pub fn root() -> Pointer<'static>
        ensures { tokens_of result ≡ [] }
    {
        Pointer { text: "" }
    }

    /// The pointer of a string (RFC 6901, section 3).
    ///
    /// `NoLeadingSlash` comes before `InvalidEncoding`, which names the first bad escape.
    pub fn parse(text: &'a str) -> Result<Pointer<'a>, ParseError>
        ensures pointer { IfOk result (λ p. text_of (tokens_of p) ≡ text.now) }
        ensures fault { IfErr result (IsFault text.now) }
        ensures no_pointer { OnErr result (IsNoPointerText text.now) }
    {
        check(text)?;
        Ok(Pointer { text })
    }

    /// The pointer of a string that is known to be a pointer's.
    pub(crate) fn from_checked(text: &'a str) -> Pointer<'a>
        requires { IsOfItsTokens text.now }
        ensures { tokens_of result ≡ tokens_of_text text.now }
    {
        Pointer { text }
    }

    /// A pointer of the same tokens that owns its string.
    pub fn to_buf(&self, alloc: Global) -> Result<PointerBuf, AllocError>
        ensures { IfOk result (λ b. b ≡ tokens_of self.now) }
    {
        PointerBuf::from_checked(alloc, self.text)
    }

    /// The pointer's string.
    pub fn as_str(&self) -> &'a str
        ensures { result.now ≡ text_of (tokens_of self.now) }
    {
        self.text
    }

    /// How many bytes the pointer's string has.
    pub fn len(&self) -> usize
        ensures { result ≡ length (text_of (tokens_of self.now)) }
    {
        self.as_str().len()
    }

    /// Whether the pointer is that of the whole document.
    pub fn is_root(&self) -> bool
        ensures { IsTrue result ↔ (tokens_of self.now ≡ []) }
    {
        self.text.is_empty()
    }

    /// The tokens in order.
    pub fn tokens(&self) -> Tokens<'a>
        ensures value { tokens_left result ≡ tokens_of self.now }
        ensures fits { length (tokens_left result) < 2 ^ 64 }
    {
        // The length of a string fits a `usize`, so the number of the pointer's tokens does.
        let _fits = self.text.len();
        Tokens::new(*self)
    }

    /// The first token, and the pointer of those after it.
    pub(crate) fn split_front(&self) -> Option<(Token<'a>, Pointer<'a>)>
        ensures root { IfNone result (tokens_of self.now ≡ []) }
        ensures first { IfSome result (λ x. tokens_of self.now ≡ token_of x.0 ∷ tokens_of x.1) }
    {
        let inner = self.text.strip_prefix('/')?;
        let (token, rest) = cut_at_slash(inner);
        Some((Token::from_checked(token), Pointer { text: rest }))
    }

    /// The pointer of all tokens but the last, and the last token.
    pub fn split_back(&self) -> Option<(Pointer<'a>, Token<'a>)>
        ensures root { IfNone result (tokens_of self.now ≡ []) }
        ensures last { IfSome result
            (λ x. tokens_of self.now ≡ tokens_of x.0 ++ token_of x.1 ∷ []) }
    {
        let (front, last) = self.text.rsplit_once('/')?;
        Some((Pointer { text: front }, Token::from_checked(last)))
    }

    /// Whether the tokens of `prefix` begin this pointer's tokens.
    pub fn starts_with(&self, prefix: Pointer) -> bool
        ensures { IsTrue result ↔ IsPrefix (tokens_of prefix.entry) (tokens_of self.now) }
    {
        self.strip_prefix(prefix).is_some()
    }

    /// The pointer of the tokens after those of `prefix`.
    pub fn strip_prefix(&self, prefix: Pointer) -> Option<Pointer<'a>>
        ensures rest { IfSome result
            (λ p. tokens_of self.now ≡ tokens_of prefix.entry ++ tokens_of p) }
        ensures none { IfNone result (¬ IsPrefix (tokens_of prefix.entry) (tokens_of self.now)) }
    {
        let text = self.text.strip_prefix(prefix.text)?;
        if begins_well(text) {
            Some(Pointer { text })
        } else {
            None
        }
    }

    /// The longest pointer with which this one and `other` both start. It goes by tokens: `/ab` and
    /// `/a` share the root alone.
    pub fn shared_with(&self, other: Pointer) -> Pointer<'a>
        ensures { IsLongestShared (tokens_of self.now) (tokens_of other.entry) (tokens_of result) }
    {
        let mut rest = *self;
        let mut others = other;
        while let Some((left, right)) = rest.skip_same(&others) {
            rest = left;
            others = right;
        }
        let Some(text) = self.text.strip_suffix(rest.text) else {
            unreachable!()
        };
        Pointer { text }
    }

    /// What is left of both pointers after their first token, where that is the same.
    fn skip_same<'b>(&self, other: &Pointer<'b>) -> Option<(Pointer<'a>, Pointer<'b>)>
        ensures same { IfSome result
            (λ x. BeginSame (tokens_of self.now) (tokens_of other.now) (tokens_of x.0) (tokens_of x.1)) }
        ensures apart { IfNone result (AreApart (tokens_of self.now) (tokens_of other.now)) }
    {
        let (first, rest) = self.split_front()?;
        let (second, others) = other.split_front()?;
        if first.encoded() != second.encoded() {
            return None;
        }
        Some((rest, others))
    }
}

/// Whether the string is a pointer's.
fn check(text: &str) -> Result<(), ParseError>
    ensures pointer { OnOk result (IsOfItsTokens text.now) }
    ensures fault { IfErr result (IsFault text.now) }
{
    let bytes = text.as_bytes();
    if !bytes.is_empty() && bytes[0] != b'/' {
        return Err(ParseError::NoLeadingSlash);
    }
    for (offset, byte) in bytes.iter().enumerate() {
        if *byte == b'~' && !starts_escape(&bytes[offset + 1..]) {
            return Err(ParseError::InvalidEncoding { offset });
        }
    }
    Ok(())
}

/// Whether 0 or 1 stands at the front.
fn starts_escape(rest: &[u8]) -> bool
    ensures { IsTrue result ↔ (slice_index rest.now 0 ≡ 48) ⊎ (slice_index rest.now 0 ≡ 49) }
{
    match rest {
        [b'0' | b'1', ..] => true,
        _ => false,
    }
}

/// The string up to its first slash, and from there on.
fn cut_at_slash(text: &str) -> (&str, &str)
    ensures whole { text.now ≡ result.0.now ++ result.1.now }
    ensures front { NoSlash result.0.now }
    ensures back { Starts result.1.now }
{
    match text.find('/') {
        Some(end) => text.split_at(end),
        None => (text, ""),
    }
}

/// Whether the string is empty or begins with a slash.
fn begins_well(text: &str) -> bool
    ensures { IsTrue result ↔ Starts text.now }
{
    match text.as_bytes() {
        [] | [b'/', ..] => true,
        _ => false,
    }
}
