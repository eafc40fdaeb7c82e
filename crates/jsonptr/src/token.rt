//! The tokens of a pointer.

ghost use Rattle.std.specs.Prelude.{◌≡◌, ℕ, ◌<◌, [], ◌∷◌, ◌≤◌, IfOk, IfSome, IfNone, IsOk, OnErr, OnOk, MatchResult};
ghost use Rattle.std.specs.Prelude.{IsTrue, ◌↔◌, length};
ghost use Rattle.std.specs.String.{string_bytes, string_capacity};
ghost use Rattle.jsonptr.specs.Text.{after_tilde, decoded, encoded};
ghost use Rattle.jsonptr.specs.Scanning.{IsEncoded, Escaped, StartsEscape};

use crate::Pointer;
use crate::index::{Index, ParseIndexError};
use std::alloc::{AllocError, Global};

/// A token as it stands in a pointer's string. A contract speaks of the string that it stands for.
#[derive(Clone, Copy, Debug)]
pub struct Token<'a> {
    text: &'a str,
    ghost valid: { IsEncoded text.now },
}

#[tactic(auto, unfolding(crate::specs::Pointers::token_of))]
impl<'a> Token<'a> {
    ghost use Rattle.jsonptr.specs.Pointers.{token_of};
    ghost use Rattle.jsonptr.specs.Indexes.{IsIndexText, IsIndexFault, IsNoIndexText};

    /// The token of a string that is known to be an encoded token.
    pub(crate) fn from_checked(text: &'a str) -> Token<'a>
        requires { IsEncoded text.now }
        ensures { token_of result ≡ decoded text.now }
    {
        Token { text }
    }

    /// The token as it stands in the pointer's string, with its escapes.
    pub fn encoded(&self) -> &'a str
        ensures { result.now ≡ encoded (token_of self.now) }
    {
        self.text
    }

    /// The string that the token stands for.
    pub fn decoded(&self, alloc: Global) -> Result<String, AllocError>
        ensures { IfOk result (λ s. string_bytes s ≡ token_of self.now) }
    {
        let mut out = String::with_capacity(alloc, self.encoded().len())?;
        self.decode_into(&mut out)?;
        Ok(out)
    }

    /// Puts the string that the token stands for into `out`, in place of what that holds. It takes no
    /// memory where `out` has room for the token as it is encoded.
    pub fn decode_into(&self, out: &mut String) -> Result<(), AllocError>
        ensures text { OnOk result (string_bytes out.new ≡ token_of self.now) }
        ensures no_memory { length (encoded (token_of self.now)) ≤ string_capacity out.old
            → IsOk result }
        ensures grows { string_capacity out.old ≤ string_capacity out.new }
    {
        out.clear();
        let mut rest = self.encoded();
        while let Some((plain, after)) = rest.split_once('~') {
            out.push_str(plain)?;
            let (escaped, others) = unescape(after);
            out.push(escaped)?;
            rest = others;
        }
        out.push_str(rest)
    }

    /// Whether the token stands for `key`. Strings are compared as they are, without normalisation.
    pub fn is_key(&self, key: &str) -> bool
        ensures { IsTrue result ↔ (token_of self.now ≡ key.now) }
    {
        let mut rest = self.text.as_bytes();
        for byte in key.as_bytes() {
            match first_decoded(rest) {
                Some((first, others)) if first == *byte => rest = others,
                _ => return false,
            }
        }
        rest.is_empty()
    }

    /// The index that the token names in an array (RFC 6901, section 4).
    ///
    /// It is read from the encoded string, and so are the offsets of its errors.
    pub fn to_index(&self) -> Result<Index, ParseIndexError>
        ensures index { IfOk result (IsIndexText (token_of self.now)) }
        ensures no_index { OnErr result (IsNoIndexText (token_of self.now)) }
        ensures as_parse { MatchResult result
            (IsIndexText (encoded (token_of self.now)))
            (IsIndexFault (encoded (token_of self.now))) }
    {
        Index::parse(self.encoded())
    }
}

/// The tokens of a pointer, from the first on.
#[derive(Clone, Copy, Debug)]
pub struct Tokens<'a> {
    rest: Pointer<'a>,
}

#[tactic(auto, unfolding(crate::specs::Pointers::tokens_left))]
impl<'a> Tokens<'a> {
    ghost use Rattle.jsonptr.specs.Pointers.{tokens_of, tokens_left};

    pub(crate) fn new(rest: Pointer<'a>) -> Tokens<'a>
        ensures { tokens_left result ≡ tokens_of rest.entry }
    {
        Tokens { rest }
    }
}

#[tactic(auto, unfolding(crate::specs::Pointers::tokens_left))]
impl<'a> Iterator for Tokens<'a> {
    ghost use Rattle.std.specs.Iterator.{YieldsFirstBy, item_count};
    ghost use Rattle.jsonptr.specs.Pointers.{token_of, tokens_left};

    type Item = Token<'a>;

    ghost next_gives = { YieldsFirstBy token_of tokens_left };

    ghost remaining = { item_count tokens_left };

    fn next(&mut self) -> Option<Token<'a>> {
        let (first, rest) = self.rest.split_front()?;
        self.rest = rest;
        Some(first)
    }
}

/// The first byte of what the rest of a token decodes to, and the rest after it.
fn first_decoded(rest: &[u8]) -> Option<(u8, &[u8])>
    requires { Escaped rest.now }
    ensures end { IfNone result (rest.now ≡ []) }
    ensures first { IfSome result (λ x. decoded rest.now ≡ x.0 ∷ decoded x.1.now) }
    ensures escaped { IfSome result (λ x. Escaped x.1.now) }
{
    match rest {
        [b'~', b'0', others @ ..] => Some((b'~', others)),
        [b'~', b'1', others @ ..] => Some((b'/', others)),
        [first, others @ ..] => Some((*first, others)),
        [] => None,
    }
}

/// The character that what follows a tilde stands for, and the rest.
fn unescape(after: &str) -> (char, &str)
    requires { StartsEscape after.now }
    ensures rest { (x : ℕ) × (after.now ≡ x ∷ result.1.now) }
    ensures character { after_tilde after.now ≡ result.0 ∷ result.1.now }
    ensures ascii { result.0 < 128 }
{
    if let Some(others) = after.strip_prefix('0') {
        ('~', others)
    } else if let Some(others) = after.strip_prefix('1') {
        ('/', others)
    } else {
        unreachable!()
    }
}
