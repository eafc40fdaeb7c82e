//! A pointer that owns its string.

ghost use Rattle.std.specs.Prelude.{◌≡◌, ◌≢◌, [], ◌∷◌, ◌++◌, IfOk, IfErr, OnErr, OnOk};
ghost use Rattle.std.specs.Char.{encode_utf8};
ghost use Rattle.std.specs.String.{string_bytes};
ghost use Rattle.jsonptr.specs.Text.{text_of, encoded, IsPointerText, IsNoPointerText, ReplacesLast};
ghost use Rattle.jsonptr.specs.Scanning.{tokens_of_text, IsOfItsTokens};
ghost use Rattle.jsonptr.specs.Pointers.{tokens_of};
ghost use Rattle.jsonptr.specs.Faults.{IsFault, IfParse, OnParse, OnMemory};

use crate::{Pointer, PointerFault};
use std::alloc::{AllocError, Global};
use std::fmt;
use std::marker::Model;

/// A JSON pointer (RFC 6901) that owns its string. A contract sees it as the list of its tokens.
///
/// The root holds no memory, and so no allocator: a call that grows a pointer takes one.
#[derive(Drop, Debug)]
pub struct PointerBuf {
    text: Option<String>,
}

impl Model for PointerBuf {
    ghost use Rattle.std.specs.Prelude.{ℕ, List};
    ghost use Rattle.jsonptr.specs.Scanning.{tokens_of_text, IsOfItsTokens};
    ghost use Rattle.jsonptr.specs.Owned.{owned_text};

    ghost Value = { List (List ℕ) };

    ghost view = { λ p. tokens_of_text (owned_text p.text) };

    ghost invariant = { λ p. IsOfItsTokens (owned_text p.text) };
}

impl Default for PointerBuf {
    ghost is_default = { λ p. p ≡ [] };

    /// The root.
    fn default() -> PointerBuf {
        PointerBuf::new()
    }
}

impl PartialEq for PointerBuf {
    ghost use Rattle.std.specs.Prelude.{◌≡◌, IsTrue, ◌↔◌};
    ghost use Rattle.std.specs.Str.{bytes_eq};
    ghost use Rattle.std.specs.Cmp.{on_per, partial_equiv_from_equiv};
    ghost use Rattle.std.specs.Cmp.Lexicographic.{nat_list_eq_equiv};
    ghost use Rattle.jsonptr.specs.Text.{text_of};

    ghost eq = { λ a b. bytes_eq (text_of a) (text_of b) };

    ghost laws = { on_per text_of (partial_equiv_from_equiv nat_list_eq_equiv) };

    fn eq(&self, other: &PointerBuf) -> bool
        ensures eq_value { result ≡ bytes_eq (text_of self.now) (text_of other.now) }
        ensures tokens { IsTrue result ↔ (self.now ≡ other.now) }
        ensures texts { IsTrue result ↔ (text_of self.now ≡ text_of other.now) }
    {
        self.as_str() == other.as_str()
    }
}

impl Eq for PointerBuf {
    ghost use Rattle.std.specs.Cmp.{on_equiv};
    ghost use Rattle.std.specs.Cmp.Lexicographic.{nat_list_eq_equiv};
    ghost use Rattle.jsonptr.specs.Text.{text_of};

    ghost laws = { on_equiv text_of nat_list_eq_equiv };
}

impl fmt::Display for PointerBuf {
    ghost use Rattle.std.specs.Prelude.{Some};
    ghost use Rattle.jsonptr.specs.Text.{text_of};

    ghost output = { λ p. Some (text_of p) };

    /// Writes the pointer's string.
    fn fmt<W: fmt::Write>(&self, f: &mut fmt::Formatter<W>) -> fmt::Result {
        f.write_str(self.as_str())
    }
}

impl PointerBuf {
    /// The root, which holds no memory.
    pub fn new() -> PointerBuf
        ensures { result ≡ [] }
    {
        PointerBuf { text: None }
    }

    /// The pointer of a string that is known to be a pointer's.
    pub(crate) fn from_checked(alloc: Global, text: &str) -> Result<PointerBuf, AllocError>
        requires { IsOfItsTokens text.now }
        ensures { IfOk result (λ b. b ≡ tokens_of_text text.now) }
    {
        if text.is_empty() {
            return Ok(PointerBuf::new());
        }
        Ok(PointerBuf {
            text: Some(String::from_str(alloc, text)?),
        })
    }

    /// The pointer of a string (RFC 6901, section 3).
    ///
    /// A fault of the string is that of `Pointer::parse`, and comes before memory is taken.
    pub fn parse(alloc: Global, text: &str) -> Result<PointerBuf, PointerFault>
        ensures pointer { IfOk result (λ b. text_of b ≡ text.now) }
        ensures fault { IfErr result (λ f. IfParse f (IsFault text.now)) }
        ensures no_pointer { IfErr result (λ f. OnParse f (IsNoPointerText text.now)) }
        ensures memory { IfErr result (λ f. OnMemory f (IsPointerText text.now)) }
    {
        let pointer = Pointer::parse(text).map_err(PointerFault::Parse)?;
        pointer.to_buf(alloc).map_err(PointerFault::Memory)
    }

    /// A copy.
    pub fn clone(&self, alloc: Global) -> Result<PointerBuf, AllocError>
        ensures { IfOk result (λ b. b ≡ self.now) }
    {
        self.as_pointer().to_buf(alloc)
    }

    /// The same pointer, borrowed.
    pub fn as_pointer(&self) -> Pointer<'_>
        ensures { tokens_of result ≡ self.now }
    {
        match &self.text {
            Some(text) => Pointer::from_checked(text.as_str()),
            None => Pointer::root(),
        }
    }

    /// The pointer's string.
    pub fn as_str(&self) -> &str
        ensures { result.now ≡ text_of self.now }
    {
        self.as_pointer().as_str()
    }

    /// Adds a token at the end, whose decoded string is `raw`. It changes nothing when refused.
    pub fn push_back(&mut self, alloc: Global, raw: &str) -> Result<(), AllocError>
        ensures ok { OnOk result (self.new ≡ self.old ++ raw.now ∷ []) }
        ensures err { OnErr result (self.new ≡ self.old) }
    {
        let token = encoded_token(alloc, raw)?;
        if let Some(text) = &mut self.text {
            text.push_str(token.as_str())?;
            return Ok(());
        }
        self.text = Some(token);
        Ok(())
    }

    /// A new pointer that has `raw` as its decoded last token in place of this pointer's.
    pub fn with_last(&self, alloc: Global, raw: &str) -> Result<PointerBuf, AllocError>
        requires { self.now ≢ [] }
        ensures { IfOk result (ReplacesLast self.now raw.now) }
    {
        let Some((front, _)) = self.as_pointer().split_back() else {
            unreachable!()
        };
        let front = front.as_str();
        let mut text = String::with_capacity(alloc, front.len() + 1 + raw.len())?;
        text.push_str(front)?;
        push_token(&mut text, raw)?;
        Ok(PointerBuf { text: Some(text) })
    }
}

/// A slash and the encoded token.
fn encoded_token(alloc: Global, raw: &str) -> Result<String, AllocError>
    ensures { IfOk result (λ s. string_bytes s ≡ 47 ∷ encoded raw.now) }
{
    let mut token = String::with_capacity(alloc, raw.len() + 1)?;
    push_token(&mut token, raw)?;
    Ok(token)
}

/// Adds a slash and the encoded token.
fn push_token(out: &mut String, raw: &str) -> Result<(), AllocError>
    ensures { OnOk result (string_bytes out.new ≡ string_bytes out.old ++ 47 ∷ encoded raw.now) }
{
    out.push('/')?;
    for c in raw.chars() {
        push_encoded(out, c)?;
    }
    Ok(())
}

/// Adds a character of a token, encoded.
fn push_encoded(out: &mut String, c: char) -> Result<(), AllocError>
    ensures { OnOk result (string_bytes out.new ≡ string_bytes out.old ++ encoded (encode_utf8 c)) }
{
    match c {
        '~' => out.push_str("~0"),
        '/' => out.push_str("~1"),
        _ => out.push(c),
    }
}
