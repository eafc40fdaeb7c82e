//! A JSON text in pieces.

use crate::edit::{Edit, edit_at, put_text};
use crate::log::Log;
use crate::means::Means;
use crate::node::{Node, write, written};
use crate::shape::shape_at;
use crate::taken::Taken;
use crate::text::Text;
use crate::width::Width;
use crate::work::Work;
use json_text::{CheckedText, Shape, split_off_whitespace};
use jsonptr::{Pointer, Tokens};
use std::alloc::{AllocError, Global};

/// A JSON text in pieces.
///
/// At first the text is one piece. A call goes down by the pointer's tokens and opens each object and
/// array that it comes to: one pass over its text, after which it stays open, until a mark or
/// [`close_if_large`](Pieces::close_if_large) closes all. One of at most 1,024 bytes that owns them is
/// never opened, and a change in it makes another text. In an open array an element
/// is found at once, in an open object a member by comparing names. When an object of at least 32 members
/// has been asked for a name 16 times, the next call makes an index of its names, and a member is found
/// in as many steps as the logarithm of their number. The index is kept while members are added and
/// removed. An open one stands in blocks of at most 256 members or elements: one that comes or goes
/// moves those of its block alone. It takes some 170 bytes of memory for each, and an index, by
/// reckoning, some 110 for each name, with the name once more.
///
/// Since a [`mark`](Pieces::mark) each change keeps the steps that take it back, and what it takes out or
/// exchanges; without one nothing is kept. [`take_back`](Pieces::take_back) goes these steps, from the last
/// to the first.
///
/// A call that runs out of memory leaves the text as it was, and the pieces are fit for more. `replace`
/// and `add` may leave a text that nests deeper than 128 levels, and the next call asks for one that
/// doesn't; `json_text::laws::depths` tells how deep a text nests after a change.
#[derive(Drop)]
pub struct Pieces<'a> {
    before: Text<'a>,
    root: Node<'a>,
    behind: Text<'a>,
    log: Log<'a>,
    width: Width,
}

impl<'a> Pieces<'a> {
    ghost use Rattle.std.specs.Prelude.{◌≡◌, List, ℕ, None, IfOk, IfSome, MatchOption, OnErr, OnOk, is_some, length, option_map};
    ghost use Rattle.std.specs.String.{string_bytes};
    ghost use Rattle.json.specs.Json.{Json};
    ghost use Rattle.jsonptr.specs.Pointers.{tokens_left, tokens_of};
    ghost use Rattle.json_pieces.specs.Edits.{IsReady, Makes};
    ghost use Rattle.json_lexemes.specs.Spelled.{Says};
    ghost use Rattle.json_pieces.specs.Changes.{Adds, IsValueIn, Removes, Replaces};
    ghost use Rattle.json_pieces.specs.Nodes.{IsSound, IsWhole, tree_text, view};
    ghost use Rattle.json_pieces.specs.Whole.{ArePieces, IsTaken, KeepsBack, LeadsBack, LeadsFurther, taken_text, text_of};
    ghost use Rattle.json_text.specs.Checked.{text_in};
    ghost use Rattle.json_text.specs.Listing.{shape_of};
    ghost use Rattle.json_text.specs.Pointed.{tree_at, IsWrittenAt};
    ghost use Rattle.json_lexemes.specs.Spelled.{IsShallowText};

    /// The text, in one piece: only the whitespace around its value is looked for, and nothing is copied.
    ///
    /// ```rust
    /// let text = CheckedText::new(alloc, r#"{"list": [1.50, 2] }"#)?;
    /// let mut pieces = Pieces::new(text);
    /// ```
    pub fn new(text: CheckedText<'a>) -> Pieces<'a>
        ensures pieces { ArePieces result }
        ensures text { text_of result ≡ text_in text.entry }
        ensures shallow { (j : Json) × IsShallowText (text_of result) j }
    {
        let text = text.as_str();
        // The length of a text fits a `usize`.
        let _fits = text.len();
        let (before, value, behind) = split_off_whitespace(text);
        Pieces {
            before: Text::kept(before),
            root: Node::Closed(Text::kept(value)),
            behind: Text::kept(behind),
            log: Log::Off,
            width: Width::new(),
        }
    }

    /// The text, in one piece, as [`new`](Pieces::new) takes it, but copied: such pieces borrow from nothing,
    /// and an object or an array that is opened is copied part by part.
    ///
    /// ```rust
    /// let text = CheckedText::new(alloc, r#"{"list": [1.50, 2] }"#)?;
    /// let mut pieces = Pieces::owned(alloc, text)?;
    /// ```
    pub fn owned(alloc: Global, text: CheckedText) -> Result<Pieces<'a>, AllocError>
        ensures pieces { IfOk result (λ pieces. ArePieces pieces) }
        ensures text { IfOk result (λ pieces. text_of pieces ≡ text_in text.entry) }
        ensures shallow { IfOk result (λ pieces. (j : Json) × IsShallowText (text_of pieces) j) }
    {
        let text = text.as_str();
        // The length of a text fits a `usize`.
        let _fits = text.len();
        let (front, value, back) = split_off_whitespace(text);
        let before = Text::made(alloc, front)?;
        let root = Node::Closed(Text::made(alloc, value)?);
        let behind = Text::made(alloc, back)?;
        Ok(Pieces {
            before,
            root,
            behind,
            log: Log::Off,
            width: Width::new(),
        })
    }

    /// From here on changes can be taken back, to the text as it is now, and `take` answers a copy of the
    /// value, since the value itself is kept. Of the marks before, the last one stays.
    ///
    /// ```rust
    /// pieces.mark(alloc)?;
    /// let done = pieces.remove(alloc, place)?;
    /// ```
    pub fn mark(&mut self, alloc: Global) -> Result<(), AllocError>
        requires { ArePieces self.old }
        ensures pieces { ArePieces self.new }
        ensures kept { text_of self.new ≡ text_of self.old }
        ensures marked { OnOk result (LeadsBack self.new (text_of self.old)) }
        ensures further { OnOk result ((t : List ℕ) → LeadsBack self.old t → LeadsFurther self.new t) }
        ensures unchanged { OnErr result (KeepsBack self.old self.new) }
    {
        self.close_if_large(alloc)?;
        self.log.mark(alloc)?;
        Ok(())
    }

    /// Closes the text, if so much of it is open that it takes some three times its memory and twice what the
    /// first call opened: it is one piece again. A mark does this first. Between marks it is for whoever
    /// looks at many values: what stood open at the mark is kept until that is taken away.
    ///
    /// ```rust
    /// pieces.close_if_large(alloc)?;
    /// let array = pieces.value(alloc, place)?;
    /// ```
    pub fn close_if_large(&mut self, alloc: Global) -> Result<(), AllocError>
        requires { ArePieces self.old }
        ensures pieces { ArePieces self.new }
        ensures kept { text_of self.new ≡ text_of self.old }
        ensures back { KeepsBack self.old self.new }
    {
        if !self.width.is_large() {
            return Ok(());
        }
        let text = written(alloc, &self.root)?;
        if self.log.starts_over() {
            self.root = Node::Closed(Text::Made(text));
            self.width.closed(false);
            return Ok(());
        }
        self.log.ready()?;
        let mut work = Work::new(Means { alloc, room: 0 }, self.log.is_on(), true);
        put_text(&mut work, &mut self.root, text)?;
        self.log.keep(work);
        self.width.closed(self.log.is_on());
        Ok(())
    }

    /// Takes back every change since the mark, from the last to the first. The mark before, if there was
    /// one, is the last one then. It asks for no memory and can't fail. What was opened since then stays
    /// open.
    ///
    /// ```rust
    /// pieces.take_back();
    /// let old = pieces.to_text(alloc)?;
    /// // {"list": [1.50, 2] }
    /// ```
    pub fn take_back(&mut self)
        requires pieces { ArePieces self.old }
        ensures pieces { ArePieces self.new }
        ensures back { (t : List ℕ) → LeadsBack self.old t → text_of self.new ≡ t }
        ensures further { (t : List ℕ) → LeadsFurther self.old t → LeadsBack self.new t }
    {
        self.log.take_back(&mut self.root);
        self.width.taken_back(self.log.is_on());
    }

    /// Takes the marks away, and lets go what was kept since: the changes stay.
    ///
    /// ```rust
    /// pieces.forget();
    /// ```
    pub fn forget(&mut self)
        requires { ArePieces self.old }
        ensures pieces { ArePieces self.new }
        ensures kept { text_of self.new ≡ text_of self.old }
    {
        self.log = Log::Off;
    }

    /// How many bytes the text has. The number is kept, so this costs nothing.
    pub fn len(&self) -> usize
        requires { ArePieces self.now }
        ensures { result ≡ length (text_of self.now) }
    {
        self.before.len() + self.root.len() + self.behind.len()
    }

    /// The text, put together in one new string. The pieces stay as they are.
    ///
    /// ```rust
    /// let new = pieces.to_text(alloc)?;
    /// ```
    pub fn to_text(&self, alloc: Global) -> Result<String, AllocError>
        requires { ArePieces self.now }
        ensures { IfOk result (λ text. string_bytes text ≡ text_of self.now) }
    {
        let mut out = String::with_capacity(alloc, self.len())?;
        out.push_str(self.before.as_str())?;
        write(&self.root, &mut out)?;
        out.push_str(self.behind.as_str())?;
        Ok(out)
    }

    /// Makes the edit, if the length of the text that it leaves fits a `usize`.
    fn edit(
        &mut self,
        alloc: Global,
        path: Tokens,
        edit: Edit<'_, 'a>,
    ) -> Result<Option<Node<'a>>, AllocError>
        requires pieces { ArePieces self.old }
        requires ready { IsReady edit }
        ensures pieces { ArePieces self.new }
        ensures unchanged { OnErr result (text_of self.new ≡ text_of self.old) }
        ensures makes { IfOk result (λ found. (j : Json) → Says (text_of self.old) j
            → Makes edit.entry (text_of self.old) j (tokens_left path.entry) (text_of self.new) found) }
        ensures sound { IfOk result (λ found. IfSome found (λ out. IsSound (view out))) }
        ensures back { KeepsBack self.old self.new }
    {
        let room = usize::MAX - self.len();
        self.log.ready()?;
        let mut work = Work::new(Means { alloc, room }, self.log.is_on(), true);
        let found = edit_at(&mut work, &mut self.root, path, edit);
        self.width.opened(work.opened, self.root.len());
        // Also where memory ran out, and then there are no steps.
        self.log.keep(work);
        found
    }

    /// The text of the value where the pointer leads (RFC 6901, section 4), as it is written, in a new
    /// string; `None` where nothing stands there. The text stays as it is, though more of it is open:
    /// the objects and arrays on the way, and not the value.
    ///
    /// ```rust
    /// let array = pieces.value(alloc, place)?;
    /// // [1.50, 2]
    /// ```
    pub fn value(&mut self, alloc: Global, pointer: Pointer) -> Result<Option<String>, AllocError>
        requires pieces { ArePieces self.old }
        requires shallow { (j : Json) × IsShallowText (text_of self.old) j }
        ensures pieces { ArePieces self.new }
        ensures kept { text_of self.new ≡ text_of self.old }
        ensures value { IfOk result (λ found. (j : Json) × IsShallowText (text_of self.old) j
            × MatchOption found (tree_at (tokens_of pointer.entry) j ≡ None)
            (λ s. IsWrittenAt (text_of self.old) j (tokens_of pointer.entry) (string_bytes s))) }
        ensures back { KeepsBack self.old self.new }
    {
        match self.edit(alloc, pointer.tokens(), Edit::Read)? {
            Some(copy) => Ok(Some(copy.into_text(alloc)?)),
            None => Ok(None),
        }
    }

    /// What stands where the pointer leads (RFC 6901, section 4): an object, an array, a string or an
    /// atom; `None` where nothing stands there. It copies nothing. The text stays as it is, though more of
    /// it is open: the objects and arrays on the way, and not the value.
    ///
    /// ```rust
    /// let shape = pieces.shape(alloc, place)?;
    /// // Array
    /// ```
    pub fn shape(&mut self, alloc: Global, pointer: Pointer) -> Result<Option<Shape>, AllocError>
        requires pieces { ArePieces self.old }
        requires shallow { (j : Json) × IsShallowText (text_of self.old) j }
        ensures pieces { ArePieces self.new }
        ensures kept { text_of self.new ≡ text_of self.old }
        ensures shape { IfOk result (λ found. (j : Json) → Says (text_of self.old) j
            → found ≡ option_map shape_of (tree_at (tokens_of pointer.entry) j)) }
        ensures back { KeepsBack self.old self.new }
    {
        let mut opened = 0;
        let shape = shape_at(alloc, &mut self.root, pointer.tokens(), &mut opened);
        self.width.opened(opened, self.root.len());
        shape
    }

    /// Puts the value in the place of that where the pointer leads, if one stands there.
    fn exchange(
        &mut self,
        alloc: Global,
        pointer: Pointer,
        value: Node<'a>,
    ) -> Result<bool, AllocError>
        requires pieces { ArePieces self.old }
        requires shallow { (j : Json) × IsShallowText (text_of self.old) j }
        requires value { IsWhole (view value) }
        ensures pieces { ArePieces self.new }
        ensures unchanged { OnErr result (text_of self.new ≡ text_of self.old) }
        ensures replaced { IfOk result (λ done. (text : List ℕ) → IsValueIn text (tree_text (view value.entry))
            → Replaces (text_of self.old) (tokens_of pointer.entry) text (text_of self.new) done) }
        ensures back { KeepsBack self.old self.new }
    {
        let found = self.edit(alloc, pointer.tokens(), Edit::Put(value))?;
        Ok(found.is_some())
    }

    /// Exchanges the value where the pointer leads for another, as it is written, without the whitespace
    /// around it. `false` where nothing stands there, and then the text is as before.
    ///
    /// ```rust
    /// let done = pieces.replace(alloc, place, value)?;
    /// let new = pieces.to_text(alloc)?;
    /// // {"list": [1.50, 7] }
    /// ```
    pub fn replace(
        &mut self,
        alloc: Global,
        pointer: Pointer,
        value: CheckedText,
    ) -> Result<bool, AllocError>
        requires pieces { ArePieces self.old }
        requires shallow { (j : Json) × IsShallowText (text_of self.old) j }
        ensures pieces { ArePieces self.new }
        ensures unchanged { OnErr result (text_of self.new ≡ text_of self.old) }
        ensures replaced { IfOk result (Replaces (text_of self.old) (tokens_of pointer.entry) (text_in value.entry) (text_of self.new)) }
        ensures back { KeepsBack self.old self.new }
    {
        let value = Taken::new(alloc, value)?;
        self.exchange(alloc, pointer, value.node)
    }

    /// Takes out the member or element where the pointer leads (RFC 6902, section 4.2), as `remove` does,
    /// and answers its value: of several members of one name the last one's. `None` where nothing stands
    /// there, and of the whole, and then the text is as before. Since a mark it answers a copy.
    ///
    /// With [`put`](Pieces::put) this is a `move` (RFC 6902, section 4.4), which takes no longer for a long
    /// value than for a short one.
    ///
    /// ```rust
    /// if let Some(taken) = pieces.take(alloc, from)? {
    ///     let done = pieces.put(alloc, place, taken)?;
    ///     let new = pieces.to_text(alloc)?;
    ///     // {"list": [2,1.50] }
    /// }
    /// ```
    pub fn take(&mut self, alloc: Global, pointer: Pointer) -> Result<Option<Taken<'a>>, AllocError>
        requires pieces { ArePieces self.old }
        requires shallow { (j : Json) × IsShallowText (text_of self.old) j }
        ensures pieces { ArePieces self.new }
        ensures unchanged { OnErr result (text_of self.new ≡ text_of self.old) }
        ensures removed { IfOk result (λ found.
            Removes (text_of self.old) (tokens_of pointer.entry) (text_of self.new) (is_some found)) }
        ensures shallow { IfOk result (λ found. (j : Json) × IsShallowText (text_of self.new) j) }
        ensures taken { IfOk result (λ found. IfSome found (λ taken. IsTaken taken)) }
        ensures value { IfOk result (λ found. IfSome found (λ taken. (j : Json) × IsShallowText (text_of self.old) j
            × IsWrittenAt (text_of self.old) j (tokens_of pointer.entry) (taken_text taken))) }
        ensures back { KeepsBack self.old self.new }
    {
        let Some((parent, last)) = pointer.split_back() else {
            return Ok(None);
        };
        let name = last.decoded(alloc)?;
        match self.edit(alloc, parent.tokens(), Edit::Take(name.as_str()))? {
            Some(node) => Ok(Some(Taken { node })),
            None => Ok(None),
        }
    }

    /// Takes out the member or element where the pointer leads (RFC 6902, section 4.2), and of several
    /// members of one name all, with the comma and the whitespace that `json_text::remove` cuts. `false`
    /// where nothing stands there, and of the whole, and then the text is as before.
    ///
    /// ```rust
    /// let done = pieces.remove(alloc, place)?;
    /// let new = pieces.to_text(alloc)?;
    /// // {"list": [1.50] }
    /// ```
    pub fn remove(&mut self, alloc: Global, pointer: Pointer) -> Result<bool, AllocError>
        requires pieces { ArePieces self.old }
        requires shallow { (j : Json) × IsShallowText (text_of self.old) j }
        ensures pieces { ArePieces self.new }
        ensures unchanged { OnErr result (text_of self.new ≡ text_of self.old) }
        ensures removed { IfOk result (Removes (text_of self.old) (tokens_of pointer.entry) (text_of self.new)) }
        ensures back { KeepsBack self.old self.new }
    {
        let taken = self.take(alloc, pointer)?;
        Ok(taken.is_some())
    }

    /// Puts the value in as what the last token names, or in the place of the whole.
    fn insert(
        &mut self,
        alloc: Global,
        pointer: Pointer,
        value: Node<'a>,
    ) -> Result<bool, AllocError>
        requires pieces { ArePieces self.old }
        requires shallow { (j : Json) × IsShallowText (text_of self.old) j }
        requires value { IsWhole (view value) }
        ensures pieces { ArePieces self.new }
        ensures unchanged { OnErr result (text_of self.new ≡ text_of self.old) }
        ensures added { IfOk result (λ done. (text : List ℕ) → IsValueIn text (tree_text (view value.entry))
            → Adds (text_of self.old) (tokens_of pointer.entry) text (text_of self.new) done) }
        ensures back { KeepsBack self.old self.new }
    {
        let Some((parent, last)) = pointer.split_back() else {
            return self.exchange(alloc, pointer, value);
        };
        let name = last.decoded(alloc)?;
        let found = self.edit(alloc, parent.tokens(), Edit::Insert(name.as_str(), value))?;
        Ok(found.is_some())
    }

    /// Adds a value where the pointer leads (RFC 6902, section 4.1), as it is written, with the comma,
    /// the whitespace and the colon that `json_text::add` gives it. `false` where there is no place for
    /// it, and then the text is as before.
    ///
    /// ```rust
    /// let done = pieces.add(alloc, place, value)?;
    /// let new = pieces.to_text(alloc)?;
    /// // {"list": [1.50, 7, 2] }
    /// ```
    pub fn add(
        &mut self,
        alloc: Global,
        pointer: Pointer,
        value: CheckedText,
    ) -> Result<bool, AllocError>
        requires pieces { ArePieces self.old }
        requires shallow { (j : Json) × IsShallowText (text_of self.old) j }
        ensures pieces { ArePieces self.new }
        ensures unchanged { OnErr result (text_of self.new ≡ text_of self.old) }
        ensures added { IfOk result (Adds (text_of self.old) (tokens_of pointer.entry) (text_in value.entry) (text_of self.new)) }
        ensures back { KeepsBack self.old self.new }
    {
        let value = Taken::new(alloc, value)?;
        self.insert(alloc, pointer, value.node)
    }

    /// Adds a value that stands in no text, as [`add`](Pieces::add) does one by its text. `false` where there
    /// is no place for it, and then the text is as before, and the value is gone.
    ///
    /// ```rust
    /// let done = pieces.put(alloc, place, taken)?;
    /// ```
    pub fn put(
        &mut self,
        alloc: Global,
        pointer: Pointer,
        taken: Taken<'a>,
    ) -> Result<bool, AllocError>
        requires pieces { ArePieces self.old }
        requires shallow { (j : Json) × IsShallowText (text_of self.old) j }
        requires taken { IsTaken taken }
        ensures pieces { ArePieces self.new }
        ensures unchanged { OnErr result (text_of self.new ≡ text_of self.old) }
        ensures added { IfOk result (Adds (text_of self.old) (tokens_of pointer.entry) (taken_text taken.entry) (text_of self.new)) }
        ensures back { KeepsBack self.old self.new }
    {
        self.insert(alloc, pointer, taken.node)
    }
}
