//! Changes one after another, each against the same change of the whole text.

ghost use Rattle.std.specs.Prelude.{◌≡◌, IfOk, OnOk};
ghost use Rattle.json.specs.Json.{Json};
ghost use Rattle.json_lexemes.specs.Spelled.{IsShallowText};
ghost use Rattle.json_pieces.specs.Whole.{ArePieces, text_of};

use crate::places::shape_name;
use json_pieces::Pieces;
use json_text::{CheckedText, Shape, TextFault};
use jsonptr::Pointer;
use std::alloc::{AllocError, Global};
use thiserror::Error;

/// Why the changes aren't all made.
#[derive(Debug, Drop, Error)]
pub(crate) enum Stop {
    #[error("a line is no change")]
    NoChange,
    #[error("the pieces and the whole text differ")]
    Differ,
    #[error("{0}")]
    Text(TextFault),
}

impl From<TextFault> for Stop {
    fn from(fault: TextFault) -> Stop {
        Stop::Text(fault)
    }
}

impl From<AllocError> for Stop {
    fn from(error: AllocError) -> Stop {
        Stop::Text(TextFault::Memory(error))
    }
}

/// Where each text is read.
const PLACES: [&str; 14] = [
    "",
    "/0",
    "/a",
    "/a/0",
    "/-",
    "/b/c",
    "/list/1/x",
    "/m0",
    "/m3",
    "/m29",
    "/m89",
    "/new",
    "/a~1b~0",
    "/\u{e9}\"\\",
];

/// The text that several changes leave, a line each: `+`, `=` or `-`, where, and what is added or put
/// there. After each the pieces are the whole text, and have what it has at each of the places.
pub(crate) fn changed(a: Global, first: &str, lines: &str) -> Result<String, Stop> {
    let checked = match CheckedText::new(a, first) {
        Ok(checked) => checked,
        Err(fault) => return Err(Stop::Text(fault)),
    };
    let mut pieces = Pieces::new(checked);
    let mut text = String::from_str(a, first)?;
    for line in lines.lines() {
        if let Some(new) = step(a, &mut pieces, text.as_str(), line)? {
            text = new;
        }
        makes(a, &pieces, text.as_str())?;
        read_alike(a, &mut pieces, text.as_str())?;
    }
    Ok(text)
}

/// The change of this kind, of the pieces.
fn change_pieces(
    a: Global,
    pieces: &mut Pieces,
    change: &str,
    pointer: Pointer,
    value: CheckedText,
) -> Result<bool, AllocError>
    requires pieces { ArePieces pieces.old }
    requires shallow { (j : Json) × IsShallowText (text_of pieces.old) j }
    ensures { IfOk result (λ made. ArePieces pieces.new) }
{
    match change {
        "-" => pieces.remove(a, pointer),
        "+" => pieces.add(a, pointer, value),
        _ => pieces.replace(a, pointer, value),
    }
}

/// The same of the whole text.
fn change_whole(
    a: Global,
    whole: CheckedText,
    change: &str,
    pointer: Pointer,
    value: CheckedText,
) -> Result<Option<String>, AllocError> {
    match change {
        "-" => whole.remove(a, pointer),
        "+" => whole.add(a, pointer, value),
        _ => whole.replace(a, pointer, value),
    }
}

/// One change of the whole text, and of the pieces: they agree on whether it is made.
fn step(a: Global, pieces: &mut Pieces, text: &str, line: &str) -> Result<Option<String>, Stop>
    requires pieces { ArePieces pieces.old }
    requires shallow { (j : Json) × IsShallowText (text_of pieces.old) j }
    ensures { IfOk result (λ new. ArePieces pieces.new) }
{
    let (change, rest) = line.split_once(' ').ok_or(Stop::NoChange)?;
    let (place, value) = rest.split_once(' ').ok_or(Stop::NoChange)?;
    let Ok(pointer) = Pointer::parse(place) else {
        return Err(Stop::NoChange);
    };
    let whole = CheckedText::new(a, text)?;
    let wanted = CheckedText::new(a, value)?;
    let made = change_pieces(a, pieces, change, pointer, wanted)?;
    let new = change_whole(a, whole, change, pointer, wanted)?;
    if made != new.is_some() {
        return Err(Stop::Differ);
    }
    Ok(new)
}

/// The pieces make this text.
fn makes(a: Global, pieces: &Pieces, text: &str) -> Result<(), Stop>
    requires { ArePieces pieces.now }
    ensures { OnOk result ((j : Json) × IsShallowText (text_of pieces.now) j) }
{
    let made = pieces.to_text(a)?;
    if made.as_str() != text || pieces.len() != text.len() {
        return Err(Stop::Differ);
    }
    match CheckedText::new(a, made.as_str()) {
        Ok(_) => Ok(()),
        Err(fault) => Err(Stop::Text(fault)),
    }
}

/// What a pointer leads to has one text in both, and the shape of that.
fn reads_alike(a: Global, pieces: &mut Pieces, text: &str, place: &str) -> Result<(), Stop>
    requires pieces { ArePieces pieces.old }
    requires shallow { (j : Json) × IsShallowText (text_of pieces.old) j }
    ensures pieces { OnOk result (ArePieces pieces.new) }
    ensures kept { OnOk result (text_of pieces.new ≡ text_of pieces.old) }
{
    let Ok(pointer) = Pointer::parse(place) else {
        return Err(Stop::NoChange);
    };
    let whole = CheckedText::new(a, text)?;
    let shape = shape_name(pieces.shape(a, pointer)?);
    let alike = match (pieces.value(a, pointer)?, whole.value(a, pointer)?) {
        (Some(found), Some(wanted)) => {
            found.as_str() == wanted.as_str()
                && shape == shape_name(Some(Shape::of(wanted.as_str())))
        }
        (None, None) => shape == shape_name(None),
        _ => false,
    };
    if alike { Ok(()) } else { Err(Stop::Differ) }
}

/// The same at several places.
fn read_alike(a: Global, pieces: &mut Pieces, text: &str) -> Result<(), Stop>
    requires pieces { ArePieces pieces.old }
    requires shallow { (j : Json) × IsShallowText (text_of pieces.old) j }
    ensures pieces { OnOk result (ArePieces pieces.new) }
    ensures kept { OnOk result (text_of pieces.new ≡ text_of pieces.old) }
{
    for place in PLACES {
        reads_alike(a, pieces, text, place)?;
    }
    Ok(())
}
