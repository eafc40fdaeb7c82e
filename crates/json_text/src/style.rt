//! What a new member or element takes over from a neighbour.

ghost use Rattle.std.specs.Prelude.{◌≡◌, ◌≤◌, length};
ghost use Rattle.json_text.specs.Styled.{colons_like, most_whitespace, whitespace_like};

/// The most bytes of a neighbour's whitespace, or of its colon, that are taken over.
const MOST_WHITESPACE: usize = 128;

/// The whitespace of a new member or element, by that of a neighbour: none, where that takes more than
/// 128 bytes. So many new ones by a neighbour with much whitespace don't multiply it.
pub fn whitespace_like(whitespace: &str) -> &str
    ensures like { result.now ≡ whitespace_like whitespace.now }
    ensures few { length result.now ≤ most_whitespace }
{
    if whitespace.len() > MOST_WHITESPACE {
        ""
    } else {
        whitespace
    }
}

/// The colon of a new member with the whitespace around it, by a neighbour's: bare, where that takes more
/// than 128 bytes.
pub fn colons_like(colons: &str) -> &str
    ensures like { result.now ≡ colons_like colons.now }
    ensures few { length result.now ≤ most_whitespace }
{
    if colons.len() > MOST_WHITESPACE {
        ":"
    } else {
        colons
    }
}
