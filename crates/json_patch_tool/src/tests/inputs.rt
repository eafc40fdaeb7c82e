//! Inputs that several tests give, and the lines for them.

/// A test and an add, on an array of two objects.
pub(super) const HAPPY: &[u8] = b"[[{\"name\":\"Andrew\"},{\"name\":\"Maxim\"}],\
    [{\"op\":\"test\",\"path\":\"/0/name\",\"value\":\"Andrew\"},\
    {\"op\":\"add\",\"path\":\"/0/happy\",\"value\":true}]]";

pub(super) const HAPPY_LINE: &[u8] =
    b"[{\"happy\":true,\"name\":\"Andrew\"},{\"name\":\"Maxim\"}]\n";

/// A move of a member over the object that it stands in.
pub(super) const OVER: &[u8] =
    b"[{\"a\":{\"b\":1,\"c\":2}},[{\"op\":\"move\",\"from\":\"/a/b\",\"path\":\"/a\"}]]";

pub(super) const OVER_BACK: &[u8] = b"[{\"a\":1},\
    [{\"op\":\"replace\",\"path\":\"/a\",\"value\":{\"c\":2}},\
    {\"op\":\"add\",\"path\":\"/a/b\",\"value\":1}]]\n";

/// A move over a member of an element whose index goes down by one.
pub(super) const DOWN: &[u8] =
    b"[[9,{\"k\":0},{\"b\":1}],[{\"op\":\"move\",\"from\":\"/0\",\"path\":\"/1/b\"}]]";

pub(super) const DOWN_BACK: &[u8] = b"[[{\"k\":0},{\"b\":9}],\
    [{\"op\":\"replace\",\"path\":\"/1/b\",\"value\":1},\
    {\"op\":\"add\",\"path\":\"/0\",\"value\":9}]]\n";

/// A merge patch that replaces, adds and removes members, one of them in an object within.
pub(super) const TITLED: &[u8] =
    b"[{\"title\":\"Goodbye!\",\"author\":{\"givenName\":\"John\",\"familyName\":\"Doe\"},\
    \"tags\":[\"example\",\"sample\"],\"content\":\"This will be unchanged\"},\
    {\"title\":\"Hello!\",\"phoneNumber\":\"+01-123-456-7890\",\
    \"author\":{\"familyName\":null},\"tags\":[\"example\"]}]";

pub(super) const TITLED_LINE: &[u8] = b"{\"author\":{\"givenName\":\"John\"},\
    \"content\":\"This will be unchanged\",\"phoneNumber\":\"+01-123-456-7890\",\
    \"tags\":[\"example\"],\"title\":\"Hello!\"}\n";

/// A change taken back, looked for once more and made again, and a change that is refused.
pub(super) const EDITED: &[u8] = b"[{\"a\":1},[[{\"op\":\"replace\",\"path\":\"/a\",\"value\":2}],\
    \"undo\",\"undo\",\"redo\",[{\"op\":\"remove\",\"path\":\"/b\"}]]]";

pub(super) const EDITED_LINE: &[u8] =
    b"[{\"a\":2},[true,true,false,true,{\"kind\":\"InvalidPointer\",\"operation\":0}]]\n";

/// The same move as above, taken back and made again.
pub(super) const OVER_AND_BACK: &[u8] = b"[{\"a\":{\"b\":1,\"c\":2}},\
    [[{\"op\":\"move\",\"from\":\"/a/b\",\"path\":\"/a\"}],\"undo\",\"redo\"]]";
