//! The messages of an editor.

use text_places::{Place, Units};

/// The id of a request, which its answer repeats.
#[derive(Clone, Copy)]
pub enum Id<'v> {
    /// No id could be told.
    Null,
    /// The text of a number.
    Number(&'v str),
    Text(&'v str),
}

/// What an editor can do.
#[derive(Clone, Copy)]
pub struct Abilities {
    /// It counts places in these units.
    pub units: Units,
    /// It takes edits for a version of a document.
    pub takes_versions: bool,
    /// It asks whether a name can be changed before it asks for a new one.
    pub prepares_renames: bool,
}

/// A place in the document that has this URI.
#[derive(Clone, Copy)]
pub struct DocumentPlace<'v> {
    pub uri: &'v str,
    pub place: Place,
}

#[derive(Clone, Copy)]
pub enum Request<'v> {
    /// The editor begins, and this is what it can do.
    Initialize(Abilities),
    Shutdown,
    /// The format of the document that has this URI, if one is named.
    Formatting(Option<&'v str>),
    /// The symbols of such a document.
    Symbols(Option<&'v str>),
    /// The folds of such a document.
    Folds(Option<&'v str>),
    /// Where the name at this place is declared, if a place is named.
    Definition(Option<DocumentPlace<'v>>),
    /// Where that name is used, and where it is declared if that is asked for.
    References {
        at: Option<DocumentPlace<'v>>,
        with_declarations: bool,
    },
    /// Whether that name can be changed.
    PrepareRename(Option<DocumentPlace<'v>>),
    /// That name changed to this one, if one is told.
    Rename {
        at: Option<DocumentPlace<'v>>,
        name: Option<&'v str>,
    },
    Unknown,
}

#[derive(Clone, Copy)]
pub enum Notification<'v> {
    /// The document that has this URI has this version, if the message tells one, and this text, or one that the
    /// message doesn't tell.
    Text {
        uri: &'v str,
        version: Option<u64>,
        text: Option<&'v str>,
    },
    /// The document that has this URI is closed.
    Close(&'v str),
    Exit,
    /// It is passed over.
    Other,
}

#[derive(Clone, Copy)]
pub enum Message<'v> {
    /// It is no message. The error that answers it has this id.
    Invalid(Id<'v>),
    /// The answer to a request of the server.
    Response,
    Asks(Id<'v>, Request<'v>),
    Tells(Notification<'v>),
}
