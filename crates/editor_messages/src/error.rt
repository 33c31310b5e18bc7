//! Why a message is answered with an error.

ghost use Rattle.std.specs.Prelude.{◌≡◌};
ghost use Rattle.json.specs.Print.{IsNumber};
ghost use Rattle.editor_messages.specs.Errors.{error_code, error_text};

/// Why a message is answered with an error.
#[derive(Clone, Copy)]
pub enum ReplyError {
    /// The body is no JSON.
    NotJson,
    /// The value is no request.
    NotRequest,
    /// Another `initialize`.
    InitializedAlready,
    /// A request after `shutdown`.
    ShutDown,
    UnknownMethod,
    /// A request before `initialize`.
    NotInitialized,
    /// The request is about a document, and names none.
    NoDocument,
    /// The request is about a place, and names none.
    NoPlace,
    /// No name that can be changed is at the place.
    NoName,
    /// The new name isn't an identifier.
    NotIdentifier,
    /// No file of the module declares the name.
    NoDeclaration,
    /// The module has the new name already.
    NameTaken,
    /// A file of the module is refused or can't be read.
    UnreadModule,
    /// The text of an open document was lost, so its places aren't known.
    LostText,
    /// The document isn't open, or its text was lost.
    UnknownText,
    OutOfMemory,
}

impl ReplyError {
    /// Its code, in decimal (JSON-RPC 2.0, section 5.1; Language Server Protocol 3.17, `ErrorCodes`).
    pub fn code(self) -> &'static str
        ensures code { result.now ≡ error_code self }
        ensures number { IsNumber result.now }
    {
        match self {
            ReplyError::NotJson => "-32700",
            ReplyError::NotRequest | ReplyError::InitializedAlready | ReplyError::ShutDown => {
                "-32600"
            }
            ReplyError::UnknownMethod => "-32601",
            ReplyError::NoDocument | ReplyError::NoPlace | ReplyError::NotIdentifier => "-32602",
            ReplyError::OutOfMemory => "-32603",
            ReplyError::NotInitialized => "-32002",
            ReplyError::UnknownText => "-32801",
            ReplyError::NoName
            | ReplyError::NoDeclaration
            | ReplyError::NameTaken
            | ReplyError::UnreadModule
            | ReplyError::LostText => "-32803",
        }
    }

    /// Its message.
    pub fn text(self) -> &'static str
        ensures { result.now ≡ error_text self }
    {
        match self {
            ReplyError::NotJson => "not JSON",
            ReplyError::NotRequest => "not a request",
            ReplyError::InitializedAlready => "initialized already",
            ReplyError::ShutDown => "shut down",
            ReplyError::UnknownMethod => "unknown method",
            ReplyError::NotInitialized => "not initialized",
            ReplyError::NoDocument => "no document is named",
            ReplyError::NoPlace => "no place in a document is named",
            ReplyError::NoName => "no name that can be changed is here",
            ReplyError::NotIdentifier => "the new name is not an identifier",
            ReplyError::NoDeclaration => "no file of the module declares this name",
            ReplyError::NameTaken => "the module has this name already",
            ReplyError::UnreadModule => "a file of the module is refused or cannot be read",
            ReplyError::LostText => "the text of an open document was lost",
            ReplyError::UnknownText => "the text of this document is not known",
            ReplyError::OutOfMemory => "out of memory",
        }
    }
}
