//! Reading which message a value is.

ghost use Rattle.std.specs.Prelude.{◌≡◌, option_and_then, option_map};
ghost use Rattle.std.specs.Option.{is_some};
ghost use Rattle.json.specs.Find.{as_array, as_number, as_str, get};
ghost use Rattle.json.specs.Tree.{HasNumbers};
ghost use Rattle.json.specs.Value.{items_view, value_view};
ghost use Rattle.std.specs.List.{list_any};
ghost use Rattle.editor_messages.specs.Messages.{abilities_told, ability_at, changed_text, close_notification, document_integer, document_place, document_text, encodings, has_text, id_in, integer_at, integer_of, is_fractional, is_integer, is_text, is_true, last_item, message_of, name_request, nameless, new_name, notification_named, offers, params_at, place_named, position_place, request_named, text_at, text_notification, units_offered, whole_text, with_declarations};
ghost use Rattle.editor_messages.specs.Views.{HasNumber, HaveNumber, id_seen, message_seen, notification_seen, place_seen, request_seen, text_seen};

use crate::message::{Abilities, DocumentPlace, Id, Message, Notification, Request};
use json::Value;
use text_places::{Place, Units};

/// The text that is this member.
fn text_at<'v>(value: &Value<'v>, name: &str) -> Option<&'v str>
    ensures { text_seen result ≡ text_at name.now (value_view value.now) }
{
    value.get(name)?.as_str()
}

/// A member of the parameters.
fn params_at<'r, 'v>(message: &'r Value<'v>, name: &str) -> Option<&'r Value<'v>>
    ensures { option_map (λ v. value_view v.now) result
        ≡ params_at name.now (value_view message.now) }
{
    message.get("params")?.get(name)
}

/// A text that the parameters tell of a document.
fn document_text<'v>(message: &Value<'v>, name: &str) -> Option<&'v str>
    ensures { text_seen result ≡ document_text name.now (value_view message.now) }
{
    text_at(params_at(message, "textDocument")?, name)
}

/// The integer that a value is.
fn integer_of(value: &Value<'_>) -> Option<u64>
    ensures { result ≡ option_and_then integer_of (as_number (value_view value.now)) }
{
    value.as_u64()
}

/// The integer that is this member.
fn integer_at(value: &Value<'_>, name: &str) -> Option<u64>
    ensures { result ≡ integer_at name.now (value_view value.now) }
{
    integer_of(value.get(name)?)
}

/// An integer that the parameters tell of a document.
fn document_integer(message: &Value<'_>, name: &str) -> Option<u64>
    ensures { result ≡ document_integer name.now (value_view message.now) }
{
    integer_at(params_at(message, "textDocument")?, name)
}

/// A position as a place, if both of its numbers are told.
fn position_place(position: &Value<'_>) -> Option<Place>
    ensures { result ≡ position_place (value_view position.now) }
{
    let line = integer_at(position, "line")?;
    let character = integer_at(position, "character")?;
    Some(Place {
        line: line as usize,
        character: character as usize,
    })
}

/// The place that the parameters name.
fn place_named(message: &Value<'_>) -> Option<Place>
    ensures { result ≡ place_named (value_view message.now) }
{
    position_place(params_at(message, "position")?)
}

/// The place in a document that the parameters name.
fn document_place<'v>(message: &Value<'v>) -> Option<DocumentPlace<'v>>
    ensures { place_seen result ≡ document_place (value_view message.now) }
{
    let uri = document_text(message, "uri")?;
    let place = place_named(message)?;
    Some(DocumentPlace { uri, place })
}

/// Whether a byte of a number begins a fraction or an exponent.
fn is_fractional(byte: u8) -> bool
    ensures { result ≡ is_fractional byte }
{
    byte == b'.' || byte == b'e' || byte == b'E'
}

fn has_fraction(number: &[u8]) -> bool
    ensures { result ≡ list_any is_fractional number.now }
{
    number.iter().any(|byte| is_fractional(*byte))
}

/// Whether the text of a number is that of an integer.
fn is_integer(number: &str) -> bool
    ensures { result ≡ is_integer number.now }
{
    !has_fraction(number.as_bytes())
}

/// A value as an id, if it is a text or an integer.
fn id_in<'v>(value: &Value<'v>) -> Option<Id<'v>>
    requires { HasNumbers (value_view value.now) }
    ensures id { option_map id_seen result ≡ id_in (value_view value.now) }
    ensures number { HaveNumber result }
{
    match value {
        Value::Number(text) => is_integer(text).then_some(Id::Number(text)),
        Value::String(text) => Some(Id::Text(text)),
        _ => None,
    }
}

/// Whether a value is this text.
fn is_text(value: &Value<'_>, text: &str) -> bool
    ensures { result ≡ is_text text.now (as_str (value_view value.now)) }
{
    match value.as_str() {
        Some(other) => other == text,
        None => false,
    }
}

fn any_is(items: &[Value<'_>], text: &str) -> bool
    ensures { result ≡ list_any (λ v. is_text text.now (as_str (value_view v))) items.now }
{
    items.iter().any(|item| is_text(item, text))
}

fn have_text(items: &[Value<'_>], text: &str) -> bool
    ensures { result ≡ has_text text.now (items_view items.now) }
{
    any_is(items, text)
}

/// Whether this text is among the items of a value.
fn offers(value: &Value<'_>, text: &str) -> bool
    ensures { result ≡ offers text.now (as_array (value_view value.now)) }
{
    match value {
        Value::Array(items) => have_text(items, text),
        _ => false,
    }
}

/// The units in which the editor offers to count.
fn encodings<'r, 'v>(message: &'r Value<'v>) -> Option<&'r Value<'v>>
    ensures { option_map (λ v. value_view v.now) result ≡ encodings (value_view message.now) }
{
    params_at(message, "capabilities")?
        .get("general")?
        .get("positionEncodings")
}

/// The units in which places are counted.
fn units_offered(message: &Value<'_>) -> Units
    ensures { result ≡ units_offered (value_view message.now) }
{
    let Some(encodings) = encodings(message) else {
        return Units::Utf16;
    };
    if offers(encodings, "utf-8") {
        return Units::Bytes;
    }
    Units::Utf16
}

/// A member of a group of what the editor can do.
fn ability_at<'r, 'v>(
    message: &'r Value<'v>,
    part: &str,
    group: &str,
    name: &str,
) -> Option<&'r Value<'v>>
    ensures { option_map (λ v. value_view v.now) result
        ≡ ability_at part.now group.now name.now (value_view message.now) }
{
    params_at(message, "capabilities")?
        .get(part)?
        .get(group)?
        .get(name)
}

/// Whether a value is there and is `true`.
fn is_true(value: Option<&Value<'_>>) -> bool
    ensures { result ≡ is_true (option_map (λ v. value_view v.now) value.entry) }
{
    match value {
        Some(value) => value.as_bool().unwrap_or(false),
        None => false,
    }
}

/// What the editor can do.
fn abilities_told(message: &Value<'_>) -> Abilities
    ensures { result ≡ abilities_told (value_view message.now) }
{
    let versions = ability_at(message, "workspace", "workspaceEdit", "documentChanges");
    let prepares = ability_at(message, "textDocument", "rename", "prepareSupport");
    Abilities {
        units: units_offered(message),
        takes_versions: is_true(versions),
        prepares_renames: is_true(prepares),
    }
}

/// Whether places where a name is declared are asked for too.
fn with_declarations(message: &Value<'_>) -> bool
    ensures { result ≡ with_declarations (value_view message.now) }
{
    match params_at(message, "context") {
        Some(context) => is_true(context.get("includeDeclaration")),
        None => false,
    }
}

/// The new name that the parameters tell.
fn new_name<'v>(message: &Value<'v>) -> Option<&'v str>
    ensures { text_seen result ≡ new_name (value_view message.now) }
{
    params_at(message, "newName")?.as_str()
}

/// The request of this name, if that is about a name in a document.
fn name_request<'v>(message: &Value<'v>, name: &str) -> Request<'v>
    ensures { request_seen result ≡ name_request name.now (value_view message.now) }
{
    match name {
        "textDocument/definition" => Request::Definition(document_place(message)),
        "textDocument/references" => Request::References {
            at: document_place(message),
            with_declarations: with_declarations(message),
        },
        "textDocument/prepareRename" => Request::PrepareRename(document_place(message)),
        "textDocument/rename" => Request::Rename {
            at: document_place(message),
            name: new_name(message),
        },
        _ => Request::Unknown,
    }
}

/// The request of this name.
fn request_named<'v>(message: &Value<'v>, name: &str) -> Request<'v>
    ensures { request_seen result ≡ request_named name.now (value_view message.now) }
{
    match name {
        "initialize" => Request::Initialize(abilities_told(message)),
        "shutdown" => Request::Shutdown,
        "textDocument/formatting" => Request::Formatting(document_text(message, "uri")),
        "textDocument/documentSymbol" => Request::Symbols(document_text(message, "uri")),
        "textDocument/foldingRange" => Request::Folds(document_text(message, "uri")),
        _ => name_request(message, name),
    }
}

/// The whole text to which a change leads, if it tells that.
fn whole_text<'v>(change: &Value<'v>) -> Option<&'v str>
    ensures { text_seen result ≡ whole_text (value_view change.now) }
{
    if change.get("range").is_some() {
        return None;
    }
    text_at(change, "text")
}

fn last<'r, 'v>(items: &'r [Value<'v>]) -> Option<&'r Value<'v>>
    ensures { option_map (λ v. value_view v.now) result ≡ last_item (items_view items.now) }
{
    items.last()
}

/// The last item, if the value is an array.
fn last_item<'r, 'v>(value: &'r Value<'v>) -> Option<&'r Value<'v>>
    ensures { option_map (λ v. value_view v.now) result
        ≡ option_and_then last_item (as_array (value_view value.now)) }
{
    match value {
        Value::Array(items) => last(items),
        _ => None,
    }
}

/// The text to which the changes of a document lead, if they tell that.
fn changed_text<'v>(message: &Value<'v>) -> Option<&'v str>
    ensures { text_seen result ≡ changed_text (value_view message.now) }
{
    whole_text(last_item(params_at(message, "contentChanges")?)?)
}

/// The notification of a document's text, if one is named.
fn text_notification<'v>(
    uri: Option<&'v str>,
    version: Option<u64>,
    text: Option<&'v str>,
) -> Notification<'v>
    ensures { notification_seen result
        ≡ text_notification (text_seen uri.entry) version (text_seen text.entry) }
{
    match uri {
        Some(uri) => Notification::Text { uri, version, text },
        None => Notification::Other,
    }
}

/// The notification that a document is closed, if one is named.
fn close_notification<'v>(uri: Option<&'v str>) -> Notification<'v>
    ensures { notification_seen result ≡ close_notification (text_seen uri.entry) }
{
    match uri {
        Some(uri) => Notification::Close(uri),
        None => Notification::Other,
    }
}

/// The notification of this name.
fn notification_named<'v>(message: &Value<'v>, name: &str) -> Notification<'v>
    ensures { notification_seen result ≡ notification_named name.now (value_view message.now) }
{
    match name {
        "exit" => Notification::Exit,
        "textDocument/didOpen" => text_notification(
            document_text(message, "uri"),
            document_integer(message, "version"),
            document_text(message, "text"),
        ),
        "textDocument/didChange" => text_notification(
            document_text(message, "uri"),
            document_integer(message, "version"),
            changed_text(message),
        ),
        "textDocument/didClose" => close_notification(document_text(message, "uri")),
        _ => Notification::Other,
    }
}

/// The message of a value that names nothing.
fn nameless<'v>(message: &Value<'v>) -> Message<'v>
    requires { HasNumbers (value_view message.now) }
    ensures message { message_seen result ≡ nameless (value_view message.now) }
    ensures number { HasNumber result }
{
    if message.get("result").is_some() || message.get("error").is_some() {
        return Message::Response;
    }
    match message.get("id") {
        Some(id) => Message::Invalid(id_in(id).unwrap_or(Id::Null)),
        None => Message::Invalid(Id::Null),
    }
}

/// The message that a value is.
pub fn message_of<'v>(message: &Value<'v>) -> Message<'v>
    requires { HasNumbers (value_view message.now) }
    ensures message { message_seen result ≡ message_of (value_view message.now) }
    ensures number { HasNumber result }
{
    let Some(name) = text_at(message, "method") else {
        return nameless(message);
    };
    let Some(id) = message.get("id") else {
        return Message::Tells(notification_named(message, name));
    };
    match id_in(id) {
        Some(id) => Message::Asks(id, request_named(message, name)),
        None => Message::Invalid(Id::Null),
    }
}
