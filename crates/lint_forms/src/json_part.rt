//! A part of JSON.

/// A bracket, a key, or a key with its value or with the bracket that opens its value.
#[derive(Clone, Copy)]
pub enum JsonPart<'a> {
    Object,
    EndObject,
    Array,
    EndArray,
    Key(&'a str),
    ObjectAt(&'a str),
    ArrayAt(&'a str),
    TextAt(&'a str, &'a str),
    NumberAt(&'a str, u64),
    FlagAt(&'a str, bool),
}
