//! The sort of a module's source.

ghost use Rattle.std.specs.Prelude.{◌≡◌, ◌==◌, MatchOption, true, false};
ghost use Rattle.std.specs.List.{list_all, list_any, slice_split};
ghost use Rattle.tf_facts.specs.Sources.{before_slashes, after_question, is_address, is_alphanumeric, is_default_branch, is_git, is_host, is_host_byte, is_local, is_mercurial, is_part, is_part_byte, is_registry, pinned_to, revision, source_of};
ghost use Rattle.tf_facts.specs.Found.{source};

use crate::module_source::ModuleSource;
use crate::texts::{after, begins, cut, equals};

fn is_alphanumeric(byte: u8) -> bool
    ensures { result ≡ is_alphanumeric byte }
{
    byte.is_ascii_lowercase() || byte.is_ascii_uppercase() || byte.is_ascii_digit()
}

fn is_part_byte(byte: u8) -> bool
    ensures { result ≡ is_part_byte byte }
{
    is_alphanumeric(byte) || byte == b'-' || byte == b'_'
}

fn are_part_bytes(part: &[u8]) -> bool
    ensures { result ≡ list_all is_part_byte part.now }
{
    part.iter().all(|byte| is_part_byte(*byte))
}

fn is_part(part: &[u8]) -> bool
    ensures { result ≡ is_part part.now }
{
    !part.is_empty() && are_part_bytes(part)
}

fn is_host_byte(byte: u8) -> bool
    ensures { result ≡ is_host_byte byte }
{
    is_alphanumeric(byte) || byte == b'-' || byte == b'.' || byte == b':'
}

fn are_host_bytes(host: &[u8]) -> bool
    ensures { result ≡ list_all is_host_byte host.now }
{
    host.iter().all(|byte| is_host_byte(*byte))
}

fn has_dot(host: &[u8]) -> bool
    ensures { result ≡ list_any (λ b. b == 46) host.now }
{
    host.iter().any(|byte| *byte == b'.')
}

fn is_host(host: &[u8]) -> bool
    ensures { result ≡ is_host host.now }
{
    are_host_bytes(host) && has_dot(host)
}

fn is_git(text: &[u8]) -> bool
    ensures { result ≡ is_git text.now }
{
    begins(b"git::", text)
        || begins(b"git@", text)
        || begins(b"github.com/", text)
        || begins(b"bitbucket.org/", text)
}

fn is_mercurial(text: &[u8]) -> bool
    ensures { result ≡ is_mercurial text.now }
{
    begins(b"hg::", text)
}

fn is_local(text: &[u8]) -> bool
    ensures { result ≡ is_local text.now }
{
    begins(b"./", text) || begins(b"../", text)
}

/// The default branch with this name, if there is one.
fn default_branch(revision: &[u8]) -> Option<&'static str>
    ensures { MatchOption result (is_default_branch revision.now ≡ false)
        (λ branch. (is_default_branch revision.now ≡ true) × (branch.now ≡ revision.now)) }
{
    if equals(revision, b"master") {
        return Some("master");
    }
    if equals(revision, b"main") {
        return Some("main");
    }
    if equals(revision, b"default") {
        return Some("default");
    }
    if equals(revision, b"develop") {
        return Some("develop");
    }
    None
}

/// The text before the first `//`, or all of it.
fn before_slashes(text: &[u8]) -> &[u8]
    ensures { result.now ≡ before_slashes text.now }
{
    for end in 0..text.len() {
        if begins(b"//", &text[end..]) {
            return &text[..end];
        }
    }
    text
}

/// The text after the first `?`, or nothing.
fn after_question(text: &[u8]) -> &[u8]
    ensures { result.now ≡ after_question text.now }
{
    for start in 0..text.len() {
        if text[start] == b'?' {
            return &text[start + 1..];
        }
    }
    &text[text.len()..]
}

/// The text after this front in the first parameter that begins with it, or nothing.
fn revision<'a>(front: &[u8], text: &'a [u8]) -> &'a [u8]
    ensures { result.now ≡ revision front.now text.now }
{
    let found = after_question(text)
        .split(|byte| *byte == b'&')
        .find(|parameter| begins(front, parameter));
    match found {
        Some(parameter) => after(parameter, front.len()),
        None => after(text, text.len()),
    }
}

/// The sort of a source under version control, by its revision.
fn pinned_to(revision: &[u8]) -> ModuleSource
    ensures { source result ≡ pinned_to revision.now }
{
    if revision.is_empty() {
        return ModuleSource::NotPinned;
    }
    match default_branch(revision) {
        Some(branch) => ModuleSource::DefaultBranch(branch),
        None => ModuleSource::Other,
    }
}

/// Whether the parts between slashes are three, or a host and three.
fn is_address(text: &[u8]) -> bool
    ensures { result ≡ is_address (slice_split (λ b. b == 47) text.now) }
{
    let first = cut(text, b'/');
    let Some(rest) = first.rest else {
        return false;
    };
    let second = cut(rest, b'/');
    let Some(rest) = second.rest else {
        return false;
    };
    let third = cut(rest, b'/');
    let Some(rest) = third.rest else {
        return is_part(first.part) && is_part(second.part) && is_part(third.part);
    };
    let fourth = cut(rest, b'/');
    if fourth.rest.is_some() {
        return false;
    }
    is_host(first.part) && is_part(second.part) && is_part(third.part) && is_part(fourth.part)
}

/// Whether a source is an address in a registry.
fn is_registry(text: &[u8]) -> bool
    ensures { result ≡ is_registry text.now }
{
    !is_local(text) && is_address(before_slashes(text))
}

/// The sort of a source.
pub fn source_of(text: &[u8]) -> ModuleSource
    ensures { source result ≡ source_of text.now }
{
    if is_git(text) {
        return pinned_to(revision(b"ref=", text));
    }
    if is_mercurial(text) {
        return pinned_to(revision(b"rev=", text));
    }
    if is_registry(text) {
        return ModuleSource::Registry;
    }
    ModuleSource::Other
}
