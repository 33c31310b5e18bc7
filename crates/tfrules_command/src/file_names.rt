//! The names of files in a line.

ghost use Rattle.std.specs.Prelude.{◌≡◌, ◌≤◌, ◌<◌, ◌+◌, [], length, map, get_or, IfOk, OnOk};
ghost use Rattle.std.specs.List.{list_any};
ghost use Rattle.std.specs.Str.{bytes_eq};
ghost use Rattle.tfrules_command.specs.Line.{NoneTwice, each_once, max_files, with_name};

use crate::shown_names::ShownNames;
use std::alloc::{AllocError, Global};
use std::marker::Model;

/// The most files in a line.
pub const MAX_FILES: usize = 256;

/// One to `MAX_FILES` names of files, none twice.
#[derive(Drop)]
pub struct FileNames<'a> {
    names: Vec<&'a str>,
}

impl<'a> Model for FileNames<'a> {
    ghost use Rattle.std.specs.Prelude.{◌≤◌, ◌<◌, List, ℕ, length, map};
    ghost use Rattle.tfrules_command.specs.Line.{NoneTwice, max_files};

    ghost Value = { List (List ℕ) };

    ghost view = { λ f. map (λ name. name.now) f.names.items };

    ghost invariant = { λ f. (length f.names.items ≤ max_files) × (0 < length f.names.items)
        × NoneTwice (map (λ name. name.now) f.names.items) };
}

/// Whether the name is among them.
fn is_known(names: &[&str], name: &str) -> bool
    ensures { result ≡ list_any (λ known. bytes_eq known.now name.now) names.now }
{
    names.iter().any(|known| *known == name)
}

/// Appends a name, unless it is among them.
fn add_name<'a>(names: &mut Vec<&'a str>, name: &'a str) -> Result<(), AllocError>
    ensures names { OnOk result (map (λ known. known.now) names.new.items
        ≡ with_name (map (λ known. known.now) names.old.items) name.entry.now) }
    ensures few { OnOk result (length names.new.items ≤ length names.old.items + 1) }
    ensures some { OnOk result (0 < length names.new.items) }
    ensures apart { OnOk result (NoneTwice (map (λ known. known.now) names.old.items)
        → NoneTwice (map (λ known. known.now) names.new.items)) }
{
    if is_known(names.as_slice(), name) {
        return Ok(());
    }
    let Ok(()) = names.push(name) else {
        return Err(AllocError);
    };
    Ok(())
}

impl<'a> FileNames<'a> {
    /// These names, each once, in the order of their first mention.
    pub fn new(alloc: Global, given: &[&'a str]) -> Result<FileNames<'a>, AllocError>
        requires few { length given.now ≤ max_files }
        requires some { 0 < length given.now }
        ensures { IfOk result (λ names. names ≡ each_once (map (λ name. name.now) given.now)) }
    {
        let mut names = Vec::new(alloc);
        for name in given {
            let Ok(()) = add_name(&mut names, name) else {
                return Err(AllocError);
            };
        }
        Ok(FileNames { names })
    }

    /// How many names there are.
    pub fn len(&self) -> usize
        ensures len { result ≡ length self.now }
        ensures few { result ≤ max_files }
        ensures some { 0 < result }
        ensures apart { NoneTwice self.now }
    {
        self.names.len()
    }

    /// The name of this number, from 0 on.
    pub fn get(&self, i: usize) -> &'a str
        requires { i < length self.now }
        ensures { result.now ≡ get_or self.now i [] }
    {
        self.names[i]
    }
}

impl<'a> ShownNames for FileNames<'a> {
    ghost names = { λ names. names };

    fn name_of(&self, number: u32) -> &[u8] {
        let number = number as usize;
        if number < self.len() {
            return self.get(number).as_bytes();
        }
        b""
    }
}
