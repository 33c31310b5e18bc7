//! The messages of rules, part by part.

ghost use Rattle.std.specs.Prelude.{◌≡◌, ◌++◌, codes};
ghost use Rattle.tf_facts.specs.References.{last_of};
ghost use Rattle.tf_rules.specs.Answers.{text_of_parts};
ghost use Rattle.tf_rules.specs.Findings.{about, both_quoted, kind_text, quote_name};
ghost use Rattle.tf_rules.specs.Naming.{naming_text};
ghost use Rattle.tf_rules.specs.Inner.Entries.{open_quote, text_of};
ghost use Rattle.tf_rules.specs.Inner.StoredViews.{stored_declaration, stored_names};

use crate::entry::Statement;
use crate::message_parts::MessageParts;
use crate::naming::Naming;
use crate::stored::{StoredDeclaration, StoredNames};
use tf_facts::DeclarationKind;

/// The word for a kind of declaration.
fn kind_text(kind: DeclarationKind) -> &'static str
    ensures { result.now ≡ kind_text kind }
{
    match kind {
        DeclarationKind::Variable => "variable",
        DeclarationKind::Output => "output",
        DeclarationKind::Module => "module",
        DeclarationKind::Resource => "resource",
        DeclarationKind::Data => "data",
        DeclarationKind::Local => "local",
    }
}

/// The word for a kind of declaration, up to the quote before its name.
fn before_name(kind: DeclarationKind) -> &'static str
    ensures { result.now ≡ kind_text kind ++ codes " \"" }
{
    match kind {
        DeclarationKind::Variable => "variable \"",
        DeclarationKind::Output => "output \"",
        DeclarationKind::Module => "module \"",
        DeclarationKind::Resource => "resource \"",
        DeclarationKind::Data => "data \"",
        DeclarationKind::Local => "local \"",
    }
}

/// The word for a kind of declaration and `name`, up to the quote before its name.
fn before_misnamed(kind: DeclarationKind) -> &'static str
    ensures { result.now ≡ kind_text kind ++ codes " name \"" }
{
    match kind {
        DeclarationKind::Variable => "variable name \"",
        DeclarationKind::Output => "output name \"",
        DeclarationKind::Module => "module name \"",
        DeclarationKind::Resource => "resource name \"",
        DeclarationKind::Data => "data name \"",
        DeclarationKind::Local => "local name \"",
    }
}

/// The text from the quote after a name on: that it must have this naming.
fn after_misnamed(naming: Naming) -> &'static str
    ensures { result.now ≡ codes "\" must match " ++ naming_text naming }
{
    match naming {
        Naming::SnakeCase => "\" must match snake_case",
        Naming::MixedSnakeCase => "\" must match mixed_snake_case",
    }
}

/// The last of at most two labels.
pub fn last_label(names: &StoredNames) -> &str
    ensures { result.now ≡ last_of (stored_names names.now) }
{
    match names {
        StoredNames::None => "",
        StoredNames::One(name) => name.as_str(),
        StoredNames::Two(_, second) => second.as_str(),
        StoredNames::More => "",
    }
}

/// `KIND "NAME` of a declaration, and the text from the closing quote on.
fn about<'f>(declaration: &'f StoredDeclaration, rest: &'static str) -> MessageParts<'f>
    ensures { text_of_parts result
        ≡ kind_text declaration.now.kind
        ++ open_quote (last_of (stored_names declaration.now.names)) rest.now }
{
    let front = before_name(declaration.kind);
    let name = last_label(&declaration.names);
    MessageParts {
        front,
        name,
        between: "",
        other: "",
        rest,
    }
}

/// The message that the source of a module uses a default branch.
fn about_branch<'f>(declaration: &'f StoredDeclaration, branch: &'static str) -> MessageParts<'f>
    ensures { text_of_parts result
        ≡ about (stored_declaration declaration.now)
        (codes " source uses a default branch: " ++ branch.now) }
{
    let front = before_name(declaration.kind);
    let name = last_label(&declaration.names);
    MessageParts {
        front,
        name,
        between: "\" source uses a default branch: ",
        other: branch,
        rest: "",
    }
}

/// The message that a name must have a naming.
fn about_naming<'f>(declaration: &'f StoredDeclaration, naming: Naming) -> MessageParts<'f>
    ensures { text_of_parts result
        ≡ kind_text declaration.now.kind
        ++ (codes " name" ++ quote_name (last_of (stored_names declaration.now.names))
        (codes " must match " ++ naming_text naming)) }
{
    let front = before_misnamed(declaration.kind);
    let name = last_label(&declaration.names);
    let rest = after_misnamed(naming);
    MessageParts {
        front,
        name,
        between: "",
        other: "",
        rest,
    }
}

/// The message that nothing refers to a declaration with this name.
fn unused_by_name<'f>(kind: DeclarationKind, name: &'f str) -> MessageParts<'f>
    ensures { text_of_parts result
        ≡ kind_text kind ++ quote_name name.now (codes " is declared but not used") }
{
    let front = before_name(kind);
    MessageParts {
        front,
        name,
        between: "",
        other: "",
        rest: "\" is declared but not used",
    }
}

/// The message that nothing refers to a declaration with these two labels.
fn unused_by_both<'f>(kind: DeclarationKind, first: &'f str, second: &'f str) -> MessageParts<'f>
    ensures { text_of_parts result
        ≡ kind_text kind ++ quote_name first.now
        (quote_name second.now (codes " is declared but not used")) }
{
    let front = before_name(kind);
    MessageParts {
        front,
        name: first,
        between: "\" \"",
        other: second,
        rest: "\" is declared but not used",
    }
}

/// The message that nothing refers to a declaration without a name.
fn unused_by_none(kind: DeclarationKind) -> MessageParts<'static>
    ensures { text_of_parts result ≡ kind_text kind ++ codes " is declared but not used" }
{
    let front = kind_text(kind);
    MessageParts {
        front,
        name: "",
        between: "",
        other: "",
        rest: " is declared but not used",
    }
}

/// The message that nothing refers to a declaration.
fn about_unused<'f>(declaration: &'f StoredDeclaration) -> MessageParts<'f>
    ensures { text_of_parts result
        ≡ kind_text declaration.now.kind
        ++ both_quoted (stored_names declaration.now.names) (codes " is declared but not used") }
{
    let kind = declaration.kind;
    match &declaration.names {
        StoredNames::None => unused_by_none(kind),
        StoredNames::One(name) => unused_by_name(kind, name.as_str()),
        StoredNames::Two(first, second) => unused_by_both(kind, first.as_str(), second.as_str()),
        StoredNames::More => unused_by_none(kind),
    }
}

/// The message, part by part. Its callers match on the parts at once, so they aren't stored.
#[inline(always)]
pub fn message_parts<'f>(statement: Statement<'f>) -> MessageParts<'f>
    ensures { text_of_parts result ≡ text_of statement.entry }
{
    match statement {
        Statement::Fixed(text) => MessageParts {
            front: "",
            name: "",
            between: "",
            other: "",
            rest: text,
        },
        Statement::About(declaration, rest) => about(declaration, rest),
        Statement::DefaultBranch(declaration, branch) => about_branch(declaration, branch),
        Statement::Misnamed(declaration, naming) => about_naming(declaration, naming),
        Statement::Unused(declaration) => about_unused(declaration),
    }
}
