//! What an editor is told of a document, not having asked.

ghost use Rattle.std.specs.Prelude.{◌≡◌, IfOk, map};
ghost use Rattle.json.specs.Tree.{json_tokens};
ghost use Rattle.lint_forms.specs.AddsTokens.{AddsTokens};
ghost use Rattle.lint_forms.specs.JsonValues.{json_text};
ghost use Rattle.rule_set.specs.Rules.{rule_name};
ghost use Rattle.lint_forms.specs.Sarif.{page_of};
ghost use Rattle.editor_messages.specs.Diagnostics.{diagnostic_json, diagnostics_json, severity_by, severity_number};
ghost use Rattle.editor_messages.specs.Inner.Heads.{diagnostics_head, diagnostics_tokens, front_tokens, rule_tokens};
ghost use Rattle.editor_messages.specs.Views.{diagnostic_seen};

use crate::range::write_range;
use json::Writer;
use lint_forms::{JsonPart, write_parts};
use rule_set::{Rule, Severity};
use std::alloc::{AllocError, Global};
use text_places::Range;

/// A text about a part of a document.
#[derive(Clone, Copy)]
pub struct Diagnostic<'a> {
    pub range: Range,
    /// The rule whose issue it is, or none if it says why the document is refused.
    pub rule: Option<Rule>,
    pub text: &'a str,
}

/// The protocol's number for a severity.
fn severity_number(severity: Severity) -> u64
    ensures { result ≡ severity_number severity }
{
    match severity {
        Severity::Error => 1,
        Severity::Warning => 2,
        Severity::Notice => 3,
    }
}

fn severity_by(rule: Option<Rule>) -> u64
    ensures { result ≡ severity_by rule }
{
    match rule {
        Some(rule) => severity_number(rule.severity()),
        None => severity_number(Severity::Error),
    }
}

/// TFLint's page on a rule.
fn page_of(rule: Rule) -> &'static str
    ensures { result.now ≡ page_of (rule_name rule) }
{
    match rule {
        Rule::CommentSyntax =>
            "https://github.com/terraform-linters/tflint-ruleset-terraform/blob/main/docs/rules/terraform_comment_syntax.md",
        Rule::DeprecatedIndex =>
            "https://github.com/terraform-linters/tflint-ruleset-terraform/blob/main/docs/rules/terraform_deprecated_index.md",
        Rule::DeprecatedInterpolation =>
            "https://github.com/terraform-linters/tflint-ruleset-terraform/blob/main/docs/rules/terraform_deprecated_interpolation.md",
        Rule::DocumentedOutputs =>
            "https://github.com/terraform-linters/tflint-ruleset-terraform/blob/main/docs/rules/terraform_documented_outputs.md",
        Rule::DocumentedVariables =>
            "https://github.com/terraform-linters/tflint-ruleset-terraform/blob/main/docs/rules/terraform_documented_variables.md",
        Rule::ModulePinnedSource =>
            "https://github.com/terraform-linters/tflint-ruleset-terraform/blob/main/docs/rules/terraform_module_pinned_source.md",
        Rule::ModuleVersion =>
            "https://github.com/terraform-linters/tflint-ruleset-terraform/blob/main/docs/rules/terraform_module_version.md",
        Rule::NamingConvention =>
            "https://github.com/terraform-linters/tflint-ruleset-terraform/blob/main/docs/rules/terraform_naming_convention.md",
        Rule::TypedVariables =>
            "https://github.com/terraform-linters/tflint-ruleset-terraform/blob/main/docs/rules/terraform_typed_variables.md",
        Rule::UnusedDeclarations =>
            "https://github.com/terraform-linters/tflint-ruleset-terraform/blob/main/docs/rules/terraform_unused_declarations.md",
    }
}

/// Writes the members about a rule, if there is one.
fn write_rule(writer: &mut Writer, rule: Option<Rule>) -> Result<(), AllocError>
    ensures { AddsTokens result writer.old writer.new (rule_tokens rule) }
{
    let Some(rule) = rule else {
        return Ok(());
    };
    let name = rule.name();
    let page = page_of(rule);
    write_parts(
        writer,
        &[
            JsonPart::TextAt("code", name),
            JsonPart::ObjectAt("codeDescription"),
            JsonPart::TextAt("href", page),
            JsonPart::EndObject,
        ],
    )
}

/// Writes the front of a diagnostic: its range and its severity.
fn write_front(writer: &mut Writer, range: Range, severity: u64) -> Result<(), AllocError>
    ensures { AddsTokens result writer.old writer.new (front_tokens range severity) }
{
    write_parts(writer, &[JsonPart::Object, JsonPart::Key("range")])?;
    write_range(writer, range)?;
    write_parts(writer, &[JsonPart::NumberAt("severity", severity)])
}

fn write_diagnostic(writer: &mut Writer, diagnostic: Diagnostic<'_>) -> Result<(), AllocError>
    ensures { AddsTokens result writer.old writer.new
        (json_tokens (diagnostic_json (diagnostic_seen diagnostic.entry))) }
{
    let severity = severity_by(diagnostic.rule);
    write_front(writer, diagnostic.range, severity)?;
    write_rule(writer, diagnostic.rule)?;
    write_parts(
        writer,
        &[
            JsonPart::TextAt("source", "tfls"),
            JsonPart::TextAt("message", diagnostic.text),
            JsonPart::EndObject,
        ],
    )
}

fn write_diagnostics(writer: &mut Writer, diagnostics: &[Diagnostic<'_>]) -> Result<(), AllocError>
    ensures { AddsTokens result writer.old writer.new
        (diagnostics_tokens (map diagnostic_seen diagnostics.now)) }
{
    for diagnostic in diagnostics {
        write_diagnostic(writer, *diagnostic)?;
    }
    Ok(())
}

/// Begins the message, up to its diagnostics.
fn write_head(writer: &mut Writer, uri: &str) -> Result<(), AllocError>
    ensures { AddsTokens result writer.old writer.new (diagnostics_head uri.now) }
{
    write_parts(
        writer,
        &[
            JsonPart::Object,
            JsonPart::TextAt("jsonrpc", "2.0"),
            JsonPart::TextAt("method", "textDocument/publishDiagnostics"),
            JsonPart::ObjectAt("params"),
            JsonPart::TextAt("uri", uri),
            JsonPart::ArrayAt("diagnostics"),
        ],
    )
}

fn write_message(
    writer: &mut Writer,
    uri: &str,
    diagnostics: &[Diagnostic<'_>],
) -> Result<(), AllocError>
    ensures { AddsTokens result writer.old writer.new
        (json_tokens (diagnostics_json uri.now (map diagnostic_seen diagnostics.now))) }
{
    write_head(writer, uri)?;
    write_diagnostics(writer, diagnostics)?;
    write_parts(
        writer,
        &[JsonPart::EndArray, JsonPart::EndObject, JsonPart::EndObject],
    )
}

/// The message that the document with this URI has these diagnostics alone. An error means that memory ran out.
pub fn diagnostics_message(
    alloc: Global,
    uri: &str,
    diagnostics: &[Diagnostic<'_>],
) -> Result<Vec<u8>, AllocError>
    ensures { IfOk result (λ text. text.items
        ≡ json_text (diagnostics_json uri.now (map diagnostic_seen diagnostics.now))) }
{
    let mut writer = Writer::new(Vec::new(alloc));
    write_message(&mut writer, uri, diagnostics)?;
    Ok(writer.into_inner())
}
