//! SARIF 2.1.0.

ghost use Rattle.std.specs.Prelude.{◌≡◌, ◌++◌, IfOk};
ghost use Rattle.std.specs.String.{string_bytes};
ghost use Rattle.json.specs.Print.{print};
ghost use Rattle.json.specs.Tree.{json_tokens};
ghost use Rattle.lint_forms.specs.AddsTokens.{AddsTokens};
ghost use Rattle.lint_forms.specs.Inner.Shapes.{entry_by};
ghost use Rattle.lint_forms.specs.Inner.SarifParts.{results_head, rules_tokens, sarif_start};
ghost use Rattle.lint_forms.specs.Remarks.{said_by};
ghost use Rattle.lint_forms.specs.Sarif.{brief_rule, described_rule, full_text, page_of, result_by, result_json, rule_index, rule_json, sarif_foot, sarif_head};
ghost use Rattle.lint_forms.specs.JsonValues.{json_text};
ghost use Rattle.lint_forms.specs.Words.{level_word, rule_id};

use crate::entry::MarkedRemark;
use crate::json_part::JsonPart;
use crate::json_parts::{with_parts, write_parts};
use crate::places::uri_of;
use crate::remark::Remark;
use crate::rule_texts::{reason, reports};
use crate::subject::Subject;
use crate::words::{level_word, rule_id};
use json::Writer;
use rule_set::{ALL_RULES, Rule, rank};
use std::alloc::{AllocError, Global};

/// The number of the rule, or of its substitute, among those that the document describes.
fn rule_index(subject: Subject) -> u32
    ensures { result ≡ rule_index subject }
{
    match subject {
        Subject::Rule(rule) => rank(rule) as u32,
        Subject::Refusal => 10,
        Subject::Comment => 11,
    }
}

/// A text with a result appended that has this mark, in the file of this URI.
fn with_marked<'a>(
    text: Vec<u8>,
    said: Remark<'a>,
    mark: &'a str,
    uri: &'a str,
) -> Result<Vec<u8>, AllocError>
    ensures { IfOk result (λ l. l.items ≡ text.items ++ json_text
        (result_by (rule_id said.entry.subject) (rule_index said.entry.subject)
        (level_word said.entry.subject) uri.now
        (record { said = said_by said.entry; mark = mark.now }))) }
{
    let name = rule_id(said.subject);
    let index = rule_index(said.subject);
    let level = level_word(said.subject);
    with_parts(
        text,
        &[
            JsonPart::Object,
            JsonPart::TextAt("ruleId", name),
            JsonPart::NumberAt("ruleIndex", index as u64),
            JsonPart::TextAt("level", level),
            JsonPart::ObjectAt("message"),
            JsonPart::TextAt("text", said.text),
            JsonPart::EndObject,
            JsonPart::ArrayAt("locations"),
            JsonPart::Object,
            JsonPart::ObjectAt("physicalLocation"),
            JsonPart::ObjectAt("artifactLocation"),
            JsonPart::TextAt("uri", uri),
            JsonPart::EndObject,
            JsonPart::ObjectAt("region"),
            JsonPart::NumberAt("startLine", said.line as u64),
            JsonPart::EndObject,
            JsonPart::EndObject,
            JsonPart::EndObject,
            JsonPart::EndArray,
            JsonPart::ObjectAt("partialFingerprints"),
            JsonPart::TextAt("primaryLocationLineHash", mark),
            JsonPart::TextAt("tfrulesIssue/v1", mark),
            JsonPart::EndObject,
            JsonPart::EndObject,
        ],
    )
}

/// A text with a result appended.
pub(crate) fn with_result(
    alloc: Global,
    text: Vec<u8>,
    entry: &MarkedRemark<'_>,
) -> Result<Vec<u8>, AllocError>
    ensures { IfOk result (λ l. l.items
        ≡ text.items ++ json_text (result_json (entry_by entry.now))) }
{
    let uri = uri_of(alloc, entry.said.file)?;
    with_marked(text, entry.said, entry.mark.as_str(), uri.as_str())
}

/// The reports of a rule, and the reason, in two sentences.
fn full_text(alloc: Global, short: &str, why: &str) -> Result<String, AllocError>
    ensures { IfOk result (λ text. string_bytes text ≡ full_text short.now why.now) }
{
    format!(in alloc; "Reports {}. {}", short, why)
}

/// The address of TFLint's page on a rule.
fn page_of(alloc: Global, name: &str) -> Result<String, AllocError>
    ensures { IfOk result (λ text. string_bytes text ≡ page_of name.now) }
{
    format!(in alloc;
        "https://github.com/terraform-linters/tflint-ruleset-terraform/blob/main/docs/rules/{}.md",
        name
    )
}

/// The texts of a rule.
#[derive(Clone, Copy)]
struct Described<'a> {
    name: &'a str,
    short: &'a str,
    full: &'a str,
    /// Why it reports what it does.
    why: &'a str,
    /// Its page.
    page: &'a str,
    level: &'a str,
}

/// The document's description of a rule, by these texts.
fn write_described(writer: &mut Writer, rule: Described<'_>) -> Result<(), AllocError>
    ensures { AddsTokens result writer.old writer.new (json_tokens
        (described_rule rule.entry.name.now rule.entry.short.now rule.entry.full.now
        rule.entry.why.now rule.entry.page.now rule.entry.level.now)) }
{
    write_parts(
        writer,
        &[
            JsonPart::Object,
            JsonPart::TextAt("id", rule.name),
            JsonPart::ObjectAt("shortDescription"),
            JsonPart::TextAt("text", rule.short),
            JsonPart::EndObject,
            JsonPart::ObjectAt("fullDescription"),
            JsonPart::TextAt("text", rule.full),
            JsonPart::EndObject,
            JsonPart::ObjectAt("help"),
            JsonPart::TextAt("text", rule.full),
            JsonPart::TextAt("markdown", rule.why),
            JsonPart::EndObject,
            JsonPart::TextAt("helpUri", rule.page),
            JsonPart::ObjectAt("defaultConfiguration"),
            JsonPart::TextAt("level", rule.level),
            JsonPart::EndObject,
            JsonPart::EndObject,
        ],
    )
}

/// The document's description of a rule.
fn write_rule(alloc: Global, writer: &mut Writer, rule: Rule) -> Result<(), AllocError>
    ensures { AddsTokens result writer.old writer.new (json_tokens (rule_json rule)) }
{
    let name = rule.name();
    let short = reports(rule);
    let why = reason(rule);
    let full = full_text(alloc, short, why)?;
    let page = page_of(alloc, name)?;
    let level = level_word(Subject::Rule(rule));
    let described_rule = Described {
        name,
        short,
        full: full.as_str(),
        why,
        page: page.as_str(),
        level,
    };
    write_described(writer, described_rule)
}

/// The document's description of a rule's substitute, by this name and text.
fn write_briefly<'a>(writer: &mut Writer, name: &'a str, short: &'a str) -> Result<(), AllocError>
    ensures { AddsTokens result writer.old writer.new
        (json_tokens (brief_rule name.now short.now)) }
{
    write_parts(
        writer,
        &[
            JsonPart::Object,
            JsonPart::TextAt("id", name),
            JsonPart::ObjectAt("shortDescription"),
            JsonPart::TextAt("text", short),
            JsonPart::EndObject,
            JsonPart::ObjectAt("defaultConfiguration"),
            JsonPart::TextAt("level", "error"),
            JsonPart::EndObject,
            JsonPart::EndObject,
        ],
    )
}

/// The document's description of these rules.
fn write_rules(alloc: Global, writer: &mut Writer, rules: &[Rule]) -> Result<(), AllocError>
    ensures { AddsTokens result writer.old writer.new (rules_tokens rules.now) }
{
    for rule in rules {
        write_rule(alloc, writer, *rule)?;
    }
    Ok(())
}

fn write_start(writer: &mut Writer, version: &str) -> Result<(), AllocError>
    ensures { AddsTokens result writer.old writer.new (sarif_start version.now) }
{
    write_parts(
        writer,
        &[
            JsonPart::Object,
            JsonPart::TextAt("$schema", "https://json.schemastore.org/sarif-2.1.0.json"),
            JsonPart::TextAt("version", "2.1.0"),
            JsonPart::ArrayAt("runs"),
            JsonPart::Object,
            JsonPart::ObjectAt("tool"),
            JsonPart::ObjectAt("driver"),
            JsonPart::TextAt("name", "tfrules"),
            JsonPart::TextAt("version", version),
            JsonPart::ArrayAt("rules"),
        ],
    )
}

fn write_results_head(writer: &mut Writer) -> Result<(), AllocError>
    ensures { AddsTokens result writer.old writer.new results_head }
{
    write_parts(
        writer,
        &[
            JsonPart::EndArray,
            JsonPart::EndObject,
            JsonPart::EndObject,
            JsonPart::ArrayAt("results"),
        ],
    )
}

fn write_head(alloc: Global, writer: &mut Writer, version: &str) -> Result<(), AllocError>
    ensures { AddsTokens result writer.old writer.new (sarif_head version.now) }
{
    write_start(writer, version)?;
    write_rules(alloc, writer, &ALL_RULES)?;
    write_briefly(writer, "refused_file", "files that can't be linted")?;
    write_briefly(
        writer,
        "silencing_comment",
        "comments that are meant to silence a rule and don't",
    )?;
    write_results_head(writer)
}

/// The text before the results.
pub(crate) fn head(alloc: Global, version: &str) -> Result<Vec<u8>, AllocError>
    ensures { IfOk result (λ text. text.items ≡ print (sarif_head version.now)) }
{
    let mut writer = Writer::new(Vec::new(alloc));
    write_head(alloc, &mut writer, version)?;
    Ok(writer.into_inner())
}

/// A text with the end of the document appended, in a run of this status.
pub(crate) fn with_foot(text: Vec<u8>, status: u8) -> Result<Vec<u8>, AllocError>
    ensures { IfOk result (λ l. l.items ≡ text.items ++ print (sarif_foot status)) }
{
    with_parts(
        text,
        &[
            JsonPart::EndArray,
            JsonPart::ArrayAt("invocations"),
            JsonPart::Object,
            JsonPart::FlagAt("executionSuccessful", status != 1),
            JsonPart::NumberAt("exitCode", status as u64),
            JsonPart::EndObject,
            JsonPart::EndArray,
            JsonPart::EndObject,
            JsonPart::EndArray,
            JsonPart::EndObject,
        ],
    )
}
