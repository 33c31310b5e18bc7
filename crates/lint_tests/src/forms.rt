//! Each form on the same modules, with ample memory, and on none.

use crate::checks::holds;
use crate::documents::{document, same_text};
use crate::form_rows::{
    ALIKE, CHECKSTYLE, ENTRIES_OF_ALIKE, GITHUB, GITLAB, GITLAB_OF_REFUSALS, JUNIT,
    JUNIT_OF_NOTHING, JUNIT_OF_REFUSALS, MODULES, NAMES, REFUSALS, RESULTS_OF_NAMES, SARIF,
    SARIF_OF_NOTHING, TFLINT,
};
use lint_forms::Form;
use lint_forms::form::module_text;
use lint_forms::rule_texts::{reason, reports};
use rule_set::ALL_RULES;

#[test]
fn all_is_in_each_form(rt: HostRuntime) {
    let alloc = rt.alloc();
    for (form, wanted) in [
        (Form::Json, TFLINT),
        (Form::Sarif, SARIF),
        (Form::Checkstyle, CHECKSTYLE),
        (Form::Junit, JUNIT),
        (Form::Gitlab, GITLAB),
        (Form::Github, GITHUB),
    ] {
        same_text(&rt, document(alloc, form, 1, &MODULES, &REFUSALS), wanted);
    }
}

#[test]
fn forms_of_nothing(rt: HostRuntime) {
    let alloc = rt.alloc();
    for (form, wanted) in [
        (Form::Json, "{\"issues\":[],\"errors\":[]}"),
        (Form::Sarif, SARIF_OF_NOTHING),
        (
            Form::Checkstyle,
            "<?xml version=\"1.0\" encoding=\"UTF-8\"?>\n<checkstyle version=\"4.3\">\n</checkstyle>\n",
        ),
        (Form::Junit, JUNIT_OF_NOTHING),
        (Form::Gitlab, "[]"),
        (Form::Github, ""),
    ] {
        same_text(&rt, document(alloc, form, 0, &[], &[]), wanted);
        same_text(&rt, document(alloc, form, 0, &[&[], &[]], &[]), wanted);
    }
}

#[test]
fn refusals_alone(rt: HostRuntime) {
    let alloc = rt.alloc();
    for (form, wanted) in [
        (Form::Gitlab, GITLAB_OF_REFUSALS),
        (Form::Junit, JUNIT_OF_REFUSALS),
    ] {
        same_text(
            &rt,
            document(alloc, form, 1, &[&[], &[]], &REFUSALS),
            wanted,
        );
    }
}

#[test]
fn many_modules(rt: HostRuntime) {
    let alloc = rt.alloc();
    let mut many = Vec::new(alloc);
    for _ in 0..500 {
        holds(
            &rt,
            many.extend_from_slice(&MODULES).is_ok(),
            "a growth",
            "",
        );
    }
    for (form, wanted) in [(Form::Github, 294_154), (Form::Gitlab, 648_943)] {
        let length = match document(alloc, form, 1, many.as_slice(), &REFUSALS) {
            Ok(text) => text.len(),
            Err(_) => 0,
        };
        holds(&rt, length == wanted, "each module is there", "");
    }
}

#[test]
fn each_rule_has_texts(rt: HostRuntime) {
    for rule in ALL_RULES {
        let is_said = !reports(rule).is_empty() && reason(rule).ends_with('.');
        holds(&rt, is_said, "texts", rule.name());
    }
}

#[test]
fn names_as_uris(rt: HostRuntime) {
    same_text(
        &rt,
        module_text(rt.alloc(), Form::Sarif, false, &NAMES),
        RESULTS_OF_NAMES,
    );
}

#[test]
fn marks(rt: HostRuntime) {
    same_text(
        &rt,
        module_text(rt.alloc(), Form::Gitlab, false, &ALIKE),
        ENTRIES_OF_ALIKE,
    );
}
