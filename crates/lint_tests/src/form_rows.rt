//! The forms of some remarks, worked out by Python's `json` and `hashlib` and read back by its `xml`.

use lint_forms::{Remark, Subject};
use rule_set::Rule;

/// The issues of a module.
pub type Module = &'static [Remark<'static>];

/// Issues of modules with odd names, two of them alike; a module without any; and a comment that silences nothing.
pub static MODULES: [Module; 3] = [
    &[
        Remark {
            file: "a/m:1,<&>%.tf",
            line: 1,
            column: 1,
            subject: Subject::Rule(Rule::TypedVariables),
            text: "variable \"n:1:1: (x) <&>\" has no type",
        },
        Remark {
            file: "a/é #?\"q'.tf",
            line: 3,
            column: 28,
            subject: Subject::Rule(Rule::DeprecatedIndex),
            text: "list items should be accessed using square brackets",
        },
        Remark {
            file: "a/m:1,<&>%.tf",
            line: 9,
            column: 1,
            subject: Subject::Rule(Rule::TypedVariables),
            text: "variable \"n:1:1: (x) <&>\" has no type",
        },
    ],
    &[],
    &[
        Remark {
            file: "c\t/new\r\nline\u{1}\u{fffe}.tf",
            line: 70000,
            column: 7,
            subject: Subject::Rule(Rule::DocumentedOutputs),
            text: "output \"50%\" has\nno description",
        },
        Remark {
            file: "c/d.tf",
            line: 4,
            column: 9,
            subject: Subject::Comment,
            text: "no rule is called \"terraform_typed\"",
        },
    ],
];

/// A refused file and a refused folder.
pub static REFUSALS: [Remark<'static>; 2] = [
    Remark {
        file: "bad/b.tf",
        line: 1,
        column: 3,
        subject: Subject::Refusal,
        text: "unexpected token",
    },
    Remark {
        file: "bad/d",
        line: 1,
        column: 1,
        subject: Subject::Refusal,
        text: "folders are nested too deeply",
    },
];

/// TFLint's form.
pub static TFLINT: &str =
    "{\"issues\":[{\"rule\":{\"name\":\"terraform_typed_variables\",\"severity\":\"warning\",\"link\":\"\"},\"message\":\"variable \\\"n:1:1: (x) <&>\\\" has no type\",\"range\":{\"filename\":\"a/m:1,<&>%.tf\",\"start\":{\"line\":1,\"column\":1},\"end\":{\"line\":1,\"column\":1}},\"callers\":[]},{\"rule\":{\"name\":\"terraform_deprecated_index\",\"severity\":\"warning\",\"link\":\"\"},\"message\":\"list items should be accessed using square brackets\",\"range\":{\"filename\":\"a/é #?\\\"q'.tf\",\"start\":{\"line\":3,\"column\":28},\"end\":{\"line\":3,\"column\":28}},\"callers\":[]},{\"rule\":{\"name\":\"terraform_typed_variables\",\"severity\":\"warning\",\"link\":\"\"},\"message\":\"variable \\\"n:1:1: (x) <&>\\\" has no type\",\"range\":{\"filename\":\"a/m:1,<&>%.tf\",\"start\":{\"line\":9,\"column\":1},\"end\":{\"line\":9,\"column\":1}},\"callers\":[]},{\"rule\":{\"name\":\"terraform_documented_outputs\",\"severity\":\"info\",\"link\":\"\"},\"message\":\"output \\\"50%\\\" has\\nno description\",\"range\":{\"filename\":\"c\\t/new\\r\\nline\\u0001\u{fffe}.tf\",\"start\":{\"line\":70000,\"column\":7},\"end\":{\"line\":70000,\"column\":7}},\"callers\":[]},{\"rule\":{\"name\":\"silencing_comment\",\"severity\":\"error\",\"link\":\"\"},\"message\":\"no rule is called \\\"terraform_typed\\\"\",\"range\":{\"filename\":\"c/d.tf\",\"start\":{\"line\":4,\"column\":9},\"end\":{\"line\":4,\"column\":9}},\"callers\":[]}],\"errors\":[{\"message\":\"unexpected token\",\"severity\":\"error\",\"range\":{\"filename\":\"bad/b.tf\",\"start\":{\"line\":1,\"column\":3},\"end\":{\"line\":1,\"column\":3}}},{\"message\":\"folders are nested too deeply\",\"severity\":\"error\",\"range\":{\"filename\":\"bad/d\",\"start\":{\"line\":1,\"column\":1},\"end\":{\"line\":1,\"column\":1}}}]}";

/// SARIF, of version 1.2.3 in a run of status 1.
pub static SARIF: &str =
    "{\"$schema\":\"https://json.schemastore.org/sarif-2.1.0.json\",\"version\":\"2.1.0\",\"runs\":[{\"tool\":{\"driver\":{\"name\":\"tfrules\",\"version\":\"1.2.3\",\"rules\":[{\"id\":\"terraform_comment_syntax\",\"shortDescription\":{\"text\":\"comments that begin with `//`\"},\"fullDescription\":{\"text\":\"Reports comments that begin with `//`. Both marks mean the same; using only one is easier to read, and Terraform's own style guide asks for `#`.\"},\"help\":{\"text\":\"Reports comments that begin with `//`. Both marks mean the same; using only one is easier to read, and Terraform's own style guide asks for `#`.\",\"markdown\":\"Both marks mean the same; using only one is easier to read, and Terraform's own style guide asks for `#`.\"},\"helpUri\":\"https://github.com/terraform-linters/tflint-ruleset-terraform/blob/main/docs/rules/terraform_comment_syntax.md\",\"defaultConfiguration\":{\"level\":\"warning\"}},{\"id\":\"terraform_deprecated_index\",\"shortDescription\":{\"text\":\"`list.0` instead of `list[0]`\"},\"fullDescription\":{\"text\":\"Reports `list.0` instead of `list[0]`. This is how an element of a list was written before Terraform 0.12; `terraform fmt` leaves it, and readers take it for a name.\"},\"help\":{\"text\":\"Reports `list.0` instead of `list[0]`. This is how an element of a list was written before Terraform 0.12; `terraform fmt` leaves it, and readers take it for a name.\",\"markdown\":\"This is how an element of a list was written before Terraform 0.12; `terraform fmt` leaves it, and readers take it for a name.\"},\"helpUri\":\"https://github.com/terraform-linters/tflint-ruleset-terraform/blob/main/docs/rules/terraform_deprecated_index.md\",\"defaultConfiguration\":{\"level\":\"warning\"}},{\"id\":\"terraform_deprecated_interpolation\",\"shortDescription\":{\"text\":\"`\\\"${var.name}\\\"` instead of `var.name`\"},\"fullDescription\":{\"text\":\"Reports `\\\"${var.name}\\\"` instead of `var.name`. Since Terraform 0.12 an expression needs no quotes around it; the quotes make a reader believe that the value is a text.\"},\"help\":{\"text\":\"Reports `\\\"${var.name}\\\"` instead of `var.name`. Since Terraform 0.12 an expression needs no quotes around it; the quotes make a reader believe that the value is a text.\",\"markdown\":\"Since Terraform 0.12 an expression needs no quotes around it; the quotes make a reader believe that the value is a text.\"},\"helpUri\":\"https://github.com/terraform-linters/tflint-ruleset-terraform/blob/main/docs/rules/terraform_deprecated_interpolation.md\",\"defaultConfiguration\":{\"level\":\"warning\"}},{\"id\":\"terraform_documented_outputs\",\"shortDescription\":{\"text\":\"outputs without a description\"},\"fullDescription\":{\"text\":\"Reports outputs without a description. Users of a module see its outputs in the registry and in plans, and have only the description to understand them.\"},\"help\":{\"text\":\"Reports outputs without a description. Users of a module see its outputs in the registry and in plans, and have only the description to understand them.\",\"markdown\":\"Users of a module see its outputs in the registry and in plans, and have only the description to understand them.\"},\"helpUri\":\"https://github.com/terraform-linters/tflint-ruleset-terraform/blob/main/docs/rules/terraform_documented_outputs.md\",\"defaultConfiguration\":{\"level\":\"note\"}},{\"id\":\"terraform_documented_variables\",\"shortDescription\":{\"text\":\"variables without a description\"},\"fullDescription\":{\"text\":\"Reports variables without a description. Callers of a module see its variables by name and description.\"},\"help\":{\"text\":\"Reports variables without a description. Callers of a module see its variables by name and description.\",\"markdown\":\"Callers of a module see its variables by name and description.\"},\"helpUri\":\"https://github.com/terraform-linters/tflint-ruleset-terraform/blob/main/docs/rules/terraform_documented_variables.md\",\"defaultConfiguration\":{\"level\":\"note\"}},{\"id\":\"terraform_module_pinned_source\",\"shortDescription\":{\"text\":\"modules from git or Mercurial at no fixed revision\"},\"fullDescription\":{\"text\":\"Reports modules from git or Mercurial at no fixed revision. What is fetched changes although the configuration doesn't: plans of today and tomorrow differ for no reason that the repository shows.\"},\"help\":{\"text\":\"Reports modules from git or Mercurial at no fixed revision. What is fetched changes although the configuration doesn't: plans of today and tomorrow differ for no reason that the repository shows.\",\"markdown\":\"What is fetched changes although the configuration doesn't: plans of today and tomorrow differ for no reason that the repository shows.\"},\"helpUri\":\"https://github.com/terraform-linters/tflint-ruleset-terraform/blob/main/docs/rules/terraform_module_pinned_source.md\",\"defaultConfiguration\":{\"level\":\"warning\"}},{\"id\":\"terraform_module_version\",\"shortDescription\":{\"text\":\"modules from a registry without a version\"},\"fullDescription\":{\"text\":\"Reports modules from a registry without a version. Without a version each `terraform init` takes the newest, whatever that breaks.\"},\"help\":{\"text\":\"Reports modules from a registry without a version. Without a version each `terraform init` takes the newest, whatever that breaks.\",\"markdown\":\"Without a version each `terraform init` takes the newest, whatever that breaks.\"},\"helpUri\":\"https://github.com/terraform-linters/tflint-ruleset-terraform/blob/main/docs/rules/terraform_module_version.md\",\"defaultConfiguration\":{\"level\":\"warning\"}},{\"id\":\"terraform_naming_convention\",\"shortDescription\":{\"text\":\"names that don't follow the naming\"},\"fullDescription\":{\"text\":\"Reports names that don't follow the naming. With one naming throughout, a reader of a reference need not wonder how its name is written.\"},\"help\":{\"text\":\"Reports names that don't follow the naming. With one naming throughout, a reader of a reference need not wonder how its name is written.\",\"markdown\":\"With one naming throughout, a reader of a reference need not wonder how its name is written.\"},\"helpUri\":\"https://github.com/terraform-linters/tflint-ruleset-terraform/blob/main/docs/rules/terraform_naming_convention.md\",\"defaultConfiguration\":{\"level\":\"note\"}},{\"id\":\"terraform_typed_variables\",\"shortDescription\":{\"text\":\"variables without a type\"},\"fullDescription\":{\"text\":\"Reports variables without a type. Without a type any value is accepted, and a wrong one fails far from where it was set.\"},\"help\":{\"text\":\"Reports variables without a type. Without a type any value is accepted, and a wrong one fails far from where it was set.\",\"markdown\":\"Without a type any value is accepted, and a wrong one fails far from where it was set.\"},\"helpUri\":\"https://github.com/terraform-linters/tflint-ruleset-terraform/blob/main/docs/rules/terraform_typed_variables.md\",\"defaultConfiguration\":{\"level\":\"warning\"}},{\"id\":\"terraform_unused_declarations\",\"shortDescription\":{\"text\":\"variables, locals and data sources that nothing refers to\"},\"fullDescription\":{\"text\":\"Reports variables, locals and data sources that nothing refers to. What nothing refers to can be removed, and a data source that nothing refers to is still read in each plan.\"},\"help\":{\"text\":\"Reports variables, locals and data sources that nothing refers to. What nothing refers to can be removed, and a data source that nothing refers to is still read in each plan.\",\"markdown\":\"What nothing refers to can be removed, and a data source that nothing refers to is still read in each plan.\"},\"helpUri\":\"https://github.com/terraform-linters/tflint-ruleset-terraform/blob/main/docs/rules/terraform_unused_declarations.md\",\"defaultConfiguration\":{\"level\":\"warning\"}},{\"id\":\"refused_file\",\"shortDescription\":{\"text\":\"files that can't be linted\"},\"defaultConfiguration\":{\"level\":\"error\"}},{\"id\":\"silencing_comment\",\"shortDescription\":{\"text\":\"comments that are meant to silence a rule and don't\"},\"defaultConfiguration\":{\"level\":\"error\"}}]}},\"results\":[{\"ruleId\":\"terraform_typed_variables\",\"ruleIndex\":8,\"level\":\"warning\",\"message\":{\"text\":\"variable \\\"n:1:1: (x) <&>\\\" has no type\"},\"locations\":[{\"physicalLocation\":{\"artifactLocation\":{\"uri\":\"a/m%3A1%2C%3C%26%3E%25.tf\"},\"region\":{\"startLine\":1}}}],\"partialFingerprints\":{\"primaryLocationLineHash\":\"e8cb8f7f324579519dd43a300ee5fbd05e66ff64f110049da59fc5c253f0179a:1\",\"tfrulesIssue/v1\":\"e8cb8f7f324579519dd43a300ee5fbd05e66ff64f110049da59fc5c253f0179a:1\"}},{\"ruleId\":\"terraform_deprecated_index\",\"ruleIndex\":1,\"level\":\"warning\",\"message\":{\"text\":\"list items should be accessed using square brackets\"},\"locations\":[{\"physicalLocation\":{\"artifactLocation\":{\"uri\":\"a/%C3%A9%20%23%3F%22q%27.tf\"},\"region\":{\"startLine\":3}}}],\"partialFingerprints\":{\"primaryLocationLineHash\":\"886ac5c57f002ab4dd927a3b6ddf0a2030a85ea6a0f804f094e46d17011ec04b:1\",\"tfrulesIssue/v1\":\"886ac5c57f002ab4dd927a3b6ddf0a2030a85ea6a0f804f094e46d17011ec04b:1\"}},{\"ruleId\":\"terraform_typed_variables\",\"ruleIndex\":8,\"level\":\"warning\",\"message\":{\"text\":\"variable \\\"n:1:1: (x) <&>\\\" has no type\"},\"locations\":[{\"physicalLocation\":{\"artifactLocation\":{\"uri\":\"a/m%3A1%2C%3C%26%3E%25.tf\"},\"region\":{\"startLine\":9}}}],\"partialFingerprints\":{\"primaryLocationLineHash\":\"e8cb8f7f324579519dd43a300ee5fbd05e66ff64f110049da59fc5c253f0179a:2\",\"tfrulesIssue/v1\":\"e8cb8f7f324579519dd43a300ee5fbd05e66ff64f110049da59fc5c253f0179a:2\"}},{\"ruleId\":\"terraform_documented_outputs\",\"ruleIndex\":3,\"level\":\"note\",\"message\":{\"text\":\"output \\\"50%\\\" has\\nno description\"},\"locations\":[{\"physicalLocation\":{\"artifactLocation\":{\"uri\":\"c%09/new%0D%0Aline%01%EF%BF%BE.tf\"},\"region\":{\"startLine\":70000}}}],\"partialFingerprints\":{\"primaryLocationLineHash\":\"6970d66a36ee479e1d33f7db0757d17dc6622997fe23ee7c56366c9fc28a850d:1\",\"tfrulesIssue/v1\":\"6970d66a36ee479e1d33f7db0757d17dc6622997fe23ee7c56366c9fc28a850d:1\"}},{\"ruleId\":\"silencing_comment\",\"ruleIndex\":11,\"level\":\"error\",\"message\":{\"text\":\"no rule is called \\\"terraform_typed\\\"\"},\"locations\":[{\"physicalLocation\":{\"artifactLocation\":{\"uri\":\"c/d.tf\"},\"region\":{\"startLine\":4}}}],\"partialFingerprints\":{\"primaryLocationLineHash\":\"a5fa7b0bde887dac69eeb54a58d3382dfda09acb07fb0d510434129f39a57f49:1\",\"tfrulesIssue/v1\":\"a5fa7b0bde887dac69eeb54a58d3382dfda09acb07fb0d510434129f39a57f49:1\"}},{\"ruleId\":\"refused_file\",\"ruleIndex\":10,\"level\":\"error\",\"message\":{\"text\":\"unexpected token\"},\"locations\":[{\"physicalLocation\":{\"artifactLocation\":{\"uri\":\"bad/b.tf\"},\"region\":{\"startLine\":1}}}],\"partialFingerprints\":{\"primaryLocationLineHash\":\"1aeb35f3d6c8ee7479db2af964497d27200e267840a908afbdc926d45964a242:1\",\"tfrulesIssue/v1\":\"1aeb35f3d6c8ee7479db2af964497d27200e267840a908afbdc926d45964a242:1\"}},{\"ruleId\":\"refused_file\",\"ruleIndex\":10,\"level\":\"error\",\"message\":{\"text\":\"folders are nested too deeply\"},\"locations\":[{\"physicalLocation\":{\"artifactLocation\":{\"uri\":\"bad/d\"},\"region\":{\"startLine\":1}}}],\"partialFingerprints\":{\"primaryLocationLineHash\":\"37b2a9da37d97a30a9caac62d9a7d2dbf14d8276884527ad0e7bbb3807bd751f:1\",\"tfrulesIssue/v1\":\"37b2a9da37d97a30a9caac62d9a7d2dbf14d8276884527ad0e7bbb3807bd751f:1\"}}],\"invocations\":[{\"executionSuccessful\":false,\"exitCode\":1}]}]}";

/// SARIF without remarks, of status 0.
pub static SARIF_OF_NOTHING: &str =
    "{\"$schema\":\"https://json.schemastore.org/sarif-2.1.0.json\",\"version\":\"2.1.0\",\"runs\":[{\"tool\":{\"driver\":{\"name\":\"tfrules\",\"version\":\"1.2.3\",\"rules\":[{\"id\":\"terraform_comment_syntax\",\"shortDescription\":{\"text\":\"comments that begin with `//`\"},\"fullDescription\":{\"text\":\"Reports comments that begin with `//`. Both marks mean the same; using only one is easier to read, and Terraform's own style guide asks for `#`.\"},\"help\":{\"text\":\"Reports comments that begin with `//`. Both marks mean the same; using only one is easier to read, and Terraform's own style guide asks for `#`.\",\"markdown\":\"Both marks mean the same; using only one is easier to read, and Terraform's own style guide asks for `#`.\"},\"helpUri\":\"https://github.com/terraform-linters/tflint-ruleset-terraform/blob/main/docs/rules/terraform_comment_syntax.md\",\"defaultConfiguration\":{\"level\":\"warning\"}},{\"id\":\"terraform_deprecated_index\",\"shortDescription\":{\"text\":\"`list.0` instead of `list[0]`\"},\"fullDescription\":{\"text\":\"Reports `list.0` instead of `list[0]`. This is how an element of a list was written before Terraform 0.12; `terraform fmt` leaves it, and readers take it for a name.\"},\"help\":{\"text\":\"Reports `list.0` instead of `list[0]`. This is how an element of a list was written before Terraform 0.12; `terraform fmt` leaves it, and readers take it for a name.\",\"markdown\":\"This is how an element of a list was written before Terraform 0.12; `terraform fmt` leaves it, and readers take it for a name.\"},\"helpUri\":\"https://github.com/terraform-linters/tflint-ruleset-terraform/blob/main/docs/rules/terraform_deprecated_index.md\",\"defaultConfiguration\":{\"level\":\"warning\"}},{\"id\":\"terraform_deprecated_interpolation\",\"shortDescription\":{\"text\":\"`\\\"${var.name}\\\"` instead of `var.name`\"},\"fullDescription\":{\"text\":\"Reports `\\\"${var.name}\\\"` instead of `var.name`. Since Terraform 0.12 an expression needs no quotes around it; the quotes make a reader believe that the value is a text.\"},\"help\":{\"text\":\"Reports `\\\"${var.name}\\\"` instead of `var.name`. Since Terraform 0.12 an expression needs no quotes around it; the quotes make a reader believe that the value is a text.\",\"markdown\":\"Since Terraform 0.12 an expression needs no quotes around it; the quotes make a reader believe that the value is a text.\"},\"helpUri\":\"https://github.com/terraform-linters/tflint-ruleset-terraform/blob/main/docs/rules/terraform_deprecated_interpolation.md\",\"defaultConfiguration\":{\"level\":\"warning\"}},{\"id\":\"terraform_documented_outputs\",\"shortDescription\":{\"text\":\"outputs without a description\"},\"fullDescription\":{\"text\":\"Reports outputs without a description. Users of a module see its outputs in the registry and in plans, and have only the description to understand them.\"},\"help\":{\"text\":\"Reports outputs without a description. Users of a module see its outputs in the registry and in plans, and have only the description to understand them.\",\"markdown\":\"Users of a module see its outputs in the registry and in plans, and have only the description to understand them.\"},\"helpUri\":\"https://github.com/terraform-linters/tflint-ruleset-terraform/blob/main/docs/rules/terraform_documented_outputs.md\",\"defaultConfiguration\":{\"level\":\"note\"}},{\"id\":\"terraform_documented_variables\",\"shortDescription\":{\"text\":\"variables without a description\"},\"fullDescription\":{\"text\":\"Reports variables without a description. Callers of a module see its variables by name and description.\"},\"help\":{\"text\":\"Reports variables without a description. Callers of a module see its variables by name and description.\",\"markdown\":\"Callers of a module see its variables by name and description.\"},\"helpUri\":\"https://github.com/terraform-linters/tflint-ruleset-terraform/blob/main/docs/rules/terraform_documented_variables.md\",\"defaultConfiguration\":{\"level\":\"note\"}},{\"id\":\"terraform_module_pinned_source\",\"shortDescription\":{\"text\":\"modules from git or Mercurial at no fixed revision\"},\"fullDescription\":{\"text\":\"Reports modules from git or Mercurial at no fixed revision. What is fetched changes although the configuration doesn't: plans of today and tomorrow differ for no reason that the repository shows.\"},\"help\":{\"text\":\"Reports modules from git or Mercurial at no fixed revision. What is fetched changes although the configuration doesn't: plans of today and tomorrow differ for no reason that the repository shows.\",\"markdown\":\"What is fetched changes although the configuration doesn't: plans of today and tomorrow differ for no reason that the repository shows.\"},\"helpUri\":\"https://github.com/terraform-linters/tflint-ruleset-terraform/blob/main/docs/rules/terraform_module_pinned_source.md\",\"defaultConfiguration\":{\"level\":\"warning\"}},{\"id\":\"terraform_module_version\",\"shortDescription\":{\"text\":\"modules from a registry without a version\"},\"fullDescription\":{\"text\":\"Reports modules from a registry without a version. Without a version each `terraform init` takes the newest, whatever that breaks.\"},\"help\":{\"text\":\"Reports modules from a registry without a version. Without a version each `terraform init` takes the newest, whatever that breaks.\",\"markdown\":\"Without a version each `terraform init` takes the newest, whatever that breaks.\"},\"helpUri\":\"https://github.com/terraform-linters/tflint-ruleset-terraform/blob/main/docs/rules/terraform_module_version.md\",\"defaultConfiguration\":{\"level\":\"warning\"}},{\"id\":\"terraform_naming_convention\",\"shortDescription\":{\"text\":\"names that don't follow the naming\"},\"fullDescription\":{\"text\":\"Reports names that don't follow the naming. With one naming throughout, a reader of a reference need not wonder how its name is written.\"},\"help\":{\"text\":\"Reports names that don't follow the naming. With one naming throughout, a reader of a reference need not wonder how its name is written.\",\"markdown\":\"With one naming throughout, a reader of a reference need not wonder how its name is written.\"},\"helpUri\":\"https://github.com/terraform-linters/tflint-ruleset-terraform/blob/main/docs/rules/terraform_naming_convention.md\",\"defaultConfiguration\":{\"level\":\"note\"}},{\"id\":\"terraform_typed_variables\",\"shortDescription\":{\"text\":\"variables without a type\"},\"fullDescription\":{\"text\":\"Reports variables without a type. Without a type any value is accepted, and a wrong one fails far from where it was set.\"},\"help\":{\"text\":\"Reports variables without a type. Without a type any value is accepted, and a wrong one fails far from where it was set.\",\"markdown\":\"Without a type any value is accepted, and a wrong one fails far from where it was set.\"},\"helpUri\":\"https://github.com/terraform-linters/tflint-ruleset-terraform/blob/main/docs/rules/terraform_typed_variables.md\",\"defaultConfiguration\":{\"level\":\"warning\"}},{\"id\":\"terraform_unused_declarations\",\"shortDescription\":{\"text\":\"variables, locals and data sources that nothing refers to\"},\"fullDescription\":{\"text\":\"Reports variables, locals and data sources that nothing refers to. What nothing refers to can be removed, and a data source that nothing refers to is still read in each plan.\"},\"help\":{\"text\":\"Reports variables, locals and data sources that nothing refers to. What nothing refers to can be removed, and a data source that nothing refers to is still read in each plan.\",\"markdown\":\"What nothing refers to can be removed, and a data source that nothing refers to is still read in each plan.\"},\"helpUri\":\"https://github.com/terraform-linters/tflint-ruleset-terraform/blob/main/docs/rules/terraform_unused_declarations.md\",\"defaultConfiguration\":{\"level\":\"warning\"}},{\"id\":\"refused_file\",\"shortDescription\":{\"text\":\"files that can't be linted\"},\"defaultConfiguration\":{\"level\":\"error\"}},{\"id\":\"silencing_comment\",\"shortDescription\":{\"text\":\"comments that are meant to silence a rule and don't\"},\"defaultConfiguration\":{\"level\":\"error\"}}]}},\"results\":[],\"invocations\":[{\"executionSuccessful\":true,\"exitCode\":0}]}]}";

/// GitLab's form.
pub static GITLAB: &str =
    "[{\"description\":\"variable \\\"n:1:1: (x) <&>\\\" has no type\",\"check_name\":\"terraform_typed_variables\",\"fingerprint\":\"e8cb8f7f324579519dd43a300ee5fbd05e66ff64f110049da59fc5c253f0179a:1\",\"severity\":\"minor\",\"location\":{\"path\":\"a/m:1,<&>%.tf\",\"lines\":{\"begin\":1}}},{\"description\":\"list items should be accessed using square brackets\",\"check_name\":\"terraform_deprecated_index\",\"fingerprint\":\"886ac5c57f002ab4dd927a3b6ddf0a2030a85ea6a0f804f094e46d17011ec04b:1\",\"severity\":\"minor\",\"location\":{\"path\":\"a/é #?\\\"q'.tf\",\"lines\":{\"begin\":3}}},{\"description\":\"variable \\\"n:1:1: (x) <&>\\\" has no type\",\"check_name\":\"terraform_typed_variables\",\"fingerprint\":\"e8cb8f7f324579519dd43a300ee5fbd05e66ff64f110049da59fc5c253f0179a:2\",\"severity\":\"minor\",\"location\":{\"path\":\"a/m:1,<&>%.tf\",\"lines\":{\"begin\":9}}},{\"description\":\"output \\\"50%\\\" has\\nno description\",\"check_name\":\"terraform_documented_outputs\",\"fingerprint\":\"6970d66a36ee479e1d33f7db0757d17dc6622997fe23ee7c56366c9fc28a850d:1\",\"severity\":\"info\",\"location\":{\"path\":\"c\\t/new\\r\\nline\\u0001\u{fffe}.tf\",\"lines\":{\"begin\":70000}}},{\"description\":\"no rule is called \\\"terraform_typed\\\"\",\"check_name\":\"silencing_comment\",\"fingerprint\":\"a5fa7b0bde887dac69eeb54a58d3382dfda09acb07fb0d510434129f39a57f49:1\",\"severity\":\"major\",\"location\":{\"path\":\"c/d.tf\",\"lines\":{\"begin\":4}}},{\"description\":\"unexpected token\",\"check_name\":\"refused_file\",\"fingerprint\":\"1aeb35f3d6c8ee7479db2af964497d27200e267840a908afbdc926d45964a242:1\",\"severity\":\"major\",\"location\":{\"path\":\"bad/b.tf\",\"lines\":{\"begin\":1}}},{\"description\":\"folders are nested too deeply\",\"check_name\":\"refused_file\",\"fingerprint\":\"37b2a9da37d97a30a9caac62d9a7d2dbf14d8276884527ad0e7bbb3807bd751f:1\",\"severity\":\"major\",\"location\":{\"path\":\"bad/d\",\"lines\":{\"begin\":1}}}]";

/// GitHub's commands.
pub static GITHUB: &str =
    "::warning file=a/m%3A1%2C<&>%25.tf,line=1,col=1,title=terraform_typed_variables::variable \"n:1:1: (x) <&>\" has no type\n::warning file=a/é #?\"q'.tf,line=3,col=28,title=terraform_deprecated_index::list items should be accessed using square brackets\n::warning file=a/m%3A1%2C<&>%25.tf,line=9,col=1,title=terraform_typed_variables::variable \"n:1:1: (x) <&>\" has no type\n::notice file=c\t/new%0D%0Aline\u{1}\u{fffe}.tf,line=70000,col=7,title=terraform_documented_outputs::output \"50%25\" has%0Ano description\n::error file=c/d.tf,line=4,col=9,title=silencing_comment::no rule is called \"terraform_typed\"\n::error file=bad/b.tf,line=1,col=3,title=refused_file::unexpected token\n::error file=bad/d,line=1,col=1,title=refused_file::folders are nested too deeply\n";

/// Checkstyle's form.
pub static CHECKSTYLE: &str =
    "<?xml version=\"1.0\" encoding=\"UTF-8\"?>\n<checkstyle version=\"4.3\">\n<file name=\"a/m:1,&lt;&amp;&gt;%.tf\"><error line=\"1\" column=\"1\" severity=\"warning\" message=\"variable &quot;n:1:1: (x) &lt;&amp;&gt;&quot; has no type\" source=\"terraform_typed_variables\"/></file>\n<file name=\"a/é #?&quot;q'.tf\"><error line=\"3\" column=\"28\" severity=\"warning\" message=\"list items should be accessed using square brackets\" source=\"terraform_deprecated_index\"/></file>\n<file name=\"a/m:1,&lt;&amp;&gt;%.tf\"><error line=\"9\" column=\"1\" severity=\"warning\" message=\"variable &quot;n:1:1: (x) &lt;&amp;&gt;&quot; has no type\" source=\"terraform_typed_variables\"/></file>\n<file name=\"c&#9;/new&#13;&#10;line\u{fffd}\u{fffd}.tf\"><error line=\"70000\" column=\"7\" severity=\"info\" message=\"output &quot;50%&quot; has&#10;no description\" source=\"terraform_documented_outputs\"/></file>\n<file name=\"c/d.tf\"><error line=\"4\" column=\"9\" severity=\"error\" message=\"no rule is called &quot;terraform_typed&quot;\" source=\"silencing_comment\"/></file>\n<file name=\"bad/b.tf\"><error line=\"1\" column=\"3\" severity=\"error\" message=\"unexpected token\" source=\"refused_file\"/></file>\n<file name=\"bad/d\"><error line=\"1\" column=\"1\" severity=\"error\" message=\"folders are nested too deeply\" source=\"refused_file\"/></file>\n</checkstyle>\n";

/// JUnit's form.
pub static JUNIT: &str =
    "<?xml version=\"1.0\" encoding=\"UTF-8\"?>\n<testsuites>\n<testsuite name=\"tfrules\" tests=\"3\" failures=\"3\" errors=\"0\">\n<testcase classname=\"terraform_typed_variables\" name=\"a/m:1,&lt;&amp;&gt;%.tf:1:1\"><failure type=\"Warning\" message=\"a/m:1,&lt;&amp;&gt;%.tf:1:1: variable &quot;n:1:1: (x) &lt;&amp;&gt;&quot; has no type\"/></testcase>\n<testcase classname=\"terraform_deprecated_index\" name=\"a/é #?&quot;q'.tf:3:28\"><failure type=\"Warning\" message=\"a/é #?&quot;q'.tf:3:28: list items should be accessed using square brackets\"/></testcase>\n<testcase classname=\"terraform_typed_variables\" name=\"a/m:1,&lt;&amp;&gt;%.tf:9:1\"><failure type=\"Warning\" message=\"a/m:1,&lt;&amp;&gt;%.tf:9:1: variable &quot;n:1:1: (x) &lt;&amp;&gt;&quot; has no type\"/></testcase>\n</testsuite>\n<testsuite name=\"tfrules\" tests=\"2\" failures=\"2\" errors=\"0\">\n<testcase classname=\"terraform_documented_outputs\" name=\"c&#9;/new&#13;&#10;line\u{fffd}\u{fffd}.tf:70000:7\"><failure type=\"Notice\" message=\"c&#9;/new&#13;&#10;line\u{fffd}\u{fffd}.tf:70000:7: output &quot;50%&quot; has&#10;no description\"/></testcase>\n<testcase classname=\"silencing_comment\" name=\"c/d.tf:4:9\"><failure type=\"Error\" message=\"c/d.tf:4:9: no rule is called &quot;terraform_typed&quot;\"/></testcase>\n</testsuite>\n<testsuite name=\"tfrules\" tests=\"2\" failures=\"0\" errors=\"2\">\n<testcase classname=\"refused_file\" name=\"bad/b.tf:1:3\"><error type=\"Error\" message=\"bad/b.tf:1:3: unexpected token\"/></testcase>\n<testcase classname=\"refused_file\" name=\"bad/d:1:1\"><error type=\"Error\" message=\"bad/d:1:1: folders are nested too deeply\"/></testcase>\n</testsuite>\n</testsuites>\n";

/// JUnit's form without remarks.
pub static JUNIT_OF_NOTHING: &str =
    "<?xml version=\"1.0\" encoding=\"UTF-8\"?>\n<testsuites>\n<testsuite name=\"tfrules\" tests=\"1\" failures=\"0\" errors=\"0\">\n<testcase classname=\"tfrules\" name=\"no issue\"/>\n</testsuite>\n</testsuites>\n";

/// GitLab's form of the refusals alone.
pub static GITLAB_OF_REFUSALS: &str =
    "[{\"description\":\"unexpected token\",\"check_name\":\"refused_file\",\"fingerprint\":\"1aeb35f3d6c8ee7479db2af964497d27200e267840a908afbdc926d45964a242:1\",\"severity\":\"major\",\"location\":{\"path\":\"bad/b.tf\",\"lines\":{\"begin\":1}}},{\"description\":\"folders are nested too deeply\",\"check_name\":\"refused_file\",\"fingerprint\":\"37b2a9da37d97a30a9caac62d9a7d2dbf14d8276884527ad0e7bbb3807bd751f:1\",\"severity\":\"major\",\"location\":{\"path\":\"bad/d\",\"lines\":{\"begin\":1}}}]";

/// JUnit's form of the refusals alone.
pub static JUNIT_OF_REFUSALS: &str =
    "<?xml version=\"1.0\" encoding=\"UTF-8\"?>\n<testsuites>\n<testsuite name=\"tfrules\" tests=\"2\" failures=\"0\" errors=\"2\">\n<testcase classname=\"refused_file\" name=\"bad/b.tf:1:3\"><error type=\"Error\" message=\"bad/b.tf:1:3: unexpected token\"/></testcase>\n<testcase classname=\"refused_file\" name=\"bad/d:1:1\"><error type=\"Error\" message=\"bad/d:1:1: folders are nested too deeply\"/></testcase>\n</testsuite>\n</testsuites>\n";

/// Issues of files with names that aren't URIs.
pub static NAMES: [Remark<'static>; 4] = [
    Remark {
        file: "in/m.tf",
        line: 1,
        column: 1,
        subject: Subject::Rule(Rule::TypedVariables),
        text: "x",
    },
    Remark {
        file: "/a b/é#?~-_.tf",
        line: 1,
        column: 1,
        subject: Subject::Rule(Rule::TypedVariables),
        text: "x",
    },
    Remark {
        file: "a:1:1\n%.tf",
        line: 1,
        column: 1,
        subject: Subject::Rule(Rule::TypedVariables),
        text: "x",
    },
    Remark {
        file: "",
        line: 1,
        column: 1,
        subject: Subject::Rule(Rule::TypedVariables),
        text: "x",
    },
];

/// The results of these issues.
pub static RESULTS_OF_NAMES: &str =
    "{\"ruleId\":\"terraform_typed_variables\",\"ruleIndex\":8,\"level\":\"warning\",\"message\":{\"text\":\"x\"},\"locations\":[{\"physicalLocation\":{\"artifactLocation\":{\"uri\":\"in/m.tf\"},\"region\":{\"startLine\":1}}}],\"partialFingerprints\":{\"primaryLocationLineHash\":\"83fa46dff78cf671987b340ce12c89ccd279edf80763b873459b15c953a5d114:1\",\"tfrulesIssue/v1\":\"83fa46dff78cf671987b340ce12c89ccd279edf80763b873459b15c953a5d114:1\"}},{\"ruleId\":\"terraform_typed_variables\",\"ruleIndex\":8,\"level\":\"warning\",\"message\":{\"text\":\"x\"},\"locations\":[{\"physicalLocation\":{\"artifactLocation\":{\"uri\":\"file:///a%20b/%C3%A9%23%3F~-_.tf\"},\"region\":{\"startLine\":1}}}],\"partialFingerprints\":{\"primaryLocationLineHash\":\"f0cb1918f432deea09e82ee6ef1742f1491dcd07fc744cf881ae7309fd5f85a6:1\",\"tfrulesIssue/v1\":\"f0cb1918f432deea09e82ee6ef1742f1491dcd07fc744cf881ae7309fd5f85a6:1\"}},{\"ruleId\":\"terraform_typed_variables\",\"ruleIndex\":8,\"level\":\"warning\",\"message\":{\"text\":\"x\"},\"locations\":[{\"physicalLocation\":{\"artifactLocation\":{\"uri\":\"a%3A1%3A1%0A%25.tf\"},\"region\":{\"startLine\":1}}}],\"partialFingerprints\":{\"primaryLocationLineHash\":\"31719329dc05d80d4bf2b96f6a27f29f734e393d1b1580bd5296500785c81bd8:1\",\"tfrulesIssue/v1\":\"31719329dc05d80d4bf2b96f6a27f29f734e393d1b1580bd5296500785c81bd8:1\"}},{\"ruleId\":\"terraform_typed_variables\",\"ruleIndex\":8,\"level\":\"warning\",\"message\":{\"text\":\"x\"},\"locations\":[{\"physicalLocation\":{\"artifactLocation\":{\"uri\":\"\"},\"region\":{\"startLine\":1}}}],\"partialFingerprints\":{\"primaryLocationLineHash\":\"6c303b8856133f7b381284cd68875e198e1fa40f62ae65380faba626d1b3c233:1\",\"tfrulesIssue/v1\":\"6c303b8856133f7b381284cd68875e198e1fa40f62ae65380faba626d1b3c233:1\"}}";

/// Remarks; three of them are alike except for their places.
pub static ALIKE: [Remark<'static>; 6] = [
    Remark {
        file: "a/m.tf",
        line: 2,
        column: 1,
        subject: Subject::Rule(Rule::TypedVariables),
        text: "variable \"n\" has no type",
    },
    Remark {
        file: "a/m.tf",
        line: 5,
        column: 1,
        subject: Subject::Rule(Rule::TypedVariables),
        text: "variable \"n\" has no type",
    },
    Remark {
        file: "a/m.tf",
        line: 5,
        column: 1,
        subject: Subject::Rule(Rule::DeprecatedIndex),
        text: "variable \"n\" has no type",
    },
    Remark {
        file: "a/n.tf",
        line: 2,
        column: 1,
        subject: Subject::Rule(Rule::TypedVariables),
        text: "variable \"n\" has no type",
    },
    Remark {
        file: "bad/b.tf",
        line: 1,
        column: 1,
        subject: Subject::Refusal,
        text: "unexpected token",
    },
    Remark {
        file: "a/m.tf",
        line: 2,
        column: 7,
        subject: Subject::Rule(Rule::TypedVariables),
        text: "variable \"n\" has no type",
    },
];

/// Their entries for GitLab.
pub static ENTRIES_OF_ALIKE: &str =
    "{\"description\":\"variable \\\"n\\\" has no type\",\"check_name\":\"terraform_typed_variables\",\"fingerprint\":\"967791a54801ac7294e3b144991ed36e2910d5a45a5fae51a68182c9abe587af:1\",\"severity\":\"minor\",\"location\":{\"path\":\"a/m.tf\",\"lines\":{\"begin\":2}}},{\"description\":\"variable \\\"n\\\" has no type\",\"check_name\":\"terraform_typed_variables\",\"fingerprint\":\"967791a54801ac7294e3b144991ed36e2910d5a45a5fae51a68182c9abe587af:2\",\"severity\":\"minor\",\"location\":{\"path\":\"a/m.tf\",\"lines\":{\"begin\":5}}},{\"description\":\"variable \\\"n\\\" has no type\",\"check_name\":\"terraform_deprecated_index\",\"fingerprint\":\"4df83a3b8bde04438506ac3f656346f690ebf6ceabf48c780ba1189364850eac:1\",\"severity\":\"minor\",\"location\":{\"path\":\"a/m.tf\",\"lines\":{\"begin\":5}}},{\"description\":\"variable \\\"n\\\" has no type\",\"check_name\":\"terraform_typed_variables\",\"fingerprint\":\"22b769a077c591b52b56882a62a4ce1a5d1601cffab983d6090d4c13ea6d2c1d:1\",\"severity\":\"minor\",\"location\":{\"path\":\"a/n.tf\",\"lines\":{\"begin\":2}}},{\"description\":\"unexpected token\",\"check_name\":\"refused_file\",\"fingerprint\":\"1aeb35f3d6c8ee7479db2af964497d27200e267840a908afbdc926d45964a242:1\",\"severity\":\"major\",\"location\":{\"path\":\"bad/b.tf\",\"lines\":{\"begin\":1}}},{\"description\":\"variable \\\"n\\\" has no type\",\"check_name\":\"terraform_typed_variables\",\"fingerprint\":\"967791a54801ac7294e3b144991ed36e2910d5a45a5fae51a68182c9abe587af:3\",\"severity\":\"minor\",\"location\":{\"path\":\"a/m.tf\",\"lines\":{\"begin\":2}}}";
