//! Ten rules for the files of a Terraform module.
//!
//! [`Facts`] stores the facts of each file that the rules need, as `tf_facts` finds them, and lists the issues of all
//! files. The definitions of the rules are in `specs`, with laws in the module [`laws`]. The rules and their sets are
//! re-exported.
#![tactic(auto)]

mod cursor;
mod entry;
mod facts;
mod finding;
mod findings;
mod issue;
mod issue_list;
mod keeping;
pub mod laws;
mod listed_issue;
mod locator;
mod message_parts;
mod message_text;
mod naming;
mod order;
mod owned;
mod settings;
mod silenced;
mod statement;
mod stored;
mod stored_file;
mod stored_name;

pub use cursor::PositionCursor;
pub use facts::Facts;
pub use issue::{Issue, Message};
pub use issue_list::IssueList;
pub use listed_issue::ListedIssue;
pub use message_parts::MessageParts;
pub use naming::Naming;
pub use owned::owned_issues;
pub use rule_set::{Rule, RuleSet, Severity};
pub use settings::Settings;
pub use tf_facts::Hashing;
