//! Remarks, each with its mark, which identifies it when lines move.

ghost use Rattle.std.specs.Prelude.{◌≡◌, ◌+◌, ◌++◌, ◌∷◌, [], IfOk, OnOk, map, string_bytes};
ghost use Rattle.sha2.specs.Sha256.{sha256};
ghost use Rattle.lint_forms.specs.Marks.{digits, entries, mark, mark_key};
ghost use Rattle.lint_forms.specs.Remarks.{said_by};
ghost use Rattle.lint_forms.specs.Inner.Numbering.{OnceMore, times_seen};
ghost use Rattle.lint_forms.specs.Inner.Shapes.{entry_by};

use crate::remark::Remark;
use crate::words::rule_id;
use sha2::{Digest, Sha256};
use std::alloc::{AllocError, Global};
use std::collections::BTreeMap;

/// A remark and its mark.
#[derive(Drop)]
pub(crate) struct MarkedRemark<'a> {
    pub said: Remark<'a>,
    pub mark: String,
}

/// How often a rule, file and text occurred together, by their digits.
type Times = BTreeMap<String, usize>;

fn digest_of(remark: Remark<'_>) -> [u8; 32]
    ensures { result ≡ sha256 (mark_key (said_by remark.entry)) }
{
    let mut hasher = Sha256::new();
    hasher.update(rule_id(remark.subject).as_bytes());
    hasher.update(b"\0".as_slice());
    hasher.update(remark.file.as_bytes());
    hasher.update(b"\0".as_slice());
    hasher.update(remark.text.as_bytes());
    hasher.finalize()
}

fn digits_of(alloc: Global, remark: Remark<'_>) -> Result<String, AllocError>
    ensures { IfOk result (λ text. string_bytes text ≡ digits (said_by remark.entry)) }
{
    hex::encode(alloc, digest_of(remark))
}

/// How often these digits occurred, including this time.
fn count(times: &mut Times, digits: String) -> Result<usize, AllocError>
    ensures number { IfOk result (λ n. n ≡ times_seen times.old (string_bytes digits) + 1) }
    ensures counted { OnOk result (OnceMore times.old times.new (string_bytes digits)) }
{
    let before = times.get(digits.as_str()).copied().unwrap_or(0);
    let Some(number) = before.checked_add(1) else {
        return Err(AllocError);
    };
    times.insert(digits, number)?;
    Ok(number)
}

fn mark_of(alloc: Global, digits: &str, number: usize) -> Result<String, AllocError>
    ensures { IfOk result (λ text. string_bytes text ≡ mark digits.now number) }
{
    format!(in alloc; "{}:{}", digits, number)
}

/// Appends a remark with its mark.
fn add<'a>(
    alloc: Global,
    remark: Remark<'a>,
    times: &mut Times,
    all: &mut Vec<MarkedRemark<'a>>,
) -> Result<(), AllocError>
    ensures counted { OnOk result (OnceMore times.old times.new (digits (said_by remark.entry))) }
    ensures added { OnOk result (map entry_by all.new.items ≡ map entry_by all.old.items
        ++ record {
          said = said_by remark.entry;
          mark = mark (digits (said_by remark.entry))
              (times_seen times.old (digits (said_by remark.entry)) + 1);
        } ∷ []) }
{
    let digits = digits_of(alloc, remark)?;
    let own = digits.clone()?;
    let number = count(times, own)?;
    let mark = mark_of(alloc, digits.as_str(), number)?;
    match all.push(MarkedRemark { said: remark, mark }) {
        Ok(()) => Ok(()),
        Err(_) => Err(AllocError),
    }
}

/// These remarks, each with its mark.
pub(crate) fn entries_of<'a>(
    alloc: Global,
    remarks: &[Remark<'a>],
) -> Result<Vec<MarkedRemark<'a>>, AllocError>
    ensures { IfOk result (λ all. map entry_by all.items ≡ entries (map said_by remarks.now)) }
{
    let mut times = BTreeMap::new(alloc);
    let mut all = Vec::new(alloc);
    for remark in remarks {
        add(alloc, *remark, &mut times, &mut all)?;
    }
    Ok(all)
}
