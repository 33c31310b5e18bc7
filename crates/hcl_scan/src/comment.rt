//! Comments.

ghost use Rattle.std.specs.Prelude.{◌<◌, ℕ, IfSome, IfNone};
ghost use Rattle.hcl_tokens.specs.Spelling.{IsInlineComment};
ghost use Rattle.hcl_scan.specs.Inner.Found.{IsLongestFront, HasNoFront, EndsComment};

/// Where the first `*/` begins.
fn comment_end(seen: &[u8]) -> Option<usize>
    ensures found { IfSome result (EndsComment seen.now) }
    ensures first { IfSome result (λ n. (m : ℕ) → m < n → ¬ EndsComment seen.now m) }
    ensures none { IfNone result ((m : ℕ) → ¬ EndsComment seen.now m) }
{
    for i in 1..seen.len() {
        if seen[i - 1] == b'*' && seen[i] == b'/' {
            return Some(i - 1);
        }
    }
    None
}

/// How many bytes the comment at the front has, from `/*` through the first `*/` after it.
pub(crate) fn inline_comment_len(seen: &[u8]) -> Option<usize>
    ensures found { IfSome result (IsLongestFront IsInlineComment seen.now) }
    ensures none { IfNone result (HasNoFront IsInlineComment seen.now) }
{
    if !seen.starts_with(b"/*") {
        return None;
    }
    let (_, inner) = seen.split_at(2);
    match comment_end(inner) {
        Some(end) => Some(end + 4),
        None => None,
    }
}
