//! The head of a text for a number of terminal columns: the longest prefix of whole grapheme
//! clusters that fits.

ghost use Rattle.std.specs.Prelude.{◌≡◌, ◌++◌, IfSome, IsUtf8, None, length};
ghost use Rattle.comfy_parts.specs.Following.{EndsHead, IsFirstWide};
ghost use Rattle.comfy_parts.specs.Text.{Text, head};

use crate::content_split::bytes::is_printable;
use unicode_segmentation::UnicodeSegmentation;
use unicode_width::UnicodeWidthStr;

// Each prefix that is tried is this many times as long as the one before it. So all prefixes that
// don't show the end of the head have together at most a third of the word's bytes.
const GROWTH: usize = 4;

/// Returns the head of a word and the rest of the word, in this order. The head is the longest
/// prefix of whole grapheme clusters whose widths add up to at most `allowed_width` terminal
/// columns. The call takes no memory.
pub fn split_long_word(allowed_width: usize, word: &str) -> (&str, &str)
    ensures head { result.0.now ≡ head allowed_width word.now }
    ensures rest { result.0.now ++ result.1.now ≡ word.now }
{
    // A printable ASCII character that follows another one begins a grapheme cluster of its own. So
    // the second byte after the head shows that nothing joins the first byte after it.
    let looked_at = allowed_width.saturating_add(2).min(word.len());
    if is_printable(&word.as_bytes()[..looked_at]) {
        return word.split_at(allowed_width.min(word.len()));
    }
    if let Some(end) = end_by_front(word, allowed_width) {
        return word.split_at(end);
    }
    word.split_at(end_by_clusters(word, allowed_width))
}

// The end of a word's head, found by measuring the word's grapheme clusters up to that end.
fn end_by_clusters(word: &str, columns: usize) -> usize
    ensures { EndsHead columns word.now result }
{
    match first_wide_cluster(word, columns) {
        Some(wide) => wide.at,
        None => word.len(),
    }
}

// The end of a word's head, if a prefix of the word shows it. A grapheme cluster may be long, and
// isn't read further than is needed to see that it is too wide.
fn end_by_front(word: &str, columns: usize) -> Option<usize>
    ensures { IfSome result (λ end. EndsHead columns word.now end) }
{
    // A prefix shows that its last cluster is too wide if the prefix measures three terminal
    // columns more. Conjuncts have up to six bytes for a terminal column.
    let mut size = columns.saturating_add(3).saturating_mul(6);
    while size <= word.len() / GROWTH {
        let (front, _) = word.split_at(word.floor_char_boundary(size));
        if let Some(end) = shown_end(front, columns) {
            return Some(end);
        }
        size *= GROWTH;
    }
    None
}

// The end of the head of every text with this prefix, if the prefix shows it.
fn shown_end(front: &str, columns: usize) -> Option<usize>
    ensures { IfSome result (λ end. (rest : Text) → IsUtf8 rest
        → EndsHead columns (front.now ++ rest) end) }
{
    let wide = first_wide_cluster(front, columns)?;
    // The last cluster may continue after the prefix. The whole cluster then measures at most two
    // terminal columns less than its part in the prefix.
    let goes_on = wide.len == front.len() - wide.at;
    if goes_on && wide.beyond <= 2 {
        None
    } else {
        Some(wide.at)
    }
}

// A grapheme cluster that is wider than the terminal columns that are left for it.
#[derive(Clone, Copy)]
struct WideCluster {
    // the position of the cluster's first byte in the text
    at: usize,
    // the length of the cluster in bytes
    len: usize,
    // the number of terminal columns by which the cluster is too wide
    beyond: usize,
}

// The first cluster that has no room in `columns` terminal columns after the clusters before it.
// `None` if all clusters have room.
fn first_wide_cluster(text: &str, columns: usize) -> Option<WideCluster>
    ensures some { IfSome result (λ wide.
        IsFirstWide columns text.now wide.at wide.len wide.beyond) }
    ensures none { result ≡ None → EndsHead columns text.now (length text.now) }
{
    let mut left = columns;
    // Texts of printable ASCII don't come here, so a test of each cluster for printable ASCII isn't
    // worthwhile.
    for (at, cluster) in text.grapheme_indices(true) {
        let width = cluster.width();
        if width > left {
            let (len, beyond) = (cluster.len(), width - left);
            return Some(WideCluster { at, len, beyond });
        }
        left -= width;
    }
    None
}
