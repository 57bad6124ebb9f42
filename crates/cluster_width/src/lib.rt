//! Laws on the widths of texts and of their grapheme clusters. The functions do nothing: their
//! clauses are the laws.
#![tactic(auto)]

ghost use Rattle.std.specs.Prelude.{ℕ};
ghost use Rattle.cluster_width.specs.ClusterSums.{ClustersBoundTheMeasure, FrontsBoundTheMeasure, FrontsOfClustersAreBounded, SomeFrontTakesTwoMore, Text};

/// The width of a text in terminal columns is at most the sum of the widths of its grapheme
/// clusters. The same holds for each prefix of the text that consists of whole clusters. The
/// condition is that U+FE01 is never directly next to U+FE0E or U+FE0F in the text.
pub fn clusters_bound_the_measure()
    ensures whole { (text : Text) → ClustersBoundTheMeasure text }
    ensures fronts { (text : Text) (n : ℕ) → FrontsBoundTheMeasure text n }
{}

/// A prefix of whole characters of a grapheme cluster is at most two terminal columns wider than
/// the cluster. It is exactly two wider if the cluster is a watch (U+231A), a zero width joiner, a
/// wavy dash (U+3030) and U+FE0F, and the prefix is the cluster without U+FE0F.
pub fn fronts_of_clusters_are_bounded()
    ensures most { (text : Text) → FrontsOfClustersAreBounded text }
    ensures least { SomeFrontTakesTwoMore }
{}
