//! Printed forms, written by hand. Each is a clause of a function that does nothing.
ghost use Rattle.std.specs.Prelude.{◌≡◌, [], ◌∷◌, pos, neg_ℤ, codes, Some, None};
ghost use Rattle.band_normal.specs.declared.band.End.TheVariants.{Fixed, Moving};
ghost use Rattle.relation_rows.specs.Answered.{pairs, times};
ghost use Rattle.row_printer.specs.Texts.{span_text, end_text, ends_text, answer_text, counts_text, json_text, json_counts_text};
ghost use Rattle.row_printer.specs.JsonTexts.{plus, minus};
ghost use Rattle.row_printer.specs.Examples.{two_nodes, a_for_a_while, b_for_a_while, a_to_b, b_to_a, one_at_first, twelve_then};

/// How moments and ends of bands are printed.
#[tactic(auto, unfolding(crate::specs::Texts::span_text, crate::specs::Texts::end_text, crate::specs::Texts::ends_text, crate::specs::Texts::moving_text))]
pub fn law_of_forms()
    ensures span { span_text (pos 0) (pos 20) ≡ codes "0..20" }
    ensures below_zero { span_text (neg_ℤ (pos 4)) (neg_ℤ (pos 2)) ≡ codes "-4..-2" }
    ensures stays { end_text (Fixed (pos 20)) ≡ codes "20" }
    ensures at_departure { end_text (Moving (pos 0)) ≡ codes "t" }
    ensures later { end_text (Moving (pos 12)) ≡ codes "t+12" }
    ensures before { end_text (Moving (neg_ℤ (pos 2))) ≡ codes "t-2" }
    ensures ends { ends_text (Moving (pos 0)) (Fixed (pos 20)) ≡ codes "t..20" }
{}

/// How answers are printed: a line for each row, in order, each after its lead, and a dropped object by its name.
pub fn law_of_lines()
    ensures one_time { answer_text two_nodes (codes "+ ") (times (a_for_a_while ∷ b_for_a_while ∷ [])) ≡ codes "+ a 0..20\n+ b 5..30\n" }
    ensures two_times { answer_text two_nodes [] (pairs (a_to_b ∷ b_to_a ∷ [])) ≡ codes "a 0..8 b t..t+12\nb -4..-2 a t-2..20\n" }
    ensures none { answer_text two_nodes (codes "- ") (pairs []) ≡ [] }
{}

/// How counts are printed: a line for each row, in order.
pub fn law_of_counts()
    ensures some { counts_text (one_at_first ∷ twelve_then ∷ []) ≡ codes "-4..4 1\n5..20 12\n" }
    ensures none { counts_text [] ≡ [] }
{}

/// How answers and counts are printed as JSON: an object for each row, in order, with the sign first, if there is one.
pub fn law_of_json_lines()
    ensures one_time { json_text two_nodes None (times (a_for_a_while ∷ b_for_a_while ∷ []))
        ≡ codes "{\"id\":\"a\",\"from\":0,\"to\":20}\n{\"id\":\"b\",\"from\":5,\"to\":30}\n" }
    ensures gained { json_text two_nodes (Some plus) (pairs (a_to_b ∷ []))
        ≡ codes "{\"sign\":\"+\",\"id\":\"a\",\"from\":0,\"to\":8,\"target\":\"b\",\"low\":{\"moving\":0},\"high\":{\"moving\":12}}\n" }
    ensures lost { json_text two_nodes (Some minus) (pairs (b_to_a ∷ []))
        ≡ codes "{\"sign\":\"-\",\"id\":\"b\",\"from\":-4,\"to\":-2,\"target\":\"a\",\"low\":{\"moving\":-2},\"high\":{\"fixed\":20}}\n" }
    ensures counts { json_counts_text (one_at_first ∷ twelve_then ∷ [])
        ≡ codes "{\"from\":-4,\"to\":4,\"count\":1}\n{\"from\":5,\"to\":20,\"count\":12}\n" }
    ensures none { json_text two_nodes (Some minus) (pairs []) ≡ [] }
{}
