//! The laws of replies. Each is a clause of a function that does nothing.
ghost use Rattle.std.specs.Prelude.{◌≡◌, ◌<◌, ◌^◌, ◌++◌, [], ◌∷◌, ℕ, pos, true, Option, Some, IfSome, codes};
ghost use Rattle.itpg_base.specs.Words.{Word};
ghost use Rattle.itpg_base.specs.Graphs.{Graph, name_at};
ghost use Rattle.itpg_base.specs.Rules.{rule_word};
ghost use Rattle.itpg_base.specs.TextCodes.{text_word};
ghost use Rattle.itpg_base.specs.declared.rule_code.RuleCode.{RuleCode};
ghost use Rattle.itpg_base.specs.declared.text_code.TextCode.{TextCode};
ghost use Rattle.relation_rows.specs.declared.rows.Row.{Row};
ghost use Rattle.relation_rows.specs.declared.times.OneRow.{OneRow};
ghost use Rattle.relation_rows.specs.Answered.{times, pairs};
ghost use Rattle.arrivals.specs.declared.counts.CountRow.{CountRow};
ghost use Rattle.row_printer.specs.declared.form.Form.TheVariants.{Plain, Json};
ghost use Rattle.row_printer.specs.JsonTexts.{IsSign, json_lead, json_time, json_pair, json_count};
ghost use Rattle.row_printer.specs.Examples.{two_nodes, a_for_a_while, b_for_a_while, a_to_b, one_at_first, twelve_then};
ghost use Rattle.serde_json.specs.Data.{object, string, boolean, member, no_members};
ghost use Rattle.serde_json.specs.Read.{read};
ghost use Rattle.serde_json.specs.Written.{compact_text};
ghost use Rattle.reply_text.specs.Texts.{refused_text, bad_text, wide_text, head_text, counts_head_text, tick_wide_text, tick_head_text, rows_text, counted_text, changes_text};
ghost use Rattle.reply_text.specs.Values.{HasWordBytes, whole, line_members, tick_members, change_members, IsSmall, IsSmallEnd, time_members, pair_members, count_members, kept};

/// Replies of lines of words, each written out by hand.
pub fn law_of_plain_lines()
    ensures refused { refused_text Plain 6 RuleCode.Unknown ≡ codes "line 6 refused unknown\n" }
    ensures bad { bad_text Plain 5 TextCode.Text ≡ codes "line 5 bad text\n" }
    ensures wide { wide_text Plain 12 ≡ codes "line 12 wide\n" }
    ensures rows { rows_text Plain two_nodes 4 (pairs (a_to_b ∷ [])) ≡ codes "line 4 rows 1\na 0..8 b t..t+12\n" }
    ensures counts { counted_text Plain 8 (one_at_first ∷ twelve_then ∷ []) ≡ codes "line 8 counts 2\n-4..4 1\n5..20 12\n" }
    ensures tick_wide { tick_wide_text Plain (codes "w") ≡ codes "tick w wide\n" }
    ensures changes { changes_text Plain two_nodes (codes "w") (times (a_for_a_while ∷ [])) (times (b_for_a_while ∷ []))
        ≡ codes "tick w gained 1 lost 1\n+ a 0..20\n- b 5..30\n" }
{}

/// The same replies of lines of JSON.
pub fn law_of_json_lines()
    ensures refused { refused_text Json 6 RuleCode.Unknown ≡ codes "{\"line\":6,\"refused\":\"unknown\"}\n" }
    ensures bad { bad_text Json 5 TextCode.Text ≡ codes "{\"line\":5,\"bad\":\"text\"}\n" }
    ensures wide { wide_text Json 12 ≡ codes "{\"line\":12,\"wide\":true}\n" }
    ensures rows { rows_text Json two_nodes 4 (pairs (a_to_b ∷ []))
        ≡ codes "{\"line\":4,\"rows\":1}\n{\"id\":\"a\",\"from\":0,\"to\":8,\"target\":\"b\",\"low\":{\"moving\":0},\"high\":{\"moving\":12}}\n" }
    ensures counts { counted_text Json 8 (one_at_first ∷ twelve_then ∷ [])
        ≡ codes "{\"line\":8,\"counts\":2}\n{\"from\":-4,\"to\":4,\"count\":1}\n{\"from\":5,\"to\":20,\"count\":12}\n" }
    ensures tick_wide { tick_wide_text Json (codes "w") ≡ codes "{\"tick\":\"w\",\"wide\":true}\n" }
    ensures changes { changes_text Json two_nodes (codes "w") (times (a_for_a_while ∷ [])) (times (b_for_a_while ∷ []))
        ≡ codes "{\"tick\":\"w\",\"gained\":1,\"lost\":1}\n{\"sign\":\"+\",\"id\":\"a\",\"from\":0,\"to\":20}\n{\"sign\":\"-\",\"id\":\"b\",\"from\":5,\"to\":30}\n" }
{}

/// The JSON of the first line of a reply is what serde_json writes for its members, and no byte of it needs an escape, if the name of
/// a watch is a word.
pub fn law_of_json_heads()
    ensures refused { (n : ℕ) (rule : RuleCode) → refused_text Json n rule ≡ compact_text (object (line_members n (codes "refused") (string (rule_word rule)))) ++ codes "\n" }
    ensures bad { (n : ℕ) (code : TextCode) → bad_text Json n code ≡ compact_text (object (line_members n (codes "bad") (string (text_word code)))) ++ codes "\n" }
    ensures wide { (n : ℕ) → wide_text Json n ≡ compact_text (object (line_members n (codes "wide") (boolean true))) ++ codes "\n" }
    ensures rows { (n count : ℕ) → head_text Json n count ≡ compact_text (object (line_members n (codes "rows") (whole (pos count)))) ++ codes "\n" }
    ensures counts { (n count : ℕ) → counts_head_text Json n count ≡ compact_text (object (line_members n (codes "counts") (whole (pos count)))) ++ codes "\n" }
    ensures tick_wide { (name : Word) → HasWordBytes name
        → tick_wide_text Json name ≡ compact_text (object (tick_members name (member (codes "wide") (boolean true) no_members))) ++ codes "\n" }
    ensures tick { (name : Word) (gained lost : ℕ) → HasWordBytes name
        → tick_head_text Json name gained lost ≡ compact_text (object (tick_members name (change_members gained lost))) ++ codes "\n" }
{}

/// The JSON of a row is what serde_json writes for the row's members, and no byte of it needs an escape, if its names are words.
pub fn law_of_json_rows()
    ensures times { (g : Graph) (sign : Option ℕ) (r : OneRow) → IfSome sign IsSign → HasWordBytes (name_at g r.object.0)
        → json_lead sign ++ json_time g r ≡ compact_text (object (time_members g sign r)) ++ codes "\n" }
    ensures pairs { (g : Graph) (sign : Option ℕ) (r : Row) → IfSome sign IsSign → HasWordBytes (name_at g r.source.0) → HasWordBytes (name_at g r.target.0)
        → json_lead sign ++ json_pair g r ≡ compact_text (object (pair_members g sign r)) ++ codes "\n" }
    ensures counts { (r : CountRow) → json_count r ≡ compact_text (object (count_members r)) ++ codes "\n" }
{}

/// serde_json reads this text as the row's members, each as it was. Numbers have 64 bits, as all moments and distances have.
pub fn law_of_read_rows()
    ensures times { (g : Graph) (sign : Option ℕ) (r : OneRow) → IsSmall r.span.from → IsSmall r.span.to
        → read (compact_text (object (time_members g sign r))) ≡ Some (object (kept (time_members g sign r))) }
    ensures pairs { (g : Graph) (sign : Option ℕ) (r : Row) → IsSmall r.band.from → IsSmall r.band.to → IsSmallEnd r.band.low → IsSmallEnd r.band.high
        → read (compact_text (object (pair_members g sign r))) ≡ Some (object (kept (pair_members g sign r))) }
    ensures counts { (r : CountRow) → IsSmall r.span.from → IsSmall r.span.to → r.number < 2 ^ 32
        → read (compact_text (object (count_members r))) ≡ Some (object (kept (count_members r))) }
{}
