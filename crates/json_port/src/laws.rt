//! The laws of JSON lines. Each is a clause of a function that does nothing.
ghost use Rattle.std.specs.Prelude.{◌≡◌, ◌<◌, ◌≤◌, ◌∷◌, [], ◌↔◌, List, ℕ, pos, neg_ℤ, codes, Result, Ok, Err, length, take};
ghost use Rattle.itpg_base.specs.declared.text_code.TextCode.{TextCode};
ghost use Rattle.itpg_edit.specs.declared.edit.Edit.{Edit};
ghost use Rattle.itpg_edit.specs.declared.edit.Edit.TheVariants as edits;
ghost use Rattle.itpg_edit.specs.Sites.{HasMoments, HasLabels};
ghost use Rattle.edit_reader.specs.declared.reading.TheConstants.{MAX_LINE};
ghost use Rattle.edit_reader.specs.Faults.{without_end};
ghost use Rattle.edit_reader.specs.Names.{HasNewWord};
ghost use Rattle.json_port.specs.declared.line.JsonLine.{JsonLine};
ghost use Rattle.json_port.specs.Lines.{JsonOf};

/// Each line is exactly one thing: it asks for something, or has a first fault. The edit that one asks for has moments and sets
/// of labels, and the name that it gives a graph or an object is a word.
pub fn law_of_json_lines()
    ensures some { (line : List ℕ) → (result : Result JsonLine TextCode) × JsonOf line result }
    ensures one { (line : List ℕ) (a b : Result JsonLine TextCode) → JsonOf line a → JsonOf line b → a ≡ b }
    ensures moments { (line : List ℕ) (edit : Edit) → JsonOf line (Ok (JsonLine.Edit edit)) → HasMoments edit }
    ensures labels { (line : List ℕ) (edit : Edit) → JsonOf line (Ok (JsonLine.Edit edit)) → HasLabels edit }
    ensures words { (line : List ℕ) (edit : Edit) → JsonOf line (Ok (JsonLine.Edit edit)) → HasNewWord edit }
{}

/// A line is what its first 65,538 bytes are, or any longer front: of a longer line no more need be kept.
pub fn law_of_long_json_lines()
    ensures { (line : List ℕ) (n : ℕ) (result : Result JsonLine TextCode) → 65538 ≤ n → JsonOf (take n line) result ↔ JsonOf line result }
{}

/// What lines ask for, each worked out by hand from the table of objects. Of members with one name the last holds, also if a
/// replaced one is none that the object may have. The codes of a plain line aren't looked at here.
pub fn law_of_objects()
    ensures blank { JsonOf (codes " \t\r") (Ok JsonLine.Blank) }
    ensures graph { JsonOf (codes "{\"op\":\"graph\",\"name\":\"g\",\"lo\":-3,\"hi\":20}")
        (Ok (JsonLine.Edit (edits.Begin (codes "g") (neg_ℤ (pos 3)) (pos 20)))) }
    ensures extend { JsonOf (codes "{\"op\":\"extend\",\"lo\":-3,\"hi\":20}") (Ok (JsonLine.Edit (edits.Extend (neg_ℤ (pos 3)) (pos 20)))) }
    ensures node { JsonOf (codes "{\"op\":\"node\",\"id\":\"a\",\"labels\":[\"T\",\"S\",\"T\"]}")
        (Ok (JsonLine.Edit (edits.AddNode (codes "a") (codes "S" ∷ codes "T" ∷ [])))) }
    ensures edge { JsonOf (codes "{\"op\":\"edge\",\"id\":\"e\",\"labels\":[\"T\"],\"source\":\"a\",\"target\":\"b\"}")
        (Ok (JsonLine.Edit (edits.AddEdge (codes "e") (codes "T" ∷ []) (codes "a") (codes "b")))) }
    ensures eight_labels { JsonOf (codes "{\"op\":\"node\",\"id\":\"a\",\"labels\":[\"T\",\"T\",\"T\",\"T\",\"T\",\"T\",\"T\",\"T\"]}")
        (Ok (JsonLine.Edit (edits.AddNode (codes "a") (codes "T" ∷ [])))) }
    ensures live { JsonOf (codes "{\"op\":\"live\",\"id\":\"a\",\"from\":0,\"to\":20}")
        (Ok (JsonLine.Edit (edits.Live (codes "a") (pos 0) (pos 20)))) }
    ensures gone_in_any_order { JsonOf (codes " {\"to\":20 ,\"id\":\"a\",\r\"from\":-3,\"op\":\"gone\"}\r")
        (Ok (JsonLine.Edit (edits.Gone (codes "a") (neg_ℤ (pos 3)) (pos 20)))) }
    ensures set { JsonOf (codes "{\"op\":\"set\",\"id\":\"a\",\"prop\":\"p\",\"value\":\"in use\",\"from\":0,\"to\":20}")
        (Ok (JsonLine.Edit (edits.Put (codes "a") (codes "p") (codes "in use") (pos 0) (pos 20)))) }
    ensures unset { JsonOf (codes "{\"op\":\"unset\",\"id\":\"a\",\"prop\":\"p\",\"from\":0,\"to\":20}")
        (Ok (JsonLine.Edit (edits.Clear (codes "a") (codes "p") (pos 0) (pos 20)))) }
    ensures escape { JsonOf (codes "{\"op\":\"drop\",\"id\":\"\\u0061\"}") (Ok (JsonLine.Edit (edits.Remove (codes "a")))) }
    ensures last_holds { JsonOf (codes "{\"op\":\"drop\",\"id\":\"a\",\"id\":\"b\"}") (Ok (JsonLine.Edit (edits.Remove (codes "b")))) }
    ensures replaced_is_no_name { JsonOf (codes "{\"op\":\"drop\",\"id\":7,\"id\":\"b\"}") (Ok (JsonLine.Edit (edits.Remove (codes "b")))) }
    ensures text { JsonOf (codes "{\"op\":\"text\",\"line\":\"show w\\r\"}") (Ok (JsonLine.Text (codes "show w\r"))) }
    ensures text_of_a_bad_line { JsonOf (codes "{\"op\":\"text\",\"line\":\"live a\"}") (Ok (JsonLine.Text (codes "live a"))) }
{}

/// What asks for nothing, each worked out by hand. A number beyond all floats leaves the line without a value, also if it is
/// replaced; a whole number is written as one and isn't `-0`; equal labels are counted each; and there are no comments.
pub fn law_of_refusals()
    ensures replaced_has_no_value { JsonOf (codes "{\"op\":\"drop\",\"id\":1e999,\"id\":\"b\"}") (Err TextCode.Text) }
    ensures last_is_no_name { JsonOf (codes "{\"op\":\"drop\",\"id\":\"b\",\"id\":7}") (Err TextCode.Text) }
    ensures too_great { JsonOf (codes "{\"op\":\"live\",\"id\":\"a\",\"from\":0,\"to\":9223372036854775808}") (Err TextCode.Text) }
    ensures point { JsonOf (codes "{\"op\":\"live\",\"id\":\"a\",\"from\":0,\"to\":1.0}") (Err TextCode.Text) }
    ensures exponent { JsonOf (codes "{\"op\":\"live\",\"id\":\"a\",\"from\":0,\"to\":1e1}") (Err TextCode.Text) }
    ensures zero_below_zero { JsonOf (codes "{\"op\":\"live\",\"id\":\"a\",\"from\":-0,\"to\":1}") (Err TextCode.Text) }
    ensures leading_zero { JsonOf (codes "{\"op\":\"live\",\"id\":\"a\",\"from\":01,\"to\":1}") (Err TextCode.Text) }
    ensures number_in_a_text { JsonOf (codes "{\"op\":\"live\",\"id\":\"a\",\"from\":0,\"to\":\"1\"}") (Err TextCode.Text) }
    ensures missing { JsonOf (codes "{\"op\":\"live\",\"id\":\"a\"}") (Err TextCode.Text) }
    ensures one_more { JsonOf (codes "{\"op\":\"drop\",\"id\":\"a\",\"why\":null}") (Err TextCode.Text) }
    ensures unknown_op { JsonOf (codes "{\"op\":\"Drop\",\"id\":\"a\"}") (Err TextCode.Text) }
    ensures no_word { JsonOf (codes "{\"op\":\"drop\",\"id\":\"1a\"}") (Err TextCode.Text) }
    ensures two_words { JsonOf (codes "{\"op\":\"drop\",\"id\":\"a b\"}") (Err TextCode.Text) }
    ensures empty_name { JsonOf (codes "{\"op\":\"drop\",\"id\":\"\"}") (Err TextCode.Text) }
    ensures quote_in_a_value { JsonOf (codes "{\"op\":\"set\",\"id\":\"a\",\"prop\":\"p\",\"value\":\"it's\",\"from\":0,\"to\":1}")
        (Err TextCode.Text) }
    ensures no_label { JsonOf (codes "{\"op\":\"node\",\"id\":\"a\",\"labels\":[]}") (Err TextCode.Text) }
    ensures nine_labels { JsonOf (codes "{\"op\":\"node\",\"id\":\"a\",\"labels\":[\"T\",\"T\",\"T\",\"T\",\"T\",\"T\",\"T\",\"T\",\"T\"]}")
        (Err TextCode.Text) }
    ensures label_in_no_array { JsonOf (codes "{\"op\":\"node\",\"id\":\"a\",\"labels\":\"T\"}") (Err TextCode.Text) }
    ensures label_of_no_word { JsonOf (codes "{\"op\":\"node\",\"id\":\"a\",\"labels\":[\"T\",\"\"]}") (Err TextCode.Text) }
    ensures surrogate { JsonOf (codes "{\"op\":\"text\",\"line\":\"\\ud800\"}") (Err TextCode.Text) }
    ensures text_behind { JsonOf (codes "{\"op\":\"drop\",\"id\":\"a\"} {}") (Err TextCode.Text) }
    ensures no_object { JsonOf (codes "[\"op\"]") (Err TextCode.Text) }
    ensures comment { JsonOf (codes "# a comment") (Err TextCode.Text) }
{}

/// Faults in their order, each worked out by hand: too long, no object, a number that is no moment, a name that is too long.
pub fn law_of_codes()
    ensures greatest { JsonOf (codes "{\"op\":\"extend\",\"lo\":0,\"hi\":1000000000000}")
        (Ok (JsonLine.Edit (edits.Extend (pos 0) (pos 1000000000000)))) }
    ensures far { JsonOf (codes "{\"op\":\"live\",\"id\":\"a\",\"from\":0,\"to\":1000000000001}") (Err TextCode.Number) }
    ensures far_below_zero { JsonOf (codes "{\"op\":\"extend\",\"lo\":-1000000000001,\"hi\":0}") (Err TextCode.Number) }
    ensures farthest { JsonOf (codes "{\"op\":\"extend\",\"lo\":0,\"hi\":9223372036854775807}") (Err TextCode.Number) }
    ensures long_name { JsonOf (codes "{\"op\":\"drop\",\"id\":\"aaaaaaaaaaaaaaaaaaaaaaaaaaaaaaaaaaaaaaaaaaaaaaaaaaaaaaaaaaaaaaaaa\"}")
        (Err TextCode.Name) }
    ensures long_label { JsonOf (codes "{\"op\":\"node\",\"id\":\"a\",\"labels\":[\"aaaaaaaaaaaaaaaaaaaaaaaaaaaaaaaaaaaaaaaaaaaaaaaaaaaaaaaaaaaaaaaaa\"]}")
        (Err TextCode.Name) }
    ensures long_value { JsonOf (codes "{\"op\":\"set\",\"id\":\"a\",\"prop\":\"p\",\"value\":\"aaaaaaaaaaaaaaaaaaaaaaaaaaaaaaaaaaaaaaaaaaaaaaaaaaaaaaaaaaaaaaaaa\",\"from\":0,\"to\":20}")
        (Err TextCode.Name) }
    ensures number_before_name { JsonOf (codes "{\"op\":\"live\",\"id\":\"aaaaaaaaaaaaaaaaaaaaaaaaaaaaaaaaaaaaaaaaaaaaaaaaaaaaaaaaaaaaaaaaa\",\"from\":0,\"to\":1000000000001}")
        (Err TextCode.Number) }
    ensures text_before_number { JsonOf (codes "{\"op\":\"live\",\"id\":\"1a\",\"from\":0,\"to\":1000000000001}") (Err TextCode.Text) }
    ensures long { (line : List ℕ) → MAX_LINE < length (without_end line) → JsonOf line (Err TextCode.Long) }
{}
