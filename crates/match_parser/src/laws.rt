//! The laws of query texts. Each is the contract of a function that does nothing of use when it runs.
ghost use Rattle.std.specs.Prelude.{◌≡◌, ◌⊎◌, ◌≤◌, ◌||◌, ℕ, List, IsTrue};
ghost use Rattle.itpg_base.specs.declared.text_code.TextCode.{TextCode};
ghost use Rattle.path_ast.specs.Terms.{QueryTerm};
ghost use Rattle.path_ast.specs.Sizes.{path_size, IsPathInRange};
ghost use Rattle.match_parser.specs.Reading.{Reads, FaultOf};
ghost use Rattle.path_ast.specs.declared.counts.TheConstants.{MAX_TERMS};

use script_lex::law_of_tokens;

/// A text reads as at most one query, and as one exactly if it has no fault; and it has at most one first fault.
pub fn law_of_queries()
    ensures one { (text : List ℕ) (p q : QueryTerm) → Reads text p → Reads text q → p ≡ q }
    ensures first { (text : List ℕ) (c d : TextCode) → FaultOf text c → FaultOf text d → c ≡ d }
    ensures apart { (text : List ℕ) (q : QueryTerm) (c : TextCode) → Reads text q → FaultOf text c → ⊥ }
    ensures some { (text : List ℕ) → ((q : QueryTerm) × Reads text q) ⊎ ((c : TextCode) × FaultOf text c) }
{
    law_of_tokens();
}

/// What a text reads as is in range, has at most `MAX_TERMS` terms, and asks for an end of its path or for both.
pub fn law_of_read_queries()
    ensures range { (text : List ℕ) (q : QueryTerm) → Reads text q → IsPathInRange q.path }
    ensures terms { (text : List ℕ) (q : QueryTerm) → Reads text q → path_size q.path ≤ MAX_TERMS }
    ensures ends { (text : List ℕ) (q : QueryTerm) → Reads text q → IsTrue (q.first || q.last) }
{}
