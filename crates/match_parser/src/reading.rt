//! Reading a query text.
ghost use Rattle.std.specs.Prelude.{◌≡◌, ◌⊎◌, IfOk, IfErr, MatchResult};
ghost use Rattle.itpg_base.specs.declared.text_code.TextCode.{TextCode};
ghost use Rattle.path_ast.specs.Terms.{QueryTerm, query_term};
ghost use Rattle.match_parser.specs.Reading.{Reads, FaultOf};
ghost use Rattle.match_parser.specs.Answers.{IsQueryFault};
ghost use Rattle.match_parser.specs.Views.{chain_view, query_made};

use crate::checks::later_fault;
use crate::fault::{QueryFault, Stop};
use crate::patterns::{Chain, read_whole};
use crate::scan::{collect, survey};
use itpg_base::{Name, TextCode};
use path_ast::Query;
use std::alloc::Global;

/// The query that a text stands for.
///
/// ```text
///     MATCH (x)-/FWD/:meets/FWD/-(y)
///
///     the path  Seq(Seq(pattern, Seq(Seq(FWD, Test(Label(meets))), FWD)), pattern)
///     where     pattern is Test(And(Node, Exists)), and FWD is Seq(F, Test(Exists))
///     both ends are asked for, and no graph is named
/// ```
///
/// The grammar and what each of its forms stands for is under `docs/REFERENCE.md`, "Query texts".
///
/// # Errors
///
/// `Bad` with the first fault of the text, in the order `Byte`, `Tokens`, `Deep`, `Text`, `Number`, `Name`, `Range`,
/// `Names`, `Terms`; `Long` never comes. `Memory` if memory runs out, and never else.
pub fn read_query(alloc: Global, text: &[u8]) -> Result<Query, QueryFault>
    ensures query { IfOk result (λ query. Reads text.now (query_term query)) }
    ensures fault { IfErr result (λ fault. IsQueryFault text.now fault) }
    ensures reads { (query : QueryTerm) → Reads text.now query → MatchResult result (λ found. query_term found ≡ query) (λ fault. fault ≡ QueryFault.Memory) }
    ensures first { (code : TextCode) → FaultOf text.now code → MatchResult result (λ _. ⊥) (λ fault. (fault ≡ QueryFault.Bad code) ⊎ (fault ≡ QueryFault.Memory)) }
{
    let count = match survey(text) {
        Ok(count) => count,
        Err(code) => return Err(QueryFault::Bad(code)),
    };
    let Ok(list) = collect(alloc, text, count) else {
        return Err(QueryFault::Memory);
    };
    let tokens = list.as_slice();
    match read_whole(alloc, tokens) {
        Ok((chain, graph_name)) => match later_fault(tokens, &chain) {
            Some(code) => Err(QueryFault::Bad(code)),
            None => Ok(make_query(chain, graph_name)),
        },
        Err(Stop::Text) => Err(QueryFault::Bad(TextCode::Text)),
        Err(Stop::Memory) => Err(QueryFault::Memory),
    }
}

// The query of a chain that has no fault.
fn make_query(chain: Chain, graph_name: Option<Name>) -> Query
    ensures { query_term result ≡ query_made (chain_view chain) graph_name }
{
    Query {
        first: chain.first.is_some(),
        last: chain.last.is_some(),
        path: chain.path,
        graph_name,
    }
}
