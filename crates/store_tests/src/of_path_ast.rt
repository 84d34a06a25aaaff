//! A query text that was read, and its copy, with their printed form by hand from the table of translations.
use match_parser::read_query;

const FORM: &str =
    "Query { first: true, last: true, path: Seq(Seq(Test(And(Leaf(Node), Leaf(Exists))), \
    Seq(Seq(Seq(F, Test(Leaf(Exists))), Test(Leaf(Label(Name([109, 101, 101, 116, 115]))))), Seq(F, Test(Leaf(Exists))))), \
    Test(And(Leaf(Node), Leaf(Exists)))), graph_name: None }";

#[test]
fn a_query_is_copied(rt: HostRuntime) {
    let text = b"MATCH (x)-/FWD/:meets/FWD/-(y)";
    let query = read_query(rt.alloc(), text).ok().expect(&rt, "a query");
    let copy = query.copy(rt.alloc()).expect(&rt, "memory");
    let form = format!(in rt.alloc(); "{copy:?}").expect(&rt, "memory");
    assert!(rt; form.as_str() == FORM);
}
