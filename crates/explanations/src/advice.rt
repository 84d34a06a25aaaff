//! What the codes of replies mean.

// The end of a reply's head, and when it comes.
const MEANINGS: [(&str, &str); 25] = [
    (
        " wide",
        "some member, or the reply itself, has more rows than the limit",
    ),
    (" bad long", "the line has more than 65,536 bytes"),
    (
        " bad byte",
        "a byte with which no token begins, or that may not stand in a quoted text",
    ),
    (" bad tokens", "more than 4,096 tokens"),
    (
        " bad deep",
        "more than 64 brackets stand open at some token",
    ),
    (
        " bad text",
        "the tokens are none of the forms, or a quoted text isn't closed",
    ),
    (" bad number", "a number below -10^12 or above 10^12"),
    (
        " bad name",
        "a name, label, property or value of more than 64 bytes",
    ),
    (" bad range", "n is above m in some [n,m]"),
    (
        " bad names",
        "the ends have no name where one is asked for, or one where none may be, or the same",
    ),
    (" bad terms", "the path has more than 1,024 terms"),
    (" refused nograph", "no graph was begun"),
    (" refused again", "a graph was begun already"),
    (
        " refused taken",
        "a standing object, watch, pin or follow has the name",
    ),
    (
        " refused unknown",
        "no standing object, watch, pin or follow has the name",
    ),
    (" refused kind", "an end of the new edge is an edge"),
    (" refused backwards", "the first moment is after the second"),
    (
        " refused horizon",
        "a moment of the span is outside the horizon",
    ),
    (
        " refused ends",
        "an end of the edge doesn't exist at some moment of the span",
    ),
    (
        " refused absent",
        "the object doesn't exist at some moment of the span",
    ),
    (
        " refused held",
        "an edge at the node exists at some moment of the span",
    ),
    (" refused incident", "the node is an end of a standing edge"),
    (
        " refused full",
        "a limit on objects, spans, properties, watches, pins or follows would be passed",
    ),
    (
        " refused graphname",
        "the query says ON with another name than the graph's",
    ),
    (
        " refused narrow",
        "a moment of the horizon is outside the new one",
    ),
];

/// When a reply with this head comes, if it is wide, bad or refused.
pub(crate) fn meaning(head: &[u8]) -> Option<&'static str> {
    if !head.starts_with(b"line ") {
        return None;
    }
    for (end, text) in &MEANINGS {
        if head.ends_with(end.as_bytes()) {
            return Some(text);
        }
    }
    None
}
