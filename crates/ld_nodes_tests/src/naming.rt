use crate::flattening::{Row, all_flatten};

const ROWS: [Row; 6] = [
    // in order of first meeting, types before the identifier of their node
    (
        r#"[{"@id":"_:x","@type":["_:y","http://e/T"],"http://e/p":[{"@id":"_:a"}]},{"@id":"_:y","http://e/p":[{"@value":1}]}]"#,
        r#"[{"@id":"_:b0","http://e/p":[{"@value":1}]},{"@id":"_:b1","@type":["_:b0","http://e/T"],"http://e/p":[{"@id":"_:b2"}]}]"#,
    ),
    // a node without an identifier gets the next one
    (
        r#"[{"@id":"_:z","http://e/p":[{"http://e/q":[]},{"@id":"_:z"},{"http://e/q":[]}]}]"#,
        r#"[{"@id":"_:b0","http://e/p":[{"@id":"_:b1"},{"@id":"_:b0"},{"@id":"_:b2"}]},{"@id":"_:b1","http://e/q":[]},{"@id":"_:b2","http://e/q":[]}]"#,
    ),
    // names of properties
    (
        r#"[{"@id":"http://e/a","_:p":[{"@id":"_:p"}],"_:q":[]}]"#,
        r#"[{"@id":"http://e/a","_:b0":[{"@id":"_:b0"}],"_:b1":[]}]"#,
    ),
    // names of reverse properties
    (
        r#"[{"@id":"http://e/a","@reverse":{"_:p":[{"@id":"_:b"}]}}]"#,
        r#"[{"@id":"_:b1","_:b0":[{"@id":"http://e/a"}]}]"#,
    ),
    // types of values
    (
        r#"[{"@id":"http://e/a","http://e/p":[{"@type":"_:t","@value":"x"},{"@id":"_:t"}]}]"#,
        r#"[{"@id":"http://e/a","http://e/p":[{"@type":"_:b0","@value":"x"},{"@id":"_:b0"}]}]"#,
    ),
    // types where they are not there yet, and none of none
    (
        r#"[{"@id":"http://e/a","@type":["http://e/U","http://e/T","http://e/U"]},{"@id":"http://e/a","@type":["http://e/T"]},{"@id":"http://e/b","@type":[]}]"#,
        r#"[{"@id":"http://e/a","@type":["http://e/U","http://e/T"]}]"#,
    ),
];

#[test]
fn blank_nodes_in_order_of_first_meeting(rt: HostRuntime) {
    all_flatten(&rt, rt.alloc(), &ROWS);
}
