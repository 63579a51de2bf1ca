use crate::making::{NO_CONTAINERS, and, empty, none, one, text, two, with};
use ld_ctx::Containers;
use ld_expand_value::index_item;

#[test]
fn adds_the_key_of_an_index_map(rt: HostRuntime) {
    let alloc = rt.alloc();
    let containers = Containers {
        index: true,
        ..NO_CONTAINERS
    };
    let item = one(&rt, alloc, "@value", "x");
    let item = index_item(alloc, item, "k", Some("http://e/k"), &containers).expect(&rt, "memory");
    assert!(rt; item == two(&rt, alloc, "@index", "k", "@value", "x"));
    let item = one(&rt, alloc, "@value", "x");
    let item = index_item(alloc, item, "@none", Some("@none"), &containers).expect(&rt, "memory");
    assert!(rt; item == one(&rt, alloc, "@value", "x"));
    let item = two(&rt, alloc, "@index", "i", "@value", "x");
    let item = index_item(alloc, item, "k", None, &containers).expect(&rt, "memory");
    assert!(rt; item == two(&rt, alloc, "@index", "i", "@value", "x"));
}

#[test]
fn puts_the_key_of_a_type_map_first(rt: HostRuntime) {
    let alloc = rt.alloc();
    let containers = Containers {
        types: true,
        ..NO_CONTAINERS
    };
    let types = and(&rt, none(alloc), text(&rt, alloc, "http://e/A"));
    let item = with(&rt, alloc, empty(alloc), "@type", types);
    let item = index_item(alloc, item, "T", Some("http://e/T"), &containers).expect(&rt, "memory");
    let types = and(&rt, none(alloc), text(&rt, alloc, "http://e/T"));
    let types = and(&rt, types, text(&rt, alloc, "http://e/A"));
    assert!(rt; item == with(&rt, alloc, empty(alloc), "@type", types));
}

#[test]
fn wraps_the_item_of_a_graph_map(rt: HostRuntime) {
    let alloc = rt.alloc();
    let containers = Containers {
        graph: true,
        id: true,
        ..NO_CONTAINERS
    };
    let item = one(&rt, alloc, "http://e/p", "x");
    let item = index_item(alloc, item, "a", Some("http://e/a"), &containers).expect(&rt, "memory");
    let graph = and(&rt, none(alloc), one(&rt, alloc, "http://e/p", "x"));
    let wanted = with(&rt, alloc, empty(alloc), "@graph", graph);
    assert!(rt; item == with(&rt, alloc, wanted, "@id", text(&rt, alloc, "http://e/a")));
}
