//! Requests, and the replies to them.
use std::alloc::Global;
use std::test::Fail;

/// An evaluation that needs no context from elsewhere.
pub(crate) const ANN: &str =
    "POST /expand HTTP/1.1\r\nHost: h\r\nContent-Length: 107\r\n\r\n{\"document\":{\"@context\":{\"name\":\"http://xmlns.com/foaf/0.1/name\"},\"@id\":\"http://a.example/1\",\"name\":\"Ann\"}}";

/// What goes out for it, where it is the request of this number and pins this version.
pub(crate) fn ann_reply(alloc: Global, number: u64, version: u64) -> Result<String, Fail> {
    Ok(format!(in alloc;
        "HTTP/1.1 200 OK\r\nContent-Type: application/ld+json\r\nContent-Length: 82\r\nLD-Request: {number}\r\nLD-Version: {version}\r\n\r\n[{{\"@id\":\"http://a.example/1\",\"http://xmlns.com/foaf/0.1/name\":[{{\"@value\":\"Ann\"}}]}}]"
    )?)
}

/// An evaluation that needs the context `http://c/x`, a text for that, and what goes out then.
pub(crate) const WITH_X: &str =
    "POST /expand HTTP/1.1\r\nHost: h\r\nContent-Length: 46\r\n\r\n{\"document\":{\"@context\":\"http://c/x\",\"n\":\"a\"}}";

pub(crate) const X: &str = r#"{"@context":{"n":"http://e/n"}}"#;

pub(crate) const X_REPLY: &str =
    "HTTP/1.1 200 OK\r\nContent-Type: application/ld+json\r\nContent-Length: 33\r\nLD-Request: 1\r\nLD-Version: 1\r\n\r\n[{\"http://e/n\":[{\"@value\":\"a\"}]}]";
