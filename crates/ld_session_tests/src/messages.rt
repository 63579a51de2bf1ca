//! Requests, and the replies to them.
use std::alloc::Global;
use std::test::Fail;

/// The types of bodies.
pub(crate) const JSON: &str = "application/json";

pub(crate) const LD_JSON: &str = "application/ld+json";

/// An evaluation that needs no context from elsewhere.
pub(crate) const ANN: &str =
    "POST /expand HTTP/1.1\r\nHost: h\r\nContent-Length: 107\r\n\r\n{\"document\":{\"@context\":{\"name\":\"http://xmlns.com/foaf/0.1/name\"},\"@id\":\"http://a.example/1\",\"name\":\"Ann\"}}";

/// What the first request of a session gets for it.
pub(crate) const ANN_REPLY: &str =
    "HTTP/1.1 200 OK\r\nContent-Type: application/ld+json\r\nContent-Length: 82\r\nLD-Request: 1\r\nLD-Version: 0\r\n\r\n[{\"@id\":\"http://a.example/1\",\"http://xmlns.com/foaf/0.1/name\":[{\"@value\":\"Ann\"}]}]";

/// An envelope whose document needs the context `http://c/x`.
pub(crate) const WITH_X: &str = r#"{"document":{"@context":"http://c/x","n":"a"}}"#;

/// A text for that context, and what the document comes to by it.
pub(crate) const X: &str = r#"{"@context":{"n":"http://e/n"}}"#;

pub(crate) const X_RESULT: &str = r#"[{"http://e/n":[{"@value":"a"}]}]"#;

/// What a load comes to that was the first of its loader, and of the book, and failed.
pub(crate) const X_FAULT: &str =
    r#"{"after":1,"before":0,"flight":1,"iri":"http://c/x","own":"load fault"}"#;

/// A request that posts this body to this path.
pub(crate) fn post(alloc: Global, path: &str, body: &str) -> Result<String, Fail> {
    let length = body.len();
    Ok(format!(in alloc;
        "POST {path} HTTP/1.1\r\nHost: h\r\nContent-Length: {length}\r\n\r\n{body}"
    )?)
}

/// A request, and the reply that it gets, both of which stand in the history.
#[derive(Clone, Copy)]
pub(crate) struct Exchange<'a> {
    pub path: &'a str,
    pub asked: &'a str,
    /// With its phrase.
    pub status: &'a str,
    pub media: &'a str,
    /// The version that the request pinned last.
    pub version: u64,
    pub answered: &'a str,
}

impl<'a> Exchange<'a> {
    pub(crate) fn request(&self, alloc: Global) -> Result<String, Fail> {
        post(alloc, self.path, self.asked)
    }

    /// The reply, where the request has this number in its session.
    pub(crate) fn reply(&self, alloc: Global, number: usize) -> Result<String, Fail> {
        let Exchange {
            path: _,
            asked: _,
            status,
            media,
            version,
            answered,
        } = self;
        let length = answered.len();
        Ok(format!(in alloc;
            "HTTP/1.1 {status}\r\nContent-Type: {media}\r\nContent-Length: {length}\r\nLD-Request: {number}\r\nLD-Version: {version}\r\n\r\n{answered}"
        )?)
    }
}
